// Which loads of two inputs have the same content.
use ap_fields::MOST_LOADS;
use arrayvec::ArrayVec;

/// Which loads of the first input have the content of a load of the second, so that one area may serve both.
#[derive(Drop)]
pub struct Twins {
    /// A mask for each load of the second input, in their order: bit `i`, counted from 0, says that load `i` of the first
    /// input has the same content.
    pub masks: ArrayVec<u32, MOST_LOADS>,
}
