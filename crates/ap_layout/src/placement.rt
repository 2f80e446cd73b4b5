// An input with the places of its parts.
use crate::layout::Area;
use ap_check::Input;

/// An input with the places of its parts in the linked file.
#[derive(Clone, Copy)]
pub struct Placement<'i, 'l> {
    pub input: &'i Input,
    /// The areas of its loads, in their order.
    pub areas: &'l [Area],
    /// The place of its program header table.
    pub table: u32,
}
