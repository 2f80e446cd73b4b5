// Zeros, appended to bytes.
ghost use Rattle.std.specs.Prelude.{◌≡◌, ◌++◌, OnOk};
ghost use Rattle.ap_fields.specs.Bytes.{zeros};

use std::alloc::AllocError;

#[tactic(auto, unfolding(ap_fields::specs::Bytes::zeros))]
pub(crate) fn push_zeros(out: &mut Vec<u8>, count: u64) -> Result<(), AllocError>
    ensures { OnOk result (out.new.items ≡ out.old.items ++ zeros count) }
{
    match out.len().checked_add(count as usize) {
        Some(end) => out.resize(end, 0),
        None => Err(AllocError),
    }
}
