// The file parts of loads.
ghost use Rattle.std.specs.Prelude.{◌≡◌};
ghost use Rattle.ap_check.specs.Inputs as spec;

use crate::load::Load;

/// Whether `count` addresses from `address` on lie in the file part of one of the loads.
pub fn in_part(loads: &[Load], address: u64, count: u64) -> bool
    ensures { result ≡ spec.in_part address count loads.now }
{
    for p in loads {
        if has_part(p, address, count) {
            return true;
        }
    }
    false
}

fn has_part(p: &Load, address: u64, count: u64) -> bool
    ensures { result ≡ spec.has_part address count p.now }
{
    p.vaddr <= address && count <= p.filesz && address - p.vaddr <= p.filesz - count
}
