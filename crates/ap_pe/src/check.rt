// The first of some rules that fails.
ghost use Rattle.std.specs.Prelude.{◌≡◌};
ghost use Rattle.ap_pe.specs.PeReading as spec;
ghost use Rattle.ap_pe.specs.PeReading.{Checks};

use crate::fault::{PeCause, PeFault};

/// A refusal: its cause, the section counted from 1, or 0, and the number that was found.
pub fn refusal(cause: PeCause, item: u16, value: u64) -> PeFault
    ensures { result ≡ spec.refusal cause item value }
{
    PeFault { cause, item, value }
}

/// The fault of the first rule that doesn't hold.
pub fn check_rules(rules: &[(bool, PeFault)]) -> Result<(), PeFault>
    ensures { Checks result rules.now }
{
    for (holds, fault) in rules {
        if !*holds {
            return Err(*fault);
        }
    }
    Ok(())
}
