// The first of some rules that fails.
ghost use Rattle.std.specs.Prelude.{◌≡◌};
ghost use Rattle.ap_mach.specs.MachReading as spec;
ghost use Rattle.ap_mach.specs.MachReading.{Checks};

use crate::fault::{MachCause, MachFault};

/// A refusal: its cause, the command counted from 1, or 0, and the number that was found.
pub fn refusal(cause: MachCause, item: u16, value: u64) -> MachFault
    ensures { result ≡ spec.refusal cause item value }
{
    MachFault { cause, item, value }
}

/// The fault of the first rule that doesn't hold.
pub fn check_rules(rules: &[(bool, MachFault)]) -> Result<(), MachFault>
    ensures { Checks result rules.now }
{
    for (holds, fault) in rules {
        if !*holds {
            return Err(*fault);
        }
    }
    Ok(())
}
