// Faults, and the first of some rules that fails.
ghost use Rattle.std.specs.Prelude.{◌≡◌};
ghost use Rattle.ap_elf.specs.ElfReading.{refusal};
ghost use Rattle.ap_elfmap.specs.ElfPlans.{Checks};

use ap_elf::{ElfCause, ElfFault};

/// A refusal: its cause, the entry or load counted from 1, or 0, and the number that was found.
pub fn fault(cause: ElfCause, item: u16, value: u64) -> ElfFault
    ensures { result ≡ refusal cause item value }
{
    ElfFault { cause, item, value }
}

/// The fault of the first rule that doesn't hold.
pub fn check(rules: &[(bool, ElfFault)]) -> Result<(), ElfFault>
    ensures { Checks result rules.now }
{
    for (holds, fault) in rules {
        if !*holds {
            return Err(*fault);
        }
    }
    Ok(())
}
