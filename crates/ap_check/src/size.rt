// Rules 1 and 2.
ghost use Rattle.std.specs.Prelude.{◌≤◌, ◌^◌, OnOk};
ghost use Rattle.ap_check.specs.Rules.{Checks, size_rules};

use crate::fault::{Fault, broken, demand};
use ap_elf::constants::EHDR_SIZE;

/// Rules 1 and 2 of the input `number`, by its size in bytes alone, so that a file that is too large needn't be read: it
/// has at most 2^28 bytes (rule 1), and at least the 64 bytes of an ELF header (rule 2).
pub fn check_size(size: u64, number: u8) -> Result<(), Fault>
    ensures rules { Checks result (size_rules number size) }
    ensures least { OnOk result (64 ≤ size) }
    ensures most { OnOk result (size ≤ 2 ^ 28) }
{
    demand(size <= 1 << 28, broken(number, 1, 0, size))?;
    demand(size >= EHDR_SIZE as u64, broken(number, 2, 0, size))
}
