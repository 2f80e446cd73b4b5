// The machines that programs are for.
ghost use Rattle.std.specs.Prelude.{◌≡◌};
ghost use Rattle.ap_elf.specs.Machines.{granule_of, number_of};

use crate::constants::{EM_AARCH64, EM_X86_64};

/// A machine that a program is for.
#[derive(Clone, Copy, Debug, PartialEq, Eq)]
pub enum Machine {
    /// x86-64.
    X64,
    /// AArch64.
    A64,
}

impl Machine {
    /// The bytes of the largest page that kernels of the machine map by: 4096, or 16384 for AArch64.
    pub fn granule(self) -> u64
        ensures { result ≡ granule_of self }
    {
        match self {
            Machine::X64 => 4096,
            Machine::A64 => 16384,
        }
    }

    /// The machine's number in ELF headers (System V gABI, `e_machine`).
    pub fn number(self) -> u16
        ensures { result ≡ number_of self }
    {
        match self {
            Machine::X64 => EM_X86_64,
            Machine::A64 => EM_AARCH64,
        }
    }
}
