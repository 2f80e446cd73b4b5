// What a linked file is for.
ghost use Rattle.std.specs.Prelude.{⊤, ◌≡◌, [], ◌∷◌, codes};

use bitflags::{Flag, Flags, bitflag_items};

/// The systems that a linked file is to run on.
#[derive(Clone, Copy, PartialEq, Eq, Debug, Default)]
pub struct Systems(u8);

bitflag_items! {
    impl Systems: u8 {
        const LINUX = 1;
        const FREEBSD = 2;
        const NETBSD = 4;
        const WINDOWS = 8;
        const MAC = 16;
    }
}

impl Flags for Systems {
    type Bits = u8;

    ghost exact = { ⊤ };

    ghost table = { (codes "LINUX", 1) ∷ (codes "FREEBSD", 2) ∷ (codes "NETBSD", 4) ∷ (codes "WINDOWS", 8) ∷ (codes "MAC", 16) ∷ [] };

    ghost set_of = { λ s. s.0 };

    fn flags<'a>() -> &'a [Flag<Systems>] {
        Systems::FLAGS
    }

    fn bits(&self) -> u8
        ensures { result ≡ self.now.0 }
    {
        self.0
    }

    fn from_bits_retain(bits: u8) -> Systems
        ensures { result.0 ≡ bits }
    {
        Systems(bits)
    }
}

/// What is asked of a linked file.
#[derive(Clone, Copy, PartialEq, Eq, Debug, Default)]
pub struct Options {
    /// The systems that it is to run on.
    pub systems: Systems,
    /// Whether it begins with `APEDBG='`, which debuggers and kernels take for a script alone.
    pub debug: bool,
}
