// Permissions.
ghost use Rattle.std.specs.Prelude.{⊤, ◌≡◌, [], ◌∷◌, codes};

use bitflags::{Flag, Flags, bitflag_items};

/// What may be done with memory: a set of execute (`X`, 1), write (`W`, 2) and read (`R`, 4), as in the flags of an ELF
/// program header.
#[derive(Clone, Copy, PartialEq, Eq, Debug, Default)]
pub struct Perms(u8);

bitflag_items! {
    impl Perms: u8 {
        const X = 1;
        const W = 2;
        const R = 4;
    }
}

impl Flags for Perms {
    type Bits = u8;

    ghost exact = { ⊤ };

    ghost table = { (codes "X", 1) ∷ (codes "W", 2) ∷ (codes "R", 4) ∷ [] };

    ghost set_of = { λ p. p.0 };

    fn flags<'a>() -> &'a [Flag<Perms>] {
        Perms::FLAGS
    }

    fn bits(&self) -> u8
        ensures { result ≡ self.now.0 }
    {
        self.0
    }

    fn from_bits_retain(bits: u8) -> Perms
        ensures { result.0 ≡ bits }
    {
        Perms(bits)
    }
}
