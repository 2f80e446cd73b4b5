// Owners of bytes, and sets of them.
ghost use Rattle.std.specs.Prelude.{⊤, ◌≡◌, [], ◌∷◌, codes};
ghost use Rattle.ap_claims.specs.Blocks.{first_owner, only};

use bitflags::{Flag, Flags, bitflag_items};

/// Who claims bytes of a linked file: the part of the file format that they belong to.
#[derive(Clone, Copy, PartialEq, Eq, Debug)]
pub enum Owner {
    /// The shell script, and what stands around it.
    Shell,
    /// The DOS header's fields that lead to the PE headers.
    Dos,
    /// The PE headers.
    Pe,
    /// What an APE loader looks for: the magic, and the statements that spell ELF headers.
    Ape,
    /// The program header tables.
    Elf,
    /// The Mach-O header.
    Mach,
    /// The contents of loads.
    Area,
}

/// A set of owners: bit i, from the lowest on, is the enum's owner i.
#[derive(Clone, Copy, PartialEq, Eq, Debug, Default)]
pub struct Owners(u8);

bitflag_items! {
    impl Owners: u8 {
        const SHELL = 1;
        const DOS = 2;
        const PE = 4;
        const APE = 8;
        const ELF = 16;
        const MACH = 32;
        const AREA = 64;
    }
}

impl Flags for Owners {
    type Bits = u8;

    ghost exact = { ⊤ };

    ghost table = { (codes "SHELL", 1) ∷ (codes "DOS", 2) ∷ (codes "PE", 4) ∷ (codes "APE", 8) ∷ (codes "ELF", 16) ∷ (codes "MACH", 32) ∷ (codes "AREA", 64) ∷ [] };

    ghost set_of = { λ o. o.0 };

    fn flags<'a>() -> &'a [Flag<Owners>] {
        Owners::FLAGS
    }

    fn bits(&self) -> u8
        ensures { result ≡ self.now.0 }
    {
        self.0
    }

    fn from_bits_retain(bits: u8) -> Owners
        ensures { result.0 ≡ bits }
    {
        Owners(bits)
    }
}

/// The set of one owner.
pub fn set_of(o: Owner) -> Owners
    ensures { result.0 ≡ only o }
{
    match o {
        Owner::Shell => Owners::SHELL,
        Owner::Dos => Owners::DOS,
        Owner::Pe => Owners::PE,
        Owner::Ape => Owners::APE,
        Owner::Elf => Owners::ELF,
        Owner::Mach => Owners::MACH,
        Owner::Area => Owners::AREA,
    }
}

/// The first owner of a set that has one, in the enum's order.
pub fn first(set: Owners) -> Owner
    ensures { result ≡ first_owner set.0 }
{
    if set.contains(Owners::SHELL) {
        Owner::Shell
    } else if set.contains(Owners::DOS) {
        Owner::Dos
    } else if set.contains(Owners::PE) {
        Owner::Pe
    } else if set.contains(Owners::APE) {
        Owner::Ape
    } else if set.contains(Owners::ELF) {
        Owner::Elf
    } else if set.contains(Owners::MACH) {
        Owner::Mach
    } else {
        Owner::Area
    }
}
