// Views of a block, each for one owner.
ghost use Rattle.std.specs.Prelude.{◌≡◌, ◌+◌, ◌≤◌, length};
ghost use Rattle.ap_fields.specs.Fields.{bytes_of};
ghost use Rattle.ap_fields.specs.declared.sizes.TheConstants.{BLOCK};
ghost use Rattle.ap_claims.specs.Blocks.{Claims};
ghost use Rattle.ap_claims.specs.declared.owner.Owner.{Owner};
ghost use Rattle.ap_claims.specs.declared.owner.Owner.TheVariants.{Elf, Pe, Mach};

use crate::block::{Block, Clash};
use crate::owner::Owner;
use std::marker::PhantomData;

/// Whom a view is for.
pub trait Claimant {
    ghost who: { Owner };

    /// The owner.
    fn owner() -> Owner
        ensures { result ≡ who };
}

/// A block from a place on, claimed for one owner. Numbers are claimed with the lowest byte first.
#[derive(Drop)]
pub struct View<'a, C: Claimant> {
    block: &'a mut Block,
    at: usize,
    of: PhantomData<C>,
}

impl<'a, C: Claimant> View<'a, C> {
    /// The block from `at` on.
    pub fn new(block: &'a mut Block, at: usize) -> View<'a, C>
        ensures same_reference { result.block.ghost_name ≡ block.entry.ghost_name }
        ensures lent { result.block.now ≡ block.old }
        ensures start { result.at ≡ at }
    {
        View {
            block,
            at,
            of: PhantomData,
        }
    }

    /// Claims the 2 bytes of a number, as `Block::claim` does.
    #[tactic(auto, unfolding(ap_fields::specs::Fields::bytes_of))]
    pub fn put16(&mut self, at: usize, v: u16) -> Result<(), Clash>
        requires { self.old.at + at + 2 ≤ BLOCK }
        ensures same_reference { self.new.block.ghost_name ≡ self.old.block.ghost_name }
        ensures start { self.new.at ≡ self.old.at }
        ensures claim { Claims C.who self.old.block.now self.new.block.now (self.old.at + at)
            (bytes_of 2 v) result }
    {
        self.put_bytes(at, &v.to_le_bytes())
    }

    /// Claims the 4 bytes of a number, as `Block::claim` does.
    #[tactic(auto, unfolding(ap_fields::specs::Fields::bytes_of))]
    pub fn put32(&mut self, at: usize, v: u32) -> Result<(), Clash>
        requires { self.old.at + at + 4 ≤ BLOCK }
        ensures same_reference { self.new.block.ghost_name ≡ self.old.block.ghost_name }
        ensures start { self.new.at ≡ self.old.at }
        ensures claim { Claims C.who self.old.block.now self.new.block.now (self.old.at + at)
            (bytes_of 4 v) result }
    {
        self.put_bytes(at, &v.to_le_bytes())
    }

    /// Claims the 8 bytes of a number, as `Block::claim` does.
    #[tactic(auto, unfolding(ap_fields::specs::Fields::bytes_of))]
    pub fn put64(&mut self, at: usize, v: u64) -> Result<(), Clash>
        requires { self.old.at + at + 8 ≤ BLOCK }
        ensures same_reference { self.new.block.ghost_name ≡ self.old.block.ghost_name }
        ensures start { self.new.at ≡ self.old.at }
        ensures claim { Claims C.who self.old.block.now self.new.block.now (self.old.at + at)
            (bytes_of 8 v) result }
    {
        self.put_bytes(at, &v.to_le_bytes())
    }

    /// Claims bytes, as `Block::claim` does.
    pub fn put_bytes(&mut self, at: usize, bytes: &[u8]) -> Result<(), Clash>
        requires { self.old.at + at + length bytes.now ≤ BLOCK }
        ensures same_reference { self.new.block.ghost_name ≡ self.old.block.ghost_name }
        ensures start { self.new.at ≡ self.old.at }
        ensures claim { Claims C.who self.old.block.now self.new.block.now (self.old.at + at)
            bytes.now result }
    {
        self.block.claim(C::owner(), self.at + at, bytes)
    }
}

/// The owner of the program header tables.
#[derive(Drop)]
pub struct OfElf;

impl Claimant for OfElf {
    ghost who = { Elf };

    fn owner() -> Owner {
        Owner::Elf
    }
}

/// The owner of the PE headers.
#[derive(Drop)]
pub struct OfPe;

impl Claimant for OfPe {
    ghost who = { Pe };

    fn owner() -> Owner {
        Owner::Pe
    }
}

/// The owner of the Mach-O header.
#[derive(Drop)]
pub struct OfMach;

impl Claimant for OfMach {
    ghost who = { Mach };

    fn owner() -> Owner {
        Owner::Mach
    }
}

/// A view for the owner of the program header tables.
pub type ElfView<'a> = View<'a, OfElf>;

/// A view for the owner of the PE headers.
pub type PeView<'a> = View<'a, OfPe>;

/// A view for the owner of the Mach-O header.
pub type MachView<'a> = View<'a, OfMach>;
