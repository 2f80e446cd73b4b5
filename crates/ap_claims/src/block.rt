// The block, and claims of its bytes.
ghost use Rattle.std.specs.Prelude.{◌≡◌, ◌+◌, ◌<◌, ◌≤◌, length, slice_index};
ghost use Rattle.ap_fields.specs.declared.sizes.TheConstants.{BLOCK};
ghost use Rattle.ap_claims.specs.Blocks.{IsBlock, agrees, clash_at, clash_of, claimed_at, free_block, Claims};

use crate::owner::{Owner, Owners, first, set_of};
use ap_fields::BLOCK;
use bitflags::Flags;
use std::marker::Model;

/// The first byte of a claim that is held with another value.
#[derive(Clone, Copy, PartialEq, Eq, Debug)]
pub struct Clash {
    /// Its place in the block.
    pub at: usize,
    /// The value that it is held with.
    pub held: u8,
    /// The value that was asked for.
    pub asked: u8,
    /// The first of its owners, in the enum's order.
    pub by: Owner,
}

/// The bytes of a linked file before its first area, and the owners of each. A byte without an owner is free, and is 0.
#[derive(Drop)]
pub struct Block {
    bytes: [u8; BLOCK],
    owners: [Owners; BLOCK],
}

impl Model for Block {
    ghost use Rattle.std.specs.Prelude.{map};
    ghost use Rattle.ap_claims.specs.Blocks.{BlockState, IsBlock};

    ghost Value = { BlockState };

    ghost view = { λ b. record { bytes = b.bytes; owners = map (λ o. o.0) b.owners } };

    ghost invariant = { λ b. IsBlock (record { bytes = b.bytes; owners = map (λ o. o.0) b.owners }) };
}

impl Block {
    /// A block of which every byte is free.
    pub fn new() -> Block
        ensures { result ≡ free_block }
    {
        Block {
            bytes: [0; BLOCK],
            owners: [Owners::from_bits_retain(0); BLOCK],
        }
    }

    /// Claims a range for an owner. `Ok` where each byte of the range is free or has the value asked for; then the range
    /// holds the bytes, and the owner is added to the owners of each. Else the first byte that is held with another value,
    /// and nothing has changed.
    pub fn claim(&mut self, o: Owner, at: usize, bytes: &[u8]) -> Result<(), Clash>
        requires { at + length bytes.now ≤ BLOCK }
        ensures { Claims o self.old self.new at bytes.now result }
    {
        if let Some(clash) = self.clash_in(at, bytes) {
            return Err(clash);
        }
        for (i, byte) in bytes.iter().enumerate() {
            self.claim_byte(o, at + i, *byte);
        }
        Ok(())
    }

    /// The owners of a byte.
    #[tactic(auto, using(crate::proofs::Bytewise::one_steps))]
    pub fn owners(&self, at: usize) -> Owners
        requires { at < BLOCK }
        ensures { result.0 ≡ slice_index self.now.owners at }
    {
        self.owners[at]
    }

    /// The bytes.
    pub fn bytes(&self) -> &[u8]
        ensures value { result.now ≡ self.now.bytes }
        ensures block { IsBlock self.now }
    {
        &self.bytes
    }

    #[tactic(auto, using(crate::proofs::Bytewise::clash_steps))]
    fn clash_in(&self, at: usize, bytes: &[u8]) -> Option<Clash>
        requires { at + length bytes.now ≤ BLOCK }
        ensures { result ≡ clash_of self.now at bytes.now }
    {
        for (i, asked) in bytes.iter().enumerate() {
            if !self.agrees(at + i, *asked) {
                return Some(self.clash(at + i, *asked));
            }
        }
        None
    }

    #[tactic(auto, using(crate::proofs::Bytewise::one_steps))]
    fn agrees(&self, at: usize, asked: u8) -> bool
        requires { at < BLOCK }
        ensures { result ≡ agrees self.now at asked }
    {
        self.owners[at].bits() == 0 || self.bytes[at] == asked
    }

    #[tactic(auto, using(crate::proofs::Bytewise::one_steps))]
    fn clash(&self, at: usize, asked: u8) -> Clash
        requires { at < BLOCK }
        ensures { result ≡ clash_at self.now at asked }
    {
        Clash {
            at,
            held: self.bytes[at],
            asked,
            by: first(self.owners[at]),
        }
    }

    fn claim_byte(&mut self, o: Owner, at: usize, byte: u8)
        requires { at < BLOCK }
        ensures { self.new ≡ claimed_at o self.old at byte }
    {
        let owners = self.owners[at].union(set_of(o));
        self.bytes[at] = byte;
        self.owners[at] = owners;
    }
}
