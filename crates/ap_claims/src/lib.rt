//! The first bytes of a linked file as a block in which owners claim ranges: two owners may claim one byte where both
//! want the same value, and what can't be had is told.
#![tactic(auto)]

mod block; // the block, and claims of its bytes
mod owner; // who claims them
mod view; // the block from a place on, for one owner
mod laws; // what claims come to

pub use block::{Block, Clash};
pub use laws::{claims_are_exact, claims_fill_a_block, claims_have_one_file, writers_join};
pub use owner::{Owner, Owners};
pub use view::{Claimant, ElfView, MachView, OfElf, OfMach, OfPe, PeView, View};
