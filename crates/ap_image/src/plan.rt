// Plans and their regions.
use ap_fields::Perms;
use arrayvec::ArrayVec;
use std::marker::Model;

/// Addresses that show a part of a file, and zeros behind it.
#[derive(Clone, Copy, PartialEq, Eq, Debug, Default)]
pub struct Region {
    /// The first address.
    pub start: u64,
    /// How many addresses there are. Not 0.
    pub span: u64,
    /// How many of them, from the first on, show the file's bytes.
    pub backed: u64,
    /// The place in the file that the first address shows, or 0 where none shows the file.
    pub at: u64,
    /// What may be done with the memory.
    pub perms: Perms,
}

/// The most regions of a plan: those of the 96 sections that a PE file has at most, and that of its headers.
pub const MOST_REGIONS: usize = 96 + 1;

/// What a file puts into memory: regions that ascend, don't overlap and end at or below 2^47, and where the program
/// starts.
#[derive(Drop)]
pub struct Plan {
    pub regions: ArrayVec<Region, MOST_REGIONS>,
    /// The address at which the program starts. It needn't be in a region.
    pub entry: u64,
}

impl Model for Plan {
    ghost use Rattle.ap_image.specs.Plans.{Mapping, AreAscendingFrom};

    ghost Value = { Mapping };

    ghost view = { λ p. record { regions = p.regions.items; entry = p.entry } };

    ghost invariant = { λ p. AreAscendingFrom 0 p.regions.items };
}
