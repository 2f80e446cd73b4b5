// Plans over files in memory, and the pieces that they show.
ghost use Rattle.std.specs.Prelude.{◌≡◌, ◌≤◌, ◌<◌, ◌+◌, ◌++◌, length, IfSome};
ghost use Rattle.ap_fields.specs.Bytes.{zeros};
ghost use Rattle.ap_fields.specs.Readings.{bytes_in};
ghost use Rattle.ap_image.specs.Plans.{AreAscendingFrom, AreBacked, IsRegion, end_of, region_at};
ghost use Rattle.ap_image.specs.Images.{IsPieceOf, IsPieceAt, HasCells};
ghost use Rattle.ap_image.specs.ImageFiles.{region_bytes};

use crate::cells::ended;
use crate::plan::{Plan, Region};
use ap_fields::Perms;
use std::marker::Model;

/// A plan over a file in memory.
#[derive(Drop)]
pub struct Image<'f> {
    plan: Plan,
    file: &'f [u8],
}

impl<'f> Model for Image<'f> {
    ghost use Rattle.std.specs.Prelude.{length};
    ghost use Rattle.ap_image.specs.Plans.{Imaged, AreBacked};

    ghost Value = { Imaged };

    ghost view = { λ i. record { plan = i.plan; file = i.file.now } };

    ghost invariant = { λ i. AreBacked i.plan.regions (length i.file.now) };
}

/// What stands at addresses that follow one another: bytes of a file, and zeros behind them.
#[derive(Clone, Copy, PartialEq, Eq, Debug)]
pub struct Piece<'f> {
    /// The bytes, as they stand in the file.
    pub bytes: &'f [u8],
    /// How many zeros there are behind them.
    pub zeros: u64,
    /// What may be done with the memory.
    pub perms: Perms,
}

impl<'f> Image<'f> {
    /// A plan over a file, of which each region shows bytes that lie in the file.
    pub fn new(plan: Plan, file: &'f [u8]) -> Image<'f>
        requires { AreBacked plan.regions (length file.now) }
        ensures { result ≡ record { plan = plan; file = file.now } }
    {
        Image { plan, file }
    }

    /// The plan.
    pub fn plan(&self) -> &Plan
        ensures { result.now ≡ self.now.plan }
    {
        &self.plan
    }

    /// The file.
    pub(crate) fn file(&self) -> &'f [u8]
        ensures file { result.now ≡ self.now.file }
        ensures backed { AreBacked self.now.plan.regions (length result.now) }
    {
        self.file
    }

    /// What stands from the address `a` on, up to the end of its region, and no more than `most` addresses. `None` exactly
    /// where no region has `a`.
    pub fn piece(&self, a: u64, most: u64) -> Option<Piece<'f>>
        requires { 0 < most }
        ensures piece { IsPieceAt self.now.file (region_at self.now.plan.regions a) a most result }
        ensures cells { IfSome result (λ p. HasCells self.now.file self.now.plan.regions a p) }
    {
        piece_in(self.plan.regions.as_slice(), self.file, a, most)
    }
}

// What stands from an address on that some of the regions may have.
#[tactic(auto, using(crate::proofs::RegionCells::cell_steps, crate::proofs::PieceLemmas::piece_steps))]
fn piece_in<'f>(regions: &[Region], file: &'f [u8], a: u64, most: u64) -> Option<Piece<'f>>
    requires regions { AreAscendingFrom 0 regions.now }
    requires backed { AreBacked regions.now (length file.now) }
    ensures piece { IsPieceAt file.now (region_at regions.now a) a most result }
    ensures cells { IfSome result (λ p. HasCells file.now regions.now a p) }
{
    let r = regions.get(ended(regions, a))?;
    if a < r.start {
        return None;
    }
    Some(piece_of(r, file, a, most))
}

/// The piece of a region from one of its addresses on.
pub(crate) fn piece_of<'f>(r: &Region, file: &'f [u8], a: u64, most: u64) -> Piece<'f>
    requires address { r.now.start ≤ a }
    requires end { a < end_of r.now }
    requires region { IsRegion r.now }
    requires backed { r.now.at + r.now.backed ≤ length file.now }
    ensures { IsPieceOf file.now r.now a most result }
{
    let offset = a - r.start;
    let count = most.min(r.span - offset);
    let skipped = offset.min(r.backed);
    let backed = count.min(r.backed - skipped);
    let from = (r.at + skipped) as usize;
    Piece {
        bytes: &file[from..from + backed as usize],
        zeros: count - backed,
        perms: r.perms,
    }
}

/// The piece that is the whole of a region.
#[tactic(auto, using(crate::proofs::PieceLemmas::whole_steps))]
pub(crate) fn whole_piece<'f>(r: &Region, file: &'f [u8]) -> Piece<'f>
    requires region { IsRegion r.now }
    requires backed { r.now.at + r.now.backed ≤ length file.now }
    ensures { region_bytes (bytes_in file.now) r.now ≡ result.bytes.now ++ zeros result.zeros }
{
    piece_of(r, file, r.start, r.span)
}
