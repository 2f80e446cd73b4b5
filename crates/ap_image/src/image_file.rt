// The image file of a plan.
ghost use Rattle.std.specs.Prelude.{◌≡◌, ◌≤◌, ◌<◌, ◌+◌, ◌-◌, ◌++◌, ◌^◌, length, flat_map, Ok, Err, OnOk, IfOk, IfErr};
ghost use Rattle.ap_fields.specs.Readings.{bytes_in};
ghost use Rattle.ap_fields.specs.Bytes.{zeros};
ghost use Rattle.ap_image.specs.Plans.{AreAscendingFrom, AreBacked, IsRegion};
ghost use Rattle.ap_image.specs.ImageFiles.{total_of, region_bytes, image_file};

use crate::front::front_bytes;
use crate::piece::whole_piece;
use crate::plan::{Plan, Region};
use std::alloc::{AllocError, Global};

/// Why there is no image file of a plan.
#[derive(Clone, Copy, PartialEq, Eq, Debug)]
pub enum DumpFault {
    /// The regions have more than 2^30 addresses.
    Wide {
        /// How many they have.
        total: u64,
    },
    /// No memory is left for the image file.
    NoMemory,
}

/// The image file of a plan over a file: `APEIMAGE`; the entry in 8 bytes; the number of the runs in 4 bytes and 4 zeros;
/// a line of 24 bytes for each run, which is its start and its length in 8 bytes each, its permissions in 4 bytes and 4
/// zeros; and the bytes at the addresses of all runs in order. Numbers have their lowest byte first.
///
/// `Wide` comes exactly where the regions have more than 2^30 addresses.
pub fn dump(alloc: Global, plan: &Plan, file: &[u8]) -> Result<Vec<u8>, DumpFault>
    requires { AreBacked plan.now.regions (length file.now) }
    ensures bytes { IfOk result (λ image. image.items ≡ image_file (bytes_in file.now) plan.now) }
    ensures wide { 2 ^ 30 < total_of plan.now.regions → result ≡ Err
        (DumpFault.Wide (total_of plan.now.regions)) }
    ensures narrow { IfErr result
        (λ fault. total_of plan.now.regions ≤ 2 ^ 30 → fault ≡ DumpFault.NoMemory) }
{
    let total = address_count(plan);
    if total > 1 << 30 {
        return Err(DumpFault::Wide { total });
    }
    written(alloc, plan, file).map_err(|_| DumpFault::NoMemory)
}

/// How many addresses the regions of a plan have.
pub fn address_count(plan: &Plan) -> u64
    ensures { result ≡ total_of plan.now.regions }
{
    total(plan.regions.as_slice())
}

#[tactic(auto, using(crate::proofs::Totals::total_steps))]
fn total(regions: &[Region]) -> u64
    requires { AreAscendingFrom 0 regions.now }
    ensures { result ≡ total_of regions.now }
{
    let mut total = 0;
    for r in regions {
        total += r.span;
    }
    total
}

#[tactic(auto, using(std::proofs::Common::append_assoc, crate::proofs::RunBytes::byte_steps), unfolding(crate::specs::ImageFiles::image_file))]
fn written(alloc: Global, plan: &Plan, file: &[u8]) -> Result<Vec<u8>, AllocError>
    requires { AreBacked plan.now.regions (length file.now) }
    ensures { IfOk result (λ image. image.items ≡ image_file (bytes_in file.now) plan.now) }
{
    let mut out = front_bytes(alloc, plan)?;
    push_regions(&mut out, plan.regions.as_slice(), file)?;
    Ok(out)
}

// Appends the bytes of regions.
fn push_regions(out: &mut Vec<u8>, regions: &[Region], file: &[u8]) -> Result<(), AllocError>
    requires regions { AreAscendingFrom 0 regions.now }
    requires backed { AreBacked regions.now (length file.now) }
    ensures { OnOk result
        (out.new.items ≡ out.old.items ++ flat_map (region_bytes (bytes_in file.now)) regions.now) }
{
    for r in regions {
        push_region(out, r, file)?;
    }
    Ok(())
}

// Appends the piece that is the whole of a region.
#[tactic(auto, using(std::proofs::Common::append_assoc, crate::proofs::PieceLemmas::whole_steps))]
fn push_region(out: &mut Vec<u8>, r: &Region, file: &[u8]) -> Result<(), AllocError>
    requires region { IsRegion r.now }
    requires backed { r.now.at + r.now.backed ≤ length file.now }
    ensures { OnOk result
        (out.new.items ≡ out.old.items ++ region_bytes (bytes_in file.now) r.now) }
{
    let piece = whole_piece(r, file);
    out.extend_from_slice(piece.bytes)?;
    push_zeros(out, piece.zeros as usize)
}

#[tactic(auto, unfolding(ap_fields::specs::Bytes::zeros))]
fn push_zeros(out: &mut Vec<u8>, count: usize) -> Result<(), AllocError>
    ensures { OnOk result (out.new.items ≡ out.old.items ++ zeros count) }
{
    match out.len().checked_add(count) {
        Some(end) => out.resize(end, 0),
        None => Err(AllocError),
    }
}
