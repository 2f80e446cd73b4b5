// What stands before the bytes of a plan's image file.
ghost use Rattle.std.specs.Prelude.{◌≡◌, ◌<◌, ◌++◌, ◌^◌, length, flat_map, OnOk, IfOk};
ghost use Rattle.ap_fields.specs.Fields.{bytes_of};
ghost use Rattle.ap_image.specs.ImageFiles.{run_line, image_head, front_of};

use crate::plan::Plan;
use crate::run::{Run, joined};
use ap_files::NoMemory;
use bitflags::Flags;
use std::alloc::{AllocError, Global};

/// What stands before the bytes of a plan's image file: `APEIMAGE`; the entry in 8 bytes; the number of the runs in 4 bytes
/// and 4 zeros; and a line of 24 bytes for each run, which is its start and its length in 8 bytes each, its permissions in 4
/// bytes and 4 zeros.
pub fn image_front(alloc: Global, plan: &Plan) -> Result<Vec<u8>, NoMemory>
    ensures { IfOk result (λ front. front.items ≡ front_of plan.now) }
{
    front_bytes(alloc, plan).map_err(|_| NoMemory)
}

#[tactic(auto, using(std::proofs::Common::append_assoc, crate::proofs::RunLemmas::run_bounds), unfolding(crate::specs::ImageFiles::front_of))]
pub(crate) fn front_bytes(alloc: Global, plan: &Plan) -> Result<Vec<u8>, AllocError>
    ensures { IfOk result (λ front. front.items ≡ front_of plan.now) }
{
    let runs = joined(alloc, plan.regions.as_slice())?;
    let mut out = Vec::new(alloc);
    push_table(&mut out, plan.entry, &runs)?;
    Ok(out)
}

// Appends the head and a line for each run.
#[tactic(auto, using(std::proofs::Common::append_assoc))]
fn push_table(out: &mut Vec<u8>, entry: u64, runs: &[Run]) -> Result<(), AllocError>
    requires { length runs.now < 2 ^ 32 }
    ensures { OnOk result
        (out.new.items ≡ out.old.items ++
        (image_head entry (length runs.now) ++ flat_map run_line runs.now)) }
{
    push_head(out, entry, runs.len() as u32)?;
    for run in runs {
        push_line(out, run)?;
    }
    Ok(())
}

#[tactic(auto, using(std::proofs::Common::append_assoc), unfolding(crate::specs::ImageFiles::image_head))]
fn push_head(out: &mut Vec<u8>, entry: u64, count: u32) -> Result<(), AllocError>
    ensures { OnOk result (out.new.items ≡ out.old.items ++ image_head entry count) }
{
    out.extend_from_slice(b"APEIMAGE")?;
    push64(out, entry)?;
    push32(out, count)?;
    push32(out, 0)
}

#[tactic(auto, using(std::proofs::Common::append_assoc), unfolding(crate::specs::ImageFiles::run_line))]
fn push_line(out: &mut Vec<u8>, run: &Run) -> Result<(), AllocError>
    ensures { OnOk result (out.new.items ≡ out.old.items ++ run_line run.now) }
{
    push64(out, run.start)?;
    push64(out, run.length)?;
    push32(out, run.perms.bits() as u32)?;
    push32(out, 0)
}

#[tactic(auto, unfolding(ap_fields::specs::Fields::bytes_of))]
fn push32(out: &mut Vec<u8>, v: u32) -> Result<(), AllocError>
    ensures { OnOk result (out.new.items ≡ out.old.items ++ bytes_of 4 v) }
{
    out.extend_from_slice(&v.to_le_bytes())
}

#[tactic(auto, unfolding(ap_fields::specs::Fields::bytes_of))]
fn push64(out: &mut Vec<u8>, v: u64) -> Result<(), AllocError>
    ensures { OnOk result (out.new.items ≡ out.old.items ++ bytes_of 8 v) }
{
    out.extend_from_slice(&v.to_le_bytes())
}
