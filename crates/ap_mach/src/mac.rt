// What of a linked file is for macOS.
ghost use Rattle.std.specs.Prelude.{◌≡◌, ◌+◌, ◌≤◌, length, IfSome};
ghost use Rattle.std.specs.Option.{option_map};
ghost use Rattle.ap_fields.specs.declared.sizes.TheConstants.{BLOCK};
ghost use Rattle.ap_claims.specs.Lists.{Makes};
ghost use Rattle.ap_layout.specs.Jobs.{job_inputs, placed_of, IsKnown};
ghost use Rattle.ap_layout.specs.Positions.{Fits};
ghost use Rattle.ap_check.specs.Mac.{mach_entry_of};
ghost use Rattle.ap_mach.specs.declared.constants.TheConstants.{MOST_HEADERS};
ghost use Rattle.ap_mach.specs.Written.{mach_claims};
ghost use Rattle.ap_mach.specs.Linked as spec;
ghost use Rattle.ap_mach.specs.Linked.{mac_claims};

use crate::write::write_headers;
use ap_check::{Input, Job, Machine, Systems, mach_entry};
use ap_claims::{Block, Clash};
use ap_layout::{Area, Layout, Placement, placed_for};
use bitflags::Flags;

/// Claims the Mach-O header for `Owner::Mach`, where macOS was chosen, an input is for x86-64, and the parts of the linked file have
/// these places. Nothing is claimed where there is none.
///
/// `Clash` comes exactly where a byte of it is held with another value, and is the first such byte. Then nothing has been claimed.
pub fn write_mach(block: &mut Block, job: &Job<'_>, lay: &Layout) -> Result<(), Clash>
    requires { Fits job.now.options (job_inputs job.now) lay.now }
    ensures { Makes block.old block.new (mac_claims job.now.options (job_inputs job.now) lay.now)
        result }
{
    match mach_place(job, lay) {
        None => Ok(()),
        Some(p) => write_input(block, p.input, p.areas, lay.mach_at),
    }
}

// The input for x86-64 with its places, where macOS was chosen.
fn mach_place<'i, 'l>(job: &Job<'i>, lay: &'l Layout) -> Option<Placement<'i, 'l>>
    requires { Fits job.now.options (job_inputs job.now) lay.now }
    ensures place { option_map placed_of result
        ≡ spec.mach_place job.now.options (job_inputs job.now) lay.now }
    ensures known { IfSome result (λ p. IsKnown (placed_of p)) }
{
    if job.options.systems.intersects(Systems::MAC) {
        placed_for(job, lay, Machine::X64)
    } else {
        None
    }
}

// Claims the header of an input whose loads have these areas, at a place.
fn write_input(block: &mut Block, e: &Input, areas: &[Area], at: u32) -> Result<(), Clash>
    requires same { length areas.now ≡ length e.now.loads }
    requires room { at + MOST_HEADERS ≤ BLOCK }
    ensures { Makes block.old block.new
        (mach_claims at (mach_entry_of e.now) e.now.loads areas.now) result }
{
    write_headers(block, at as usize, mach_entry(e), &e.loads, areas)
}
