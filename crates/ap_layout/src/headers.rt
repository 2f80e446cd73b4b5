// How long the PE headers are.
ghost use Rattle.std.specs.Prelude.{◌≡◌, ◌+◌, ◌^◌, ◌≤◌, ◌<◌, ℕ, length, option_copied};
ghost use Rattle.ap_fields.specs.Granules.{IsGranule};
ghost use Rattle.ap_fields.specs.declared.sizes.TheConstants.{MOST_LOADS};
ghost use Rattle.ap_check.specs.Inputs.{AreLoads, inputs_of};
ghost use Rattle.ap_layout.specs.declared.sizes.TheConstants.{MOST_HEADERS, MOST_SECTIONS};
ghost use Rattle.ap_layout.specs.Headers as spec;

use crate::sizes::{PE_HEADERS, SECTION_HEADER};
use ap_check::{Job, Load, Systems};
use ap_fields::{PE_SPAN, ceil_to, floor_to};
use bitflags::Flags;

/// The bytes of the PE headers, 0 where Windows wasn't chosen.
pub fn pe_length(job: &Job<'_>) -> u32
    ensures length { result ≡ spec.pe_length job.now.options
        (inputs_of job.now.first.now (option_copied job.now.second)) }
    ensures few { result ≤ MOST_HEADERS }
{
    if !job.options.systems.intersects(Systems::WINDOWS) {
        return 0;
    }
    match job.x64() {
        None => 0,
        Some(e) => {
            let front = job.base + PE_SPAN as u64;
            PE_HEADERS + SECTION_HEADER * section_count(&e.loads, front, e.machine.granule())
        }
    }
}

// How many sections loads have, where what stands in front of them ends at `front`.
#[tactic(auto, using(ap_fields::proofs::Granules::powers))]
fn section_count(loads: &[Load], front: u64, granule: u64) -> u32
    requires granule { IsGranule granule }
    requires few { length loads.now ≤ MOST_LOADS }
    requires loads { (size : ℕ) × AreLoads granule size 0 loads.now }
    ensures count { result ≡ spec.section_count granule front loads.now }
    ensures few { result ≤ MOST_SECTIONS }
{
    let mut end = front;
    let mut count = 0;
    for p in loads {
        count += if end < floor_to(p.vaddr, granule) {
            2
        } else {
            1
        };
        end = ceil_to(p.vaddr + p.memsz, granule);
    }
    count
}
