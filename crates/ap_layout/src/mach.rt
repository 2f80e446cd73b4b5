// Where the Mach-O header stands.
ghost use Rattle.std.specs.Prelude.{◌≡◌, option_copied};
ghost use Rattle.ap_layout.specs.Jobs.{job_inputs};
ghost use Rattle.ap_layout.specs.MachPlaces as spec;
ghost use Rattle.ap_layout.specs.MachPlaces.{mach_start, mach_length};

use crate::sizes::{MACH_HEADER, SEGMENT_COMMAND, THREAD_COMMAND};
use ap_check::{Input, Job, Systems};
use ap_fields::WINDOW;
use bitflags::Flags;

/// The input for x86-64, where macOS was chosen.
pub fn mach_input<'a>(job: &Job<'a>) -> Option<&'a Input>
    ensures { option_copied result ≡ spec.mach_input job.now.options (job_inputs job.now) }
{
    if job.options.systems.intersects(Systems::MAC) {
        job.x64()
    } else {
        None
    }
}

/// The place of the Mach-O header and its length in bytes, both 0 where there is none.
#[derive(Clone, Copy)]
pub(crate) struct MachPlace {
    pub at: u32,
    pub len: u32,
}

/// Where the Mach-O header stands.
pub(crate) fn mach_place(job: &Job<'_>) -> MachPlace
    ensures at { result.at ≡ mach_start job.now.options (job_inputs job.now) }
    ensures len { result.len ≡ mach_length job.now.options (job_inputs job.now) }
{
    match mach_input(job) {
        None => MachPlace { at: 0, len: 0 },
        Some(e) => MachPlace {
            at: WINDOW as u32,
            len: MACH_HEADER + SEGMENT_COMMAND * (1 + e.loads.len() as u32) + THREAD_COMMAND,
        },
    }
}
