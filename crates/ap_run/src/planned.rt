// The plans of files, by the files' names.
ghost use Rattle.std.specs.Prelude.{◌≡◌, ◌≤◌, ◌^◌, length, IfOk};
ghost use Rattle.ap_files.specs.Reads.{HasSize};
ghost use Rattle.ap_elf.specs.Machines.{IsPage};
ghost use Rattle.ap_image.specs.Plans.{AreBacked};
ghost use Rattle.ap_run.specs.FilePlans.{Plans};
ghost use Rattle.ap_run.specs.Formats.{plan_in};

use crate::end::{Cause, ReadingFault};
use crate::fetch::measure;
use crate::format::Format;
use ap_files::{Files, SliceFiles};
use ap_image::Plan;

/// The plan of a file.
#[derive(Drop)]
pub struct Planned {
    pub plan: Plan,
    /// The file's length in bytes.
    pub size: u64,
}

/// The plan of a file by a format, or why there is none. Only what the format looks at is read.
pub fn plan_of<F: Files>(files: &mut F, format: &Format, name: &str) -> Result<Planned, Cause>
    requires { IsPage format.now.machine format.now.page }
    ensures plan { Plans (F.state files.old) (F.state files.new) format.now name.now result }
    ensures backed { IfOk result (λ planned. AreBacked planned.plan.regions planned.size) }
    ensures most { IfOk result (λ planned. planned.size ≤ 2 ^ 30) }
{
    let size = match measure(files, name) {
        Ok(size) => size,
        Err(cause) => return Err(cause),
    };
    match format.plan_in(files, name, size) {
        Ok(Ok(plan)) => Ok(Planned { plan, size }),
        Ok(Err(fault)) => Err(Cause::Unread(fault)),
        Err(_) => Err(Cause::ReadFault),
    }
}

/// The plan of a file in memory by a format, or the reading's first refusal.
#[tactic(auto, using(ap_files::proofs::SliceLemmas::slice_steps))]
pub fn plan_over(format: &Format, file: &[u8]) -> Result<Plan, ReadingFault>
    requires { IsPage format.now.machine format.now.page }
    ensures plan { result ≡ plan_in format.now file.now }
    ensures backed { IfOk result (λ plan. AreBacked plan.regions (length file.now)) }
{
    let mut files = SliceFiles { bytes: file };
    match format.plan_in(&mut files, "", file.len() as u64) {
        Ok(plan) => plan,
        Err(_) => unreachable!(),
    }
}
