// The reading of Mach-O programs by their names.
ghost use Rattle.std.specs.Prelude.{◌≡◌, IfOk};
ghost use Rattle.ap_files.specs.Reads.{HasSize, Reads};
ghost use Rattle.ap_image.specs.Plans.{AreBacked};
ghost use Rattle.ap_mach.specs.Stages.{IsTaken};
ghost use Rattle.ap_machmap.specs.MachPlans.{mach_plan};
ghost use Rattle.ap_machmap.specs.Steps.{header_plan};

use crate::mapped::Mapped;
use crate::reading::MachReading;
use ap_files::{Failed, Files};
use ap_image::Plan;
use ap_mach::constants::HEADER_SIZE;
use ap_mach::{MachFault, MachHeader, header_in, parts_in};

impl MachReading {
    /// The reading of a file by its name, where `size` is its length. Its header is read, and of each command at most 184
    /// bytes, where the rules before it hold.
    ///
    /// `Failed`: a read failed.
    pub fn read_in<F: Files>(
        &self,
        files: &mut F,
        name: &str,
        size: u64,
    ) -> Result<Result<Plan, MachFault>, Failed>
        requires { HasSize (F.state files.old).kept name.now size }
        ensures read { Reads (F.state files.old) (F.state files.new) name.now
            (λ b plan. plan ≡ mach_plan b) result }
        ensures backed { IfOk result (λ plan. IfOk plan (λ p. AreBacked p.regions size)) }
    {
        match header_in(files, name, size)? {
            Ok(h) => plan_in(files, name, size, &h),
            Err(fault) => Ok(Err(fault)),
        }
    }
}

// The plan of a file by a header that isn't refused.
fn plan_in<F: Files>(
    files: &mut F,
    name: &str,
    size: u64,
    h: &MachHeader,
) -> Result<Result<Plan, MachFault>, Failed>
    requires size { HasSize (F.state files.old).kept name.now size }
    requires taken { IsTaken size h.now }
    ensures read { Reads (F.state files.old) (F.state files.new) name.now
        (λ b plan. plan ≡ header_plan b h.now) result }
    ensures backed { IfOk result (λ plan. IfOk plan (λ p. AreBacked p.regions size)) }
{
    let end = HEADER_SIZE as u64 + h.size as u64;
    let mut at = HEADER_SIZE as u64;
    let mut mapped = Mapped::new();
    for k in 0..h.count as u16 {
        let parts = parts_in(files, name, size, at, end)?;
        if let Err(fault) = mapped.add(size, end, k + 1, &parts) {
            return Ok(Err(fault));
        }
        at += parts.front.size as u64;
    }
    Ok(mapped.finish(size, end, h.count as u16 + 1))
}
