// The reading of PE32+ files by their names.
ghost use Rattle.std.specs.Prelude.{◌≡◌, IfOk};
ghost use Rattle.ap_files.specs.Reads.{HasSize, Reads};
ghost use Rattle.ap_image.specs.Plans.{AreBacked};
ghost use Rattle.ap_pemap.specs.PePlans.{pe_plan};

use crate::plan::plan_by;
use crate::reading::PeReading;
use ap_files::{Failed, Files};
use ap_image::Plan;
use ap_pe::{PeFault, read_pe_in, sections_in};

impl PeReading {
    /// The reading of a file by its name, where `size` is its length. Its headers and section headers alone are read, each
    /// where the rules before it hold.
    ///
    /// `Failed`: a read failed.
    pub fn read_in<F: Files>(
        &self,
        files: &mut F,
        name: &str,
        size: u64,
    ) -> Result<Result<Plan, PeFault>, Failed>
        requires { HasSize (F.state files.old).kept name.now size }
        ensures read { Reads (F.state files.old) (F.state files.new) name.now
            (λ b plan. plan ≡ pe_plan b) result }
        ensures backed { IfOk result (λ plan. IfOk plan (λ p. AreBacked p.regions size)) }
    {
        let h = match read_pe_in(files, name, size)? {
            Ok(h) => h,
            Err(fault) => return Ok(Err(fault)),
        };
        let sections = sections_in(files, name, size, &h)?;
        Ok(plan_by(size, &h, &sections))
    }
}
