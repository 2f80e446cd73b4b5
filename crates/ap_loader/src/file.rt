// The reading of APE files by their names.
ghost use Rattle.std.specs.Prelude.{◌≡◌, IfOk};
ghost use Rattle.ap_files.specs.Reads.{HasSize, Reads};
ghost use Rattle.ap_elf.specs.Machines.{number_of, IsPage};
ghost use Rattle.ap_image.specs.Plans.{AreBacked};
ghost use Rattle.ap_loader.specs.ApeReading as spec;
ghost use Rattle.ap_loader.specs.ApeReading.{ape_plan};

use crate::fault::ApeFault;
use crate::reading::{ApeReading, header_for};
use ap_elf::Machine;
use ap_elf::constants::EHDR_SIZE;
use ap_elfmap::read_with_in;
use ap_fields::WINDOW;
use ap_files::{Failed, Files};
use ap_image::Plan;

impl ApeReading {
    /// The reading of a file by its name, where `size` is its length. Its first 8192 bytes, or all that it has, and the
    /// program header table alone are read.
    ///
    /// `Failed`: a read failed.
    pub fn read_in<F: Files>(
        &self,
        files: &mut F,
        name: &str,
        size: u64,
    ) -> Result<Result<Plan, ApeFault>, Failed>
        requires page { IsPage self.now.machine self.now.page }
        requires size { HasSize (F.state files.old).kept name.now size }
        ensures read { Reads (F.state files.old) (F.state files.new) name.now
            (λ b plan. plan ≡ ape_plan (number_of self.now.machine) self.now.page b) result }
        ensures backed { IfOk result (λ plan. IfOk plan (λ p. AreBacked p.regions size)) }
    {
        let header = match header_in(self.machine, files, name, size)? {
            Ok(header) => header,
            Err(fault) => return Ok(Err(fault)),
        };
        let plan = read_with_in(self.machine, self.page, &header, files, name, size)?;
        Ok(plan.map_err(ApeFault::Elf))
    }
}

// The header that the reading of a file puts in place of its first 64 bytes, or why there is none.
fn header_in<F: Files>(
    machine: Machine,
    files: &mut F,
    name: &str,
    size: u64,
) -> Result<Result<[u8; EHDR_SIZE], ApeFault>, Failed>
    requires { HasSize (F.state files.old).kept name.now size }
    ensures { Reads (F.state files.old) (F.state files.new) name.now
        (λ b header. header ≡ spec.header_for (number_of machine) b) result }
{
    let mut room = [0; WINDOW];
    let window = &mut room[..size.min(WINDOW as u64) as usize];
    files.read_at(name, 0, window)?;
    Ok(header_for(window, machine))
}
