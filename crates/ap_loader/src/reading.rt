// The reading of APE files.
ghost use Rattle.std.specs.Prelude.{◌≡◌};
ghost use Rattle.ap_elf.specs.Machines.{number_of, IsPage};
ghost use Rattle.ap_elfmap.specs.Laws.{page-granule};
ghost use Rattle.ap_loader.specs.ApeReading as spec;
ghost use Rattle.ap_loader.specs.ApeReading.{ape_reading, ape_plan, Looks};
ghost use Rattle.ap_loader.specs.Laws.{cells-ape, frame-ape};

use crate::fault::ApeFault;
use crate::header::{embedded, has_magic};
use ap_elf::Machine;
use ap_elf::constants::EHDR_SIZE;
use ap_files::SliceFiles;
use ap_image::{Plan, Reading};

/// The reading of APE files for a machine, at a page size of it: 4096 bytes, or also 16384 for AArch64.
///
/// A file that begins with none of the format's texts has `NoMagic`, and one without a statement for the machine
/// `NoStatement`. Else it is the ELF reading of the file with the header that [`embedded`] gives in place of its first 64
/// bytes; what the plan's regions show are the file's own bytes.
#[derive(Clone, Copy, Debug, PartialEq, Eq)]
pub struct ApeReading {
    pub machine: Machine,
    /// The page size in bytes.
    pub page: u64,
}

impl Reading for ApeReading {
    type Fault = ApeFault;

    ghost is_well_formed = { λ r. IsPage r.machine r.page };

    ghost reading = { λ r f. ape_reading (number_of r.machine) r.page f };

    ghost plan = { λ r f. ape_plan (number_of r.machine) r.page f };

    ghost looks = { λ r f. Looks (number_of r.machine) f };

    #[tactic(auto, using(ap_files::proofs::SliceLemmas::slice_steps))]
    fn read(&self, file: &[u8]) -> Result<Plan, ApeFault> {
        let mut files = SliceFiles { bytes: file };
        match self.read_in(&mut files, "", file.len() as u64) {
            Ok(plan) => plan,
            Err(_) => unreachable!(),
        }
    }

    ghost cells = { λ r f is. cells-ape (number_of r.machine) r.page f (page-granule r.machine r.page is) };

    ghost frame = { λ r f g is len agree. frame-ape (number_of r.machine) r.page f g len agree };
}

/// The header that the reading of a file puts in place of its first 64 bytes, or why there is none.
pub(crate) fn header_for(file: &[u8], machine: Machine) -> Result<[u8; EHDR_SIZE], ApeFault>
    ensures { result ≡ spec.header_for (number_of machine) file.now }
{
    if !has_magic(file) {
        return Err(ApeFault::NoMagic);
    }
    match embedded(file, machine) {
        Some(statement) => Ok(statement.1),
        None => Err(ApeFault::NoStatement),
    }
}
