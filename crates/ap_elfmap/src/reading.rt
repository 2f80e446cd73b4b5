// The reading of ELF files.
ghost use Rattle.std.specs.Prelude.{◌≡◌, length, IfOk};
ghost use Rattle.ap_fields.specs.Bytes.{over};
ghost use Rattle.ap_fields.specs.Readings.{bytes_in};
ghost use Rattle.ap_elf.specs.Fields.{header_of, entries_of};
ghost use Rattle.ap_elf.specs.ElfReading.{elf_reading_by, elf_reading};
ghost use Rattle.ap_elf.specs.Machines.{number_of, IsPage};
ghost use Rattle.ap_image.specs.Plans.{AreBacked};
ghost use Rattle.ap_image.specs.Reading.{IsPlanOf};
ghost use Rattle.ap_elfmap.specs.ElfPlans.{Looks, elf_plan, elf_plan_by};
ghost use Rattle.ap_elfmap.specs.Laws.{cells-by, frame-elf, page-granule};

use crate::file::read_with_in;
use ap_elf::constants::EHDR_SIZE;
use ap_elf::{ElfFault, Machine};
use ap_files::SliceFiles;
use ap_image::{Plan, Reading};

/// The reading of ELF files for a machine, at a page size of it: 4096 bytes, or also 16384 for AArch64.
///
/// A file is refused by the rules of [`ElfCause`], in its order, those of a load load by load. The loads are the entries
/// of type `PT_LOAD` that have bytes in memory. Each maps the pages that it is in, and these show the file wherever the load's
/// bytes stand in it, also before the load and, where all of the load stands in the file, behind it (System V gABI,
/// "Program Loading").
#[derive(Clone, Copy, Debug, PartialEq, Eq)]
pub struct ElfReading {
    pub machine: Machine,
    /// The page size in bytes.
    pub page: u64,
}

impl Reading for ElfReading {
    type Fault = ElfFault;

    ghost is_well_formed = { λ r. IsPage r.machine r.page };

    ghost reading = { λ r f. elf_reading (number_of r.machine) r.page f };

    ghost plan = { λ r f. elf_plan (number_of r.machine) r.page f };

    ghost looks = { λ r f. Looks f };

    #[tactic(auto, using(ap_files::proofs::SliceLemmas::slice_steps))]
    fn read(&self, file: &[u8]) -> Result<Plan, ElfFault> {
        let mut files = SliceFiles { bytes: file };
        match self.read_in(&mut files, "", file.len() as u64) {
            Ok(plan) => plan,
            Err(_) => unreachable!(),
        }
    }

    ghost cells = { λ r f is. cells-by (number_of r.machine) r.page (header_of f) (entries_of f) f (page-granule r.machine r.page is) };

    ghost frame = { λ r f g is len agree. frame-elf (number_of r.machine) r.page f g len agree };
}

/// The reading of a file whose first 64 bytes are replaced by `header`. The program header table is read in the replaced
/// file, too, wherever it begins; the bytes that the plan's regions show are the file's own. A file of fewer than 64 bytes
/// is `Short`.
#[tactic(auto, using(ap_files::proofs::SliceLemmas::slice_steps))]
pub fn read_with(
    machine: Machine,
    page: u64,
    header: &[u8; EHDR_SIZE],
    file: &[u8],
) -> Result<Plan, ElfFault>
    requires { IsPage machine page }
    ensures plan { result ≡ elf_plan_by (number_of machine) page (length file.now)
        (header_of (over file.now header.now)) (entries_of (over file.now header.now)) }
    ensures image { IsPlanOf result file.now
        (elf_reading_by (number_of machine) page (length file.now)
        (header_of (over file.now header.now)) (entries_of (over file.now header.now))
        (bytes_in file.now)) }
    ensures backed { IfOk result (λ plan. AreBacked plan.regions (length file.now)) }
{
    let mut files = SliceFiles { bytes: file };
    match read_with_in(machine, page, header, &mut files, "", file.len() as u64) {
        Ok(plan) => plan,
        Err(_) => unreachable!(),
    }
}
