// What a PE32+ file imports.
ghost use Rattle.std.specs.Prelude.{◌≡◌, ◌≤◌, ◌^◌, length, Ok};
ghost use Rattle.ap_fields.specs.Readings.{bytes_in};
ghost use Rattle.ap_image.specs.Plans.{AreBacked};
ghost use Rattle.ap_image.specs.PlanCells.{shown_by};
ghost use Rattle.ap_image.specs.WalkSteps.{left_of};
ghost use Rattle.ap_pe.specs.PeReading.{headers_result};
ghost use Rattle.ap_pemap.specs.PePlans.{pe_plan};
ghost use Rattle.ap_pemap.specs.PeImports as spec;
ghost use Rattle.ap_pemap.specs.PeImports.{AreImports, Imports};

use ap_fields::le32;
use ap_image::{Import, ImportEnd, Plan, PlanCells, WalkFault, list_imports};
use ap_pe::constants::{
    DIRECTORY_SIZE, FILE_HEADER_SIZE, IMAGE_DIRECTORY_ENTRY_IMPORT, OPTIONAL_LEAST,
};
use ap_pe::{PeHeaders, read_pe};
use std::alloc::Global;

/// Why there is no list of a file's imports.
#[derive(Clone, Copy, Debug, PartialEq, Eq)]
pub enum ImportFault {
    /// The walk of the import directory ends without the entry that closes the table.
    Walk(WalkFault),
    /// No memory is left for the list.
    NoMemory,
}

/// What a PE32+ file imports, in the order of its import directory, where `plan` is the plan that [`PeReading`](crate::PeReading)
/// gives of it. A file that says no import directory, or one at 0, imports nothing.
///
/// - `Walk`: the directory names an address at which the plan has nothing, a name of more than 1024 bytes, or more than 4096
///   items; this is the first that the walk meets.
/// - `NoMemory`: no memory is left for the list.
pub fn imports(alloc: Global, file: &[u8], plan: &Plan) -> Result<Vec<Import>, ImportFault>
    requires { pe_plan file.now ≡ Ok plan.now }
    ensures { Imports file.now result }
{
    let h = match read_pe(file) {
        Ok(h) => h,
        Err(_) => unreachable!(),
    };
    let rva = table_rva(file, &h);
    if rva == 0 {
        return Ok(Vec::new(alloc));
    }
    let walk = ap_image::Walk::new(h.base, h.base + rva as u64, None);
    list_of(alloc, file, plan, walk)
}

// What is left of a walk of the import directory of a file in memory.
fn list_of(
    alloc: Global,
    file: &[u8],
    plan: &Plan,
    walk: ap_image::Walk,
) -> Result<Vec<Import>, ImportFault>
    requires { AreBacked plan.now.regions (length file.now) }
    ensures { AreImports (shown_by (bytes_in file.now) plan.now.regions)
        (left_of (shown_by (bytes_in file.now) plan.now.regions) walk) result }
{
    let mut cells = PlanCells { plan, file };
    match list_imports(alloc, walk, &mut cells) {
        Ok(imports) => Ok(imports),
        Err(ImportEnd::Fault(fault)) => Err(ImportFault::Walk(fault)),
        Err(ImportEnd::NoMemory) => Err(ImportFault::NoMemory),
        Err(ImportEnd::ReadFault) => unreachable!(),
    }
}

// The address of the import directory table less the image base, or 0 where there is none.
fn table_rva(file: &[u8], h: &PeHeaders) -> u32
    requires { headers_result file.now ≡ Ok h.now }
    ensures { result ≡ spec.table_rva file.now h.now }
{
    if h.directories as usize <= IMAGE_DIRECTORY_ENTRY_IMPORT {
        return 0;
    }
    let directory = OPTIONAL_LEAST + DIRECTORY_SIZE * IMAGE_DIRECTORY_ENTRY_IMPORT;
    le32(file, h.at as usize + FILE_HEADER_SIZE + directory)
}
