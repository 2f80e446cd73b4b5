// What the readings of a linked file find.
ghost use Rattle.std.specs.Prelude.{◌≤◌, IfOk};
ghost use Rattle.ap_elf.specs.declared.machine.Machine.TheVariants.{X64, A64};
ghost use Rattle.ap_elf.specs.Machines.{IsPage, granule_of, number_of};
ghost use Rattle.ap_loader.specs.ApeReading.{ape_reading};
ghost use Rattle.ap_trial.specs.TrialInputs.{trial_loads};
ghost use Rattle.ap_trial.specs.Trials.{AreFolds, HasElfFold, HasFold, HasMachFold};
ghost use Rattle.ap_trial.specs.Refusals.{IsRead, IsReadAsMach, IsReadByAll};

use crate::cells::fold_image;
use crate::headers::loads_of;
use crate::numbers::ReadingFolds;
use ap_assim::{AssimFault, to_elf, to_mach};
use ap_elf::{Entry, Machine};
use ap_elfmap::ElfReading;
use ap_files::NoMemory;
use ap_image::{Image, Reading};
use ap_loader::ApeReading;
use ap_machmap::MachReading;
use ap_pemap::PeReading;
use std::alloc::Global;

/// The folds of what each reading of a linked file finds at the addresses of the inputs' loads.
pub(crate) fn folds_of(alloc: Global, file: &[u8], pages: u32) -> Result<ReadingFolds, NoMemory>
    requires pages { pages ≤ 16384 }
    requires read { IsReadByAll file.now }
    ensures { IfOk result (λ folds. AreFolds (trial_loads (granule_of X64) pages)
        (trial_loads (granule_of A64) pages) file.now folds) }
{
    let x64 = loads_of(pages, Machine::X64);
    let a64 = loads_of(pages, Machine::A64);
    Ok(ReadingFolds {
        pe: fold_of(&PeReading, file, &x64),
        mach: fold_as_mach(alloc, file, &x64)?,
        elf_x64: fold_as_elf(alloc, file, Machine::X64, 4096, &x64)?,
        ape_x64: fold_as_ape(file, Machine::X64, 4096, &x64),
        elf_a64: fold_as_elf(alloc, file, Machine::A64, 16384, &a64)?,
        ape_a64_4096: fold_as_ape(file, Machine::A64, 4096, &a64),
        ape_a64_16384: fold_as_ape(file, Machine::A64, 16384, &a64),
    })
}

// The fold of what a reading finds in a file that it doesn't refuse.
fn fold_of<R: Reading>(reading: &R, file: &[u8], loads: &[Entry]) -> u64
    requires formed { R.is_well_formed reading.now }
    requires read { IsRead (R.reading reading.now file.now) }
    ensures { HasFold loads.now result (R.reading reading.now file.now) }
{
    match reading.read(file) {
        Ok(plan) => fold_image(&Image::new(plan, file), loads),
        Err(_) => unreachable!(),
    }
}

fn fold_as_ape(file: &[u8], machine: Machine, page: u64, loads: &[Entry]) -> u64
    requires page { IsPage machine page }
    requires read { IsRead (ape_reading (number_of machine) page file.now) }
    ensures { HasFold loads.now result (ape_reading (number_of machine) page file.now) }
{
    fold_of(&ApeReading { machine, page }, file, loads)
}

fn fold_as_elf(
    alloc: Global,
    file: &[u8],
    machine: Machine,
    page: u64,
    loads: &[Entry],
) -> Result<u64, NoMemory>
    requires page { IsPage machine page }
    requires read { IsRead (ape_reading (number_of machine) page file.now) }
    ensures { IfOk result (λ h. HasElfFold loads.now h machine page file.now) }
{
    match to_elf(alloc, file, machine) {
        Ok(bytes) => Ok(fold_of(&ElfReading { machine, page }, &bytes, loads)),
        Err(AssimFault::NoMemory) => Err(NoMemory),
        Err(_) => unreachable!(),
    }
}

fn fold_as_mach(alloc: Global, file: &[u8], loads: &[Entry]) -> Result<u64, NoMemory>
    requires { IsReadAsMach file.now }
    ensures { IfOk result (λ h. HasMachFold loads.now h file.now) }
{
    match to_mach(alloc, file) {
        Ok(bytes) => Ok(fold_of(&MachReading, &bytes, loads)),
        Err(AssimFault::NoMemory) => Err(NoMemory),
        Err(_) => unreachable!(),
    }
}
