// The plan of a header and program headers, wherever these were read.
ghost use Rattle.std.specs.Prelude.{◌≡◌, ◌++◌, ◌≤◌, ◌∷◌, [], nat_lt, length, map, None, IfOk};
ghost use Rattle.ap_fields.specs.FirstFault.{first_fault};
ghost use Rattle.ap_fields.specs.Granules.{IsGranule};
ghost use Rattle.ap_elf.specs.declared.constants.TheConstants.{MOST_PHDRS};
ghost use Rattle.ap_elf.specs.Fields.{loads_in};
ghost use Rattle.ap_elf.specs.ElfReading.{refusal, header_rules, dynamic_rules, loads_rules};
ghost use Rattle.ap_elf.specs.declared.fault.ElfCause.TheVariants as cause;
ghost use Rattle.ap_elf.specs.Machines.{number_of, IsPage};
ghost use Rattle.ap_image.specs.Plans.{AreBacked};
ghost use Rattle.ap_elfmap.specs.ElfPlans.{Checks, region_of, elf_plan_by};

use crate::entries::check_dynamic;
use crate::fault::{check, fault};
use crate::loads::regions;
use ap_elf::constants::MOST_PHDRS;
use ap_elf::{ElfCause, ElfFault, Entry, Header, Machine, loads};
use ap_image::{MOST_REGIONS, Plan, Region};
use arrayvec::ArrayVec;

/// The plan of a header that meets its rules and of program headers, in a file of `size` bytes, or the first rule that the
/// program headers break.
#[tactic(auto, using(ap_fields::proofs::FirstFaults::join_steps, crate::specs::Laws::load_facts))]
pub fn plan_by(
    machine: Machine,
    page: u64,
    size: u64,
    h: &Header,
    entries: &[Entry],
) -> Result<Plan, ElfFault>
    requires page { IsPage machine page }
    requires header { first_fault (header_rules (number_of machine) size h.now) ≡ None }
    requires few { length entries.now ≤ MOST_PHDRS }
    ensures plan { result ≡ elf_plan_by (number_of machine) page size h.now entries.now }
    ensures backed { IfOk result (λ plan. AreBacked plan.regions size) }
{
    let regions = regions_of(entries, size, page)?;
    Ok(Plan {
        regions,
        entry: h.e_entry,
    })
}

// The regions of the loads among program headers, or the first rule that these break.
#[tactic(auto, using(ap_fields::proofs::FirstFaults::join_steps))]
fn regions_of(
    entries: &[Entry],
    size: u64,
    page: u64,
) -> Result<ArrayVec<Region, MOST_REGIONS>, ElfFault>
    requires page { IsGranule page }
    requires few { length entries.now ≤ MOST_PHDRS }
    ensures rules { Checks result
        (dynamic_rules 1 entries.now ++
        (loads_rules page size 1 0 (loads_in entries.now) ++
        ((nat_lt 0 (length (loads_in entries.now)), refusal cause.NoLoad 0 0) ∷ []))) }
    ensures regions { IfOk result
        (λ found. found.items ≡ map (region_of page size) (loads_in entries.now)) }
{
    check_dynamic(entries)?;
    let loads = loads(entries);
    let regions = regions(&loads, size, page)?;
    check(&[(!loads.is_empty(), fault(ElfCause::NoLoad, 0, 0))])?;
    Ok(regions)
}
