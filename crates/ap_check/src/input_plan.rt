// An input in memory, as a plan.
ghost use Rattle.std.specs.Prelude.{◌≡◌, ◌≤◌, ℕ, List, length, map};
ghost use Rattle.std.specs.Option.{option_map};
ghost use Rattle.ap_image.specs.Plans.{AreBacked};
ghost use Rattle.ap_image.specs.PlanCells.{shown_by, byte_of};
ghost use Rattle.ap_elf.specs.declared.types.Entry.{Entry};
ghost use Rattle.ap_elf.specs.InputCell.{input_cell};
ghost use Rattle.ap_check.specs.Inputs.{load_of};
ghost use Rattle.ap_fields.specs.declared.sizes.TheConstants.{MOST_LOADS};
ghost use Rattle.ap_check.specs.ImportRule.{memory_of};
ghost use Rattle.ap_check.specs.InputPlans.{region_of};

use crate::input::Input;
use crate::load::Load;
use ap_image::{MOST_REGIONS, Plan, Region};
use arrayvec::ArrayVec;

/// The plan that shows what an input has in memory: a region for each load.
pub fn plan_of(input: &Input) -> Plan
    ensures backed { AreBacked result.regions input.now.size }
    ensures bytes { (byte : ℕ → ℕ) (a : ℕ) → shown_by byte result.regions a ≡ memory_of byte
        input.now.loads a }
{
    Plan {
        regions: regions(input.loads.as_slice()),
        entry: input.entry,
    }
}

/// The bytes that an input has in memory, by what was taken of its loads, are those of its cells.
#[tactic(auto, using(crate::proofs::ImportLemmas::memory_steps))]
pub fn bytes_are_cells()
    ensures { (byte : ℕ → ℕ) (entries : List Entry) (a : ℕ) → memory_of byte (map load_of entries) a
        ≡ option_map byte_of (input_cell byte entries a) }
{}

fn regions(loads: &[Load]) -> ArrayVec<Region, MOST_REGIONS>
    requires { length loads.now ≤ MOST_LOADS }
    ensures { result.items ≡ map region_of loads.now }
{
    let mut regions = ArrayVec::new();
    for p in loads {
        regions.push(region(p));
    }
    regions
}

fn region(p: &Load) -> Region
    ensures { result ≡ region_of p.now }
{
    Region {
        start: p.vaddr,
        span: p.memsz,
        backed: p.filesz,
        at: if p.filesz == 0 { 0 } else { p.offset },
        perms: p.perms,
    }
}
