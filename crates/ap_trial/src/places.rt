// Where the parts of an input stand, in its file and in memory.
ghost use Rattle.std.specs.Prelude.{◌≡◌, ◌≤◌, ◌<◌, ◌+◌, ◌^◌};
ghost use Rattle.ap_elf.specs.Machines.{granule_of};
ghost use Rattle.ap_trial.specs.TrialInputs.{part_length, part_room, data_place, tables_place, data_address, rest_address};

use ap_elf::Machine;
use ap_fields::ceil_to;

// The address of the first load.
pub(crate) const FIRST: u64 = 0x400000;

#[derive(Clone, Copy)]
pub(crate) struct Places {
    // The bytes of the first load.
    pub part_length: u64,
    // Those of its granules.
    pub part_room: u64,
    // The place of the second load, and of the symbols behind its bytes.
    pub data_place: u64,
    pub tables_place: u64,
    // The addresses of the second load and of the third.
    pub data_address: u64,
    pub rest_address: u64,
}

#[tactic(auto, using(crate::proofs::PlaceLemmas::granule_steps))]
pub(crate) fn places_of(pages: u32, machine: Machine) -> Places
    requires { pages ≤ 16384 }
    ensures part { result.part_length ≡ part_length pages }
    ensures room { result.part_room ≡ part_room (granule_of machine) pages }
    ensures data { result.data_place ≡ data_place (granule_of machine) pages }
    ensures tables { result.tables_place ≡ tables_place (granule_of machine) pages }
    ensures second { result.data_address ≡ data_address (granule_of machine) pages }
    ensures third { result.rest_address ≡ rest_address (granule_of machine) pages }
    ensures least { result.part_length ≤ result.part_room }
    ensures small { result.tables_place < 2 ^ 28 }
{
    let granule = machine.granule();
    let part_length = 4096 * u64::from(pages);
    let part_room = ceil_to(part_length, granule);
    let data_address = FIRST + part_room + granule;
    Places {
        part_length,
        part_room,
        data_place: granule + part_room,
        tables_place: granule + part_room + 4096,
        data_address,
        rest_address: ceil_to(data_address + 9096, granule) + granule,
    }
}
