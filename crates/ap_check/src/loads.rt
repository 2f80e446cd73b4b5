// Rules 14 to 18, of each load.
ghost use Rattle.std.specs.Prelude.{◌≡◌, ◌≤◌, ◌+◌, OnOk, IfOk, length, map};
ghost use Rattle.ap_fields.specs.Granules.{IsGranule};
ghost use Rattle.ap_fields.specs.declared.sizes.TheConstants.{MOST_LOADS};
ghost use Rattle.ap_elf.specs.declared.constants.TheConstants.{ADDRESS_TOP};
ghost use Rattle.ap_check.specs.Rules.{Checks, load_rules, loads_rules};
ghost use Rattle.ap_check.specs.Inputs.{load_of, last_stop, bytes_of_loads};

use crate::fault::{Fault, broken};
use ap_elf::constants::{ADDRESS_TOP, PF_R, PF_W, PF_X};
use ap_elf::{Entry, load_end};
use ap_fields::floor_to;

/// How far loads reach, and how many bytes of the file they have.
#[derive(Clone, Copy)]
pub struct Extent {
    /// The address at which the granules of the last load end.
    pub stop: u64,
    pub bytes: u64,
}

/// Rules 14 to 18, load by load, of a file of `size` bytes.
#[tactic(auto, using(ap_fields::proofs::FirstFaults::join_steps))]
pub fn check_loads(loads: &[Entry], size: u64, granule: u64, number: u8) -> Result<Extent, Fault>
    requires granule { IsGranule granule }
    requires few { length loads.now ≤ MOST_LOADS }
    ensures rules { Checks result (loads_rules number size granule 1 0 loads.now) }
    ensures stop { IfOk result (λ e. e.stop ≡ last_stop granule 0 (map load_of loads.now)) }
    ensures bytes { IfOk result (λ e. e.bytes ≡ bytes_of_loads (map load_of loads.now)) }
{
    let mut extent = Extent { stop: 0, bytes: 0 };
    let mut k = 1;
    for p in loads {
        check_load(p, k, extent.stop, size, granule, number)?;
        extent.stop = load_end(p, granule);
        extent.bytes += p.filesz;
        k += 1;
    }
    Ok(extent)
}

// Rules 14 to 18 of the load number `k`, where the granules of the load before it end at `low`.
#[tactic(auto, using(ap_fields::proofs::Granules::powers))]
fn check_load(p: &Entry, k: u16, low: u64, size: u64, granule: u64, number: u8) -> Result<(), Fault>
    requires { IsGranule granule }
    ensures rules { Checks result (load_rules number size granule k low p.now) }
    ensures sizes { OnOk result (p.now.filesz ≤ p.now.memsz) }
    ensures top { OnOk result (p.now.vaddr + p.now.memsz ≤ ADDRESS_TOP) }
{
    if p.filesz > p.memsz {
        return Err(broken(number, 14, k, p.filesz));
    }
    if p.filesz != 0 && (p.filesz > size || p.offset > size - p.filesz) {
        return Err(broken(number, 15, k, p.offset));
    }
    if p.vaddr < 65536 || p.memsz > ADDRESS_TOP || p.vaddr > ADDRESS_TOP - p.memsz {
        return Err(broken(number, 16, k, p.vaddr));
    }
    if p.flags & PF_R == 0 || p.flags & (PF_W | PF_X) == PF_W | PF_X {
        return Err(broken(number, 17, k, p.flags as u64));
    }
    if floor_to(p.vaddr, granule) < low {
        return Err(broken(number, 18, k, p.vaddr));
    }
    Ok(())
}
