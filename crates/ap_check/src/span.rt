// Rules 19 and 20, of all loads together.
ghost use Rattle.std.specs.Prelude.{◌≡◌, ◌<◌, ◌&&◌, length};
ghost use Rattle.ap_fields.specs.Granules.{IsGranule};
ghost use Rattle.ap_check.specs.Rules.{Checks, span_rules, entry_rules};
ghost use Rattle.ap_check.specs.Inputs.{last_stop, bytes_of_loads, can_start, has_address, is_executable};

use crate::fault::{Fault, broken, demand};
use crate::load::Load;
use crate::loads::Extent;
use ap_fields::floor_to;
use bitflags::Flags;

/// Rule 19: the granules of the loads reach over 2^30 bytes at most, and the loads have at most 2^28 bytes of the file.
#[tactic(auto, using(ap_fields::proofs::Granules::powers))]
pub fn check_span(loads: &[Load], extent: Extent, granule: u64, number: u8) -> Result<(), Fault>
    requires granule { IsGranule granule }
    requires some { 0 < length loads.now }
    requires stop { extent.stop ≡ last_stop granule 0 loads.now }
    requires bytes { extent.bytes ≡ bytes_of_loads loads.now }
    ensures { Checks result (span_rules number granule loads.now) }
{
    let span = extent
        .stop
        .saturating_sub(floor_to(loads[0].vaddr, granule));
    if span > 1 << 30 {
        return Err(broken(number, 19, 1, span));
    }
    if extent.bytes > 1 << 28 {
        return Err(broken(number, 19, 2, extent.bytes));
    }
    Ok(())
}

/// Rule 20: the program starts in a load that may be executed.
pub fn check_entry(loads: &[Load], entry: u64, number: u8) -> Result<(), Fault>
    ensures { Checks result (entry_rules number entry loads.now) }
{
    demand(can_start_in(loads, entry), broken(number, 20, 0, entry))
}

/// Whether an address is one of a load that may be executed.
pub fn can_start_in(loads: &[Load], entry: u64) -> bool
    ensures { result ≡ can_start entry loads.now }
{
    for p in loads {
        if starts(p, entry) {
            return true;
        }
    }
    false
}

fn starts(p: &Load, entry: u64) -> bool
    ensures { result ≡ (has_address p.now entry && is_executable p.now) }
{
    p.vaddr <= entry && entry - p.vaddr < p.memsz && p.perms.bits() & 1 != 0
}
