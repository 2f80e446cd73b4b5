// What a linked file for Windows asks of its input for x86-64.
ghost use Rattle.std.specs.Prelude.{◌≡◌, ◌≤◌, ℕ};
ghost use Rattle.ap_fields.specs.Granules.{IsGranule};
ghost use Rattle.ap_check.specs.Inputs.{Meets, AreLoads, last_stop};
ghost use Rattle.ap_check.specs.Rules.{Checks};
ghost use Rattle.ap_check.specs.Windows as spec;
ghost use Rattle.ap_check.specs.Windows.{pe_entry_rules, base_rules, base_of, import_symbols_rules, image_rules, loads_start, loads_stop};

use crate::fault::{Fault, broken, demand};
use crate::input::Input;
use crate::load::Load;
use crate::span::can_start_in;
use crate::symbols::Symbols;
use ap_elf::Machine;
use ap_fields::{PE_SPAN, ceil_to, floor_to};

/// What an image base is a multiple of (PE/COFF, "Optional Header", ImageBase).
pub const BASE_GRANULE: u64 = 1 << 16;

/// The most addresses of an image, from its base on.
pub const MOST_IMAGE: u64 = 1 << 31;

/// Rules 25 to 27 of an input for x86-64: it has a symbol `ape_pe_entry`, whose value is an address of a load that may be
/// executed; its image base is a multiple of 65536 and not 0, leaves the headers room below the loads, and the image reaches over
/// 2^31 bytes at most; and it has no symbol of an import table, or all four and `ape_image_base`.
#[tactic(auto, using(ap_fields::proofs::FirstFaults::join_steps), unfolding(crate::specs::Windows::image_rules))]
pub fn check_image(e: &Input) -> Result<(), Fault>
    ensures { Checks result (image_rules e.now) }
{
    check_pe_entry(e)?;
    check_base(e)?;
    check_import_symbols(e)
}

// Rule 25: the program starts in a load that may be executed.
fn check_pe_entry(e: &Input) -> Result<(), Fault>
    ensures { Checks result (pe_entry_rules e.now) }
{
    match e.symbols.pe_entry {
        None => Err(broken(e.number, 25, 0, 0)),
        Some(entry) => demand(
            can_start_in(&e.loads, entry),
            broken(e.number, 25, 1, entry),
        ),
    }
}

// Rule 26: the image base.
fn check_base(e: &Input) -> Result<(), Fault>
    ensures { Checks result (base_rules e.now) }
{
    let base = image_base(e);
    let holds = base % BASE_GRANULE == 0 && base >= BASE_GRANULE && has_room(e, base);
    demand(holds, broken(e.number, 26, 0, base))
}

/// The image base of an input: the value of `ape_image_base`, or the greatest base that leaves the headers room below its
/// loads.
pub fn image_base(e: &Input) -> u64
    ensures base { result ≡ base_of e.now }
    ensures meets { Meets e.now }
{
    match e.symbols.image_base {
        Some(base) => base,
        None => floor_to(
            first_address(e).saturating_sub(PE_SPAN as u64),
            BASE_GRANULE,
        ),
    }
}

// Whether the headers have room below the loads, and the image isn't too large, where it has this base.
fn has_room(e: &Input, base: u64) -> bool
    ensures { result ≡ spec.has_room e.now base }
{
    let start = first_address(e);
    base <= start
        && start - base >= PE_SPAN as u64
        && last_address(e).saturating_sub(base) <= MOST_IMAGE
}

// Where the granules of the first load start.
#[tactic(auto, using(ap_fields::proofs::Granules::powers))]
fn first_address(e: &Input) -> u64
    ensures { result ≡ loads_start e.now }
{
    floor_to(e.loads[0].vaddr, e.machine.granule())
}

// Where the granules of the last load end.
fn last_address(e: &Input) -> u64
    ensures { result ≡ loads_stop e.now }
{
    stop_of(&e.loads, e.machine.granule())
}

#[tactic(auto, using(ap_fields::proofs::Granules::powers))]
fn stop_of(loads: &[Load], granule: u64) -> u64
    requires granule { IsGranule granule }
    requires loads { (size : ℕ) × AreLoads granule size 0 loads.now }
    ensures { result ≡ last_stop granule 0 loads.now }
{
    let mut stop = 0;
    for p in loads {
        stop = ceil_to(p.vaddr + p.memsz, granule);
    }
    stop
}

// Rule 27: no symbol of an import table, or all of them.
fn check_import_symbols(e: &Input) -> Result<(), Fault>
    ensures { Checks result (import_symbols_rules e.now) }
{
    let count = import_count(&e.symbols);
    let holds = count == 0 || count == 4 && e.symbols.image_base.is_some();
    demand(holds, broken(e.number, 27, 0, count))
}

fn import_count(s: &Symbols) -> u64
    ensures count { result ≡ spec.import_count s.now }
    ensures few { result ≤ 4 }
{
    let table = one_if_some(s.idata) + one_if_some(s.idata_end);
    let slots = one_if_some(s.iat) + one_if_some(s.iat_end);
    table + slots
}

fn one_if_some(value: Option<u64>) -> u64
    ensures count { result ≡ spec.one_if_some value }
    ensures few { result ≤ 1 }
{
    match value {
        None => 0,
        Some(_) => 1,
    }
}
