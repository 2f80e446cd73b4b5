// Rules 12 to 21, of the header and the program headers, whatever these were read from.
ghost use Rattle.std.specs.Prelude.{◌≡◌, ◌≤◌, ◌<◌, ◌^◌, IfOk, length, map};
ghost use Rattle.ap_fields.specs.Granules.{IsGranule};
ghost use Rattle.ap_fields.specs.declared.sizes.TheConstants.{MOST_LOADS};
ghost use Rattle.ap_elf.specs.declared.constants.TheConstants.{MOST_PHDRS};
ghost use Rattle.ap_check.specs.Rules.{Checks, laid_rules, end_rules, table_rules};
ghost use Rattle.ap_check.specs.Inputs.{load_of, first_of, is_tls, machine_of, taken_of, no_symbols};

use crate::entries::check_entries;
use crate::fault::Fault;
use crate::input::Input;
use crate::load::{Load, taken_loads};
use crate::loads::check_loads;
use crate::notes::notes;
use crate::span::{check_entry, check_span};
use crate::stack::stack;
use crate::symbols::Symbols;
use crate::tls::check_tls;
use ap_elf::constants::{EM_AARCH64, MOST_PHDRS};
use ap_elf::{Entry, Header, Machine};
use ap_fields::MOST_LOADS;
use arrayvec::ArrayVec;

/// Rules 12 to 21 of a file of `size` bytes, and what is taken of it but for the symbols.
#[tactic(auto, using(ap_fields::proofs::FirstFaults::join_steps), unfolding(crate::specs::Rules::table_rules, crate::specs::Inputs::taken_of))]
pub fn check_table(h: &Header, entries: &[Entry], size: u64, number: u8) -> Result<Input, Fault>
    requires few { length entries.now ≤ MOST_PHDRS }
    requires least { 64 ≤ size }
    requires most { size ≤ 2 ^ 28 }
    ensures rules { Checks result (table_rules number size h.now entries.now) }
    ensures taken { IfOk result (λ i. i ≡ taken_of number size h.now entries.now no_symbols) }
    ensures number { IfOk result (λ i. i.number ≡ number) }
{
    let machine = machine(h);
    let found = check_entries(entries, number)?;
    let loads = check_laid(&found, size, machine.granule(), number)?;
    let tls = check_ends(entries, &loads, h.e_entry, number)?;
    Ok(Input {
        size,
        number,
        machine,
        entry: h.e_entry,
        tls,
        stack: stack(entries),
        notes: notes(entries, &loads),
        loads,
        symbols: Symbols::default(),
    })
}

// The loads, where rules 14 to 19 hold.
#[tactic(auto, using(ap_fields::proofs::FirstFaults::join_steps), unfolding(crate::specs::Rules::laid_rules))]
fn check_laid(
    found: &[Entry],
    size: u64,
    granule: u64,
    number: u8,
) -> Result<ArrayVec<Load, MOST_LOADS>, Fault>
    requires granule { IsGranule granule }
    requires some { 0 < length found.now }
    requires few { length found.now ≤ MOST_LOADS }
    ensures rules { Checks result (laid_rules number size granule found.now) }
    ensures loads { IfOk result (λ loads. loads.items ≡ map load_of found.now) }
{
    let extent = check_loads(found, size, granule, number)?;
    let loads = taken_loads(found);
    check_span(&loads, extent, granule, number)?;
    Ok(loads)
}

// Rules 20 and 21.
#[tactic(auto, using(ap_fields::proofs::FirstFaults::join_steps), unfolding(crate::specs::Rules::end_rules))]
fn check_ends(
    entries: &[Entry],
    loads: &[Load],
    entry: u64,
    number: u8,
) -> Result<Option<Entry>, Fault>
    requires few { length entries.now ≤ MOST_PHDRS }
    ensures rules { Checks result (end_rules number entry loads.now entries.now) }
    ensures first { IfOk result (λ t. t ≡ first_of is_tls entries.now) }
{
    check_entry(loads, entry, number)?;
    check_tls(entries, loads, number)
}

// The machine of a header whose rules hold.
fn machine(h: &Header) -> Machine
    ensures { result ≡ machine_of h.now.e_machine }
{
    if h.e_machine == EM_AARCH64 {
        Machine::A64
    } else {
        Machine::X64
    }
}
