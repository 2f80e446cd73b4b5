// Rules 12 and 13, of the program headers.
ghost use Rattle.std.specs.Prelude.{◌≡◌, ◌≤◌, ◌<◌, OnOk, IfOk, length};
ghost use Rattle.ap_fields.specs.declared.sizes.TheConstants.{MOST_LOADS};
ghost use Rattle.ap_elf.specs.declared.constants.TheConstants.{MOST_PHDRS};
ghost use Rattle.ap_elf.specs.Fields.{loads_in};
ghost use Rattle.ap_check.specs.Rules.{Checks, dynamic_rules, count_rules, count_of_loads_rules};

use crate::fault::{Fault, broken};
use ap_elf::constants::MOST_PHDRS;
use ap_elf::{Entry, is_dynamic, loads};
use ap_fields::MOST_LOADS;
use arrayvec::ArrayVec;

/// The loads among program headers, where rules 12 and 13 hold.
#[tactic(auto, using(ap_fields::proofs::FirstFaults::join_steps), unfolding(crate::specs::Rules::count_of_loads_rules))]
pub fn check_entries(entries: &[Entry], number: u8) -> Result<ArrayVec<Entry, MOST_LOADS>, Fault>
    requires { length entries.now ≤ MOST_PHDRS }
    ensures rules { Checks result (count_of_loads_rules number entries.now) }
    ensures loads { IfOk result (λ loads. loads.items ≡ loads_in entries.now) }
    ensures some { IfOk result (λ loads. 0 < length loads.items) }
{
    check_dynamic(entries, number)?;
    let found = loads(entries);
    check_count(found.len(), number)?;
    Ok(kept(&found))
}

// Rule 12: nothing is left to a dynamic linker.
fn check_dynamic(entries: &[Entry], number: u8) -> Result<(), Fault>
    requires { length entries.now ≤ MOST_PHDRS }
    ensures { Checks result (dynamic_rules number 1 entries.now) }
{
    let mut k = 1;
    for p in entries {
        if is_dynamic(p) {
            return Err(broken(number, 12, k, p.kind as u64));
        }
        k += 1;
    }
    Ok(())
}

// Rule 13: the number of the loads.
fn check_count(loads: usize, number: u8) -> Result<(), Fault>
    ensures rules { Checks result (count_rules number loads) }
    ensures some { OnOk result (0 < loads) }
    ensures few { OnOk result (loads ≤ MOST_LOADS) }
{
    if loads < 1 || loads > MOST_LOADS {
        return Err(broken(number, 13, 0, loads as u64));
    }
    Ok(())
}

// Loads that are few enough.
fn kept(loads: &[Entry]) -> ArrayVec<Entry, MOST_LOADS>
    requires { length loads.now ≤ MOST_LOADS }
    ensures { result.items ≡ loads.now }
{
    let mut kept = ArrayVec::new();
    match kept.try_extend_from_slice(loads) {
        Ok(()) => kept,
        Err(_) => unreachable!(),
    }
}
