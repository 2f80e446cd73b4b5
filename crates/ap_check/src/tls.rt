// Rule 21, of the template of thread-local storage.
ghost use Rattle.std.specs.Prelude.{◌≡◌, ◌≤◌, ◌+◌, ◌++◌, ◌∷◌, [], IfOk, length};
ghost use Rattle.ap_elf.specs.declared.constants.TheConstants.{MOST_PHDRS};
ghost use Rattle.ap_check.specs.Rules as rules;
ghost use Rattle.ap_check.specs.Rules.{Checks, single_rules, tls_rules, fault_of};
ghost use Rattle.ap_check.specs.Inputs as spec;
ghost use Rattle.ap_check.specs.Inputs.{first_of};

use crate::fault::{Fault, broken};
use crate::load::Load;
use crate::part::in_part;
use ap_elf::Entry;
use ap_elf::constants::{ADDRESS_TOP, MOST_PHDRS, PT_TLS};

/// Rule 21: there is no entry of type `PT_TLS`, or one, whose bytes are at most 2^30 in memory, aligned to at most
/// 2^30, at addresses below 2^47, and of which those in the file lie in the file part of one load. The answer is the entry.
pub fn check_tls(entries: &[Entry], loads: &[Load], number: u8) -> Result<Option<Entry>, Fault>
    requires { length entries.now ≤ MOST_PHDRS }
    ensures rules { Checks result (tls_rules number 1 loads.now entries.now) }
    ensures first { IfOk result (λ t. t ≡ first_of spec.is_tls entries.now) }
{
    let mut k = 1;
    for p in entries {
        if is_tls(p) {
            check_own(p, k, &entries[k as usize..], loads, number)?;
            return Ok(Some(*p));
        }
        k += 1;
    }
    Ok(None)
}

// Rule 21 of the first entry of type `PT_TLS`, which has the number `k` and stands before the entries `behind`.
#[tactic(auto, using(ap_fields::proofs::FirstFaults::join_steps))]
fn check_own(p: &Entry, k: u16, behind: &[Entry], loads: &[Load], number: u8) -> Result<(), Fault>
    requires { k + 1 + length behind.now ≤ 65 }
    ensures { Checks result
        (single_rules number (k + 1) behind.now ++
        ((rules.stands loads.now p.now, fault_of number 21 k p.now.vaddr) ∷ [])) }
{
    check_single(behind, k + 1, number)?;
    if !stands(p, loads) {
        return Err(broken(number, 21, k, p.vaddr));
    }
    Ok(())
}

// No entry is of type `PT_TLS`, of those that are counted from `first`.
fn check_single(entries: &[Entry], first: u16, number: u8) -> Result<(), Fault>
    requires { first + length entries.now ≤ 65 }
    ensures { Checks result (single_rules number first entries.now) }
{
    let mut k = first;
    for p in entries {
        if is_tls(p) {
            return Err(broken(number, 21, k, p.vaddr));
        }
        k += 1;
    }
    Ok(())
}

fn stands(p: &Entry, loads: &[Load]) -> bool
    ensures { result ≡ rules.stands loads.now p.now }
{
    p.filesz <= p.memsz
        && p.memsz <= 1 << 30
        && p.align <= 1 << 30
        && p.vaddr <= ADDRESS_TOP - p.memsz
        && (p.filesz == 0 || in_part(loads, p.vaddr, p.filesz))
}

fn is_tls(p: &Entry) -> bool
    ensures { result ≡ spec.is_tls p.now }
{
    p.kind == PT_TLS
}
