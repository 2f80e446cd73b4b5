// An input of a trial.
ghost use Rattle.std.specs.Prelude.{◌≡◌, ◌≤◌, ◌++◌, OnOk, IfOk};
ghost use Rattle.ap_elf.specs.Machines.{granule_of};
ghost use Rattle.ap_trial.specs.TrialInputs.{trial_input, loads_text};

use crate::draw::push_drawn;
use crate::headers::push_headers;
use crate::places::places_of;
use crate::push::push_zeros;
use crate::tables::{push_sections, push_symbols};
use ap_elf::Machine;
use ap_files::NoMemory;
use std::alloc::{AllocError, Global};

/// The input of a trial for a machine: an ELF program with three loads, of which the first has so many pages of 4096 bytes
/// that are made from the number, and with the symbol `ape_pe_entry`.
pub fn make_elf(
    alloc: Global,
    number: u64,
    pages: u32,
    machine: Machine,
) -> Result<Vec<u8>, NoMemory>
    requires least { 1 ≤ pages }
    requires most { pages ≤ 16384 }
    ensures { IfOk result (λ file. file.items ≡ trial_input number pages machine) }
{
    made(alloc, number, pages, machine).map_err(|_| NoMemory)
}

fn made(alloc: Global, number: u64, pages: u32, machine: Machine) -> Result<Vec<u8>, AllocError>
    requires { pages ≤ 16384 }
    ensures { IfOk result (λ file. file.items ≡ trial_input number pages machine) }
{
    let mut out = Vec::new(alloc);
    push_input(&mut out, number, pages, machine)?;
    Ok(out)
}

#[tactic(auto, using(std::proofs::Common::append_assoc), unfolding(crate::specs::TrialInputs::trial_input))]
fn push_input(
    out: &mut Vec<u8>,
    number: u64,
    pages: u32,
    machine: Machine,
) -> Result<(), AllocError>
    requires { pages ≤ 16384 }
    ensures { OnOk result (out.new.items ≡ out.old.items ++ trial_input number pages machine) }
{
    push_headers(out, pages, machine)?;
    push_parts(out, number, pages, machine)?;
    push_symbols(out)?;
    push_sections(out, places_of(pages, machine).tables_place)
}

#[tactic(auto, using(std::proofs::Common::append_assoc), unfolding(crate::specs::TrialInputs::loads_text))]
fn push_parts(
    out: &mut Vec<u8>,
    number: u64,
    pages: u32,
    machine: Machine,
) -> Result<(), AllocError>
    requires { pages ≤ 16384 }
    ensures { OnOk result
        (out.new.items ≡ out.old.items ++ loads_text number (granule_of machine) pages) }
{
    let p = places_of(pages, machine);
    let mut x = number;
    push_drawn(out, &mut x, p.part_length)?;
    push_zeros(out, p.part_room - p.part_length)?;
    push_drawn(out, &mut x, 4096)
}
