// A trial.
ghost use Rattle.std.specs.Prelude.{◌≡◌, ◌≤◌, Some, None, IfOk};
ghost use Rattle.ap_elf.specs.declared.machine.Machine.TheVariants.{X64, A64};
ghost use Rattle.ap_check.specs.Both.{first_fault_of_both};
ghost use Rattle.ap_link.specs.Answers.{IsLinked};
ghost use Rattle.ap_trial.specs.Trials as spec;
ghost use Rattle.ap_trial.specs.Trials.{AreNumbers, IsTrial};

use crate::fold::fold_bytes;
use crate::found::folds_of;
use crate::input::make_elf;
use crate::numbers::SummaryNumbers;
use crate::summary::summary;
use ap_check::{Options, Systems};
use ap_claims::Block;
use ap_elf::Machine;
use ap_files::NoMemory;
use ap_link::{LinkFault, link};
use bitflags::Flags;
use std::alloc::Global;

/// The summary of a trial. The inputs of the number for x86-64 and for AArch64 are linked, in this order, for all five systems.
/// The summary has their lengths, the linked file's length and the fold of its bytes, and, for each of seven readings of that
/// file and of the ELF and Mach-O files that it becomes, the fold of what it finds at the addresses of the inputs' loads. None
/// refuses anything. `NoMemory` is left free.
pub fn trial(alloc: Global, number: u64, pages: u32) -> Result<Vec<u8>, NoMemory>
    requires least { 1 ≤ pages }
    requires most { pages ≤ 16384 }
    ensures { IfOk result (λ text. IsTrial number pages text.items) }
{
    let numbers = numbers_of(alloc, number, pages)?;
    summary(alloc, &numbers).map_err(|_| NoMemory)
}

fn numbers_of(alloc: Global, number: u64, pages: u32) -> Result<SummaryNumbers, NoMemory>
    requires least { 1 ≤ pages }
    requires most { pages ≤ 16384 }
    ensures { IfOk result (λ numbers. AreNumbers number pages numbers) }
{
    let x64 = make_elf(alloc, number, pages, Machine::X64)?;
    let a64 = make_elf(alloc, number, pages, Machine::A64)?;
    let file = linked(alloc, &x64, &a64)?;
    Ok(SummaryNumbers {
        x64: x64.len(),
        a64: a64.len(),
        linked: file.len(),
        fold: fold_bytes(&file),
        folds: folds_of(alloc, &file, pages)?,
    })
}

// The linked file of inputs that break no rule.
fn linked(alloc: Global, x64: &[u8], a64: &[u8]) -> Result<Vec<u8>, NoMemory>
    requires { first_fault_of_both spec.all_systems x64.now (Some a64.now) ≡ None }
    ensures { IfOk result (λ file. IsLinked spec.all_systems x64.now (Some a64.now) file.items) }
{
    match link(alloc, x64, Some(a64), &all_systems(), &mut Block::new()) {
        Ok(file) => Ok(file),
        Err(LinkFault::NoMemory) => Err(NoMemory),
        Err(LinkFault::Rule(_)) => unreachable!(),
    }
}

fn all_systems() -> Options
    ensures { result ≡ spec.all_systems }
{
    let systems = Systems::LINUX
        .union(Systems::FREEBSD)
        .union(Systems::NETBSD)
        .union(Systems::WINDOWS)
        .union(Systems::MAC);
    Options {
        systems,
        debug: false,
    }
}
