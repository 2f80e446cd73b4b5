// The rules of one or two inputs together.
ghost use Rattle.std.specs.Prelude.{◌≡◌, ◌≢◌, ◌^◌, ◌≤◌, true, Some, OnOk, IfOk, IfSome, IsSomeAnd, List, ℕ, Option, length, option_copied};
ghost use Rattle.ap_files.specs.Reads.{HasSize};
ghost use Rattle.ap_elf.specs.declared.machine.Machine.TheVariants.{X64};
ghost use Rattle.ap_check.specs.Options.{AreTaken, for_windows};
ghost use Rattle.ap_check.specs.Rules.{Checks};
ghost use Rattle.ap_check.specs.ImportRule.{ChecksTold};
ghost use Rattle.ap_check.specs.Inputs.{inputs_of};
ghost use Rattle.ap_check.specs.Windows.{x64_of, base_of, image_rules, x64_rules, windows_rules, MeetsWindows, IsReady};
ghost use Rattle.ap_check.specs.Mac.{system_rules, AreForMac};
ghost use Rattle.ap_check.specs.Both.{taken_machines_rules, pair_rules, x64_bytes, rules_of_both, AreTakenOf};

use crate::end::CheckEnd;
use crate::fault::{Fault, broken};
use crate::imports::check_imports_in;
use crate::input::Input;
use crate::job::{Job, x64_input};
use crate::mac::check_mac;
use crate::options::{Options, Systems};
use crate::windows::{check_image, image_base};
use ap_files::{Files, SliceFiles};
use bitflags::Flags;

/// The job of linking one or two inputs that were taken, or the first of these rules that they break together:
///
/// - 23: two inputs are for different machines. The fault names input 2, and the value is its machine's number.
/// - 24: where Windows was chosen, an input is for x86-64. The fault names no input.
/// - 25: where Windows was chosen, that input has a symbol `ape_pe_entry`, whose value is an address of a load that may be executed.
///   The item is 0 where there is no symbol, else 1, and the value the symbol's.
/// - 26: where Windows was chosen, its image base is a multiple of 65536 and not 0, leaves 8192 bytes below the loads, and the image
///   has at most 2^31 bytes. The value is the base.
/// - 27: where Windows was chosen, it has none of the four symbols of an import table, or all and `ape_image_base`. The value is how
///   many of the four it has.
/// - 28: where Windows was chosen, the import table that they name stands. The item is the part that fails.
/// - 29: where macOS was chosen and an input is for x86-64, the value of its symbol `ape_mach_entry`, or its `e_entry` where there is
///   no such symbol, is an address of a load that may be executed. The value is that address.
///
/// `bytes` are those of the input for x86-64; where there is none, they aren't looked at. The options name no magic for debuggers
/// together with Windows.
#[tactic(auto, using(ap_files::proofs::SliceLemmas::slice_steps))]
pub fn check_all<'a>(
    first: &'a Input,
    second: Option<&'a Input>,
    options: &Options,
    bytes: &[u8],
) -> Result<Job<'a>, Fault>
    requires options { AreTaken options.now }
    requires first { first.now.number ≡ 1 }
    requires second { IfSome (option_copied second) (λ i. i.number ≡ 2) }
    requires size { IfSome (x64_of (inputs_of first.now (option_copied second)))
        (λ e. e.size ≡ length bytes.now) }
    ensures rules { Checks result
        (pair_rules options.now first.now (option_copied second.entry) bytes.now) }
    ensures bytes { (a : List ℕ) (b : Option (List ℕ))
        → AreTakenOf a b first.now (option_copied second.entry) → bytes.now ≡ x64_bytes first.now a b
        → Checks result (rules_of_both options.now a b) }
    ensures first { IfOk result (λ job. job.first.now ≡ first.now) }
    ensures second { IfOk result (λ job. option_copied job.second ≡ option_copied second.entry) }
    ensures options { IfOk result (λ job. job.options ≡ options.now) }
{
    let mut files = SliceFiles { bytes };
    match check_all_in(first, second, options, &mut files, "") {
        Ok(job) => Ok(job),
        Err(CheckEnd::Rule(fault)) => Err(fault),
        Err(CheckEnd::ReadFault) => unreachable!(),
    }
}

/// The same, where `name` is the file of the input for x86-64; where there is none, it isn't looked at. Of the file the bytes that
/// the walk of an import table meets are read.
///
/// `ReadFault`: a read failed.
pub fn check_all_in<'a, F: Files>(
    first: &'a Input,
    second: Option<&'a Input>,
    options: &Options,
    files: &mut F,
    name: &str,
) -> Result<Job<'a>, CheckEnd>
    requires options { AreTaken options.now }
    requires first { first.now.number ≡ 1 }
    requires second { IfSome (option_copied second) (λ i. i.number ≡ 2) }
    requires size { IfSome (x64_of (inputs_of first.now (option_copied second)))
        (λ e. HasSize (F.state files.old).kept name.now e.size) }
    ensures rules { ChecksTold (F.state files.old) (F.state files.new) name.now
        (pair_rules options.now first.now (option_copied second.entry)) result }
    ensures first { IfOk result (λ job. job.first.now ≡ first.now) }
    ensures second { IfOk result (λ job. option_copied job.second ≡ option_copied second.entry) }
    ensures options { IfOk result (λ job. job.options ≡ options.now) }
{
    check_machines(first, second)?;
    let base = check_systems_in(first, second, options, files, name)?;
    Ok(Job {
        first,
        second,
        options: *options,
        base,
    })
}

// Rule 23: two inputs are for different machines.
fn check_machines(first: &Input, second: Option<&Input>) -> Result<(), Fault>
    ensures rules { Checks result (taken_machines_rules first.now (option_copied second.entry)) }
    ensures machines { OnOk result
        (IfSome (option_copied second.entry) (λ i. first.now.machine ≢ i.machine)) }
{
    match second {
        Some(other) if first.machine == other.machine => {
            Err(broken(2, 23, 0, other.machine.number() as u64))
        }
        _ => Ok(()),
    }
}

// Rules 24 to 29, by the systems that were chosen, and then the image base on Windows, or 0 without Windows.
fn check_systems_in<F: Files>(
    first: &Input,
    second: Option<&Input>,
    options: &Options,
    files: &mut F,
    name: &str,
) -> Result<u64, CheckEnd>
    requires { IfSome (x64_of (inputs_of first.now (option_copied second)))
        (λ e. HasSize (F.state files.old).kept name.now e.size) }
    ensures rules { ChecksTold (F.state files.old) (F.state files.new) name.now
        (system_rules options.now (inputs_of first.now (option_copied second.entry))) result }
    ensures ready { IfOk result (λ base. for_windows options.now ≡ true
        → IsSomeAnd (x64_of (inputs_of first.now (option_copied second.entry))) (IsReady base)) }
    ensures top { IfOk result (λ base. base ≤ 2 ^ 48) }
    ensures mac { OnOk result
        (AreForMac options.now (inputs_of first.now (option_copied second.entry))) }
{
    let base = check_windows_in(first, second, options, files, name)?;
    check_mac(first, second, options)?;
    Ok(base)
}

// Rules 24 to 28, where Windows was chosen, and then the image base; else 0.
fn check_windows_in<F: Files>(
    first: &Input,
    second: Option<&Input>,
    options: &Options,
    files: &mut F,
    name: &str,
) -> Result<u64, CheckEnd>
    requires { IfSome (x64_of (inputs_of first.now (option_copied second)))
        (λ e. HasSize (F.state files.old).kept name.now e.size) }
    ensures rules { ChecksTold (F.state files.old) (F.state files.new) name.now
        (windows_rules options.now (inputs_of first.now (option_copied second.entry))) result }
    ensures ready { IfOk result (λ base. for_windows options.now ≡ true
        → IsSomeAnd (x64_of (inputs_of first.now (option_copied second.entry))) (IsReady base)) }
    ensures top { IfOk result (λ base. base ≤ 2 ^ 48) }
{
    if !options.systems.intersects(Systems::WINDOWS) {
        return Ok(0);
    }
    match x64_input(first, second) {
        None => Err(CheckEnd::Rule(broken(0, 24, 0, 0))),
        Some(e) => check_x64_in(e, files, name),
    }
}

// Rules 25 to 28 of the input for x86-64, and then its image base.
fn check_x64_in<F: Files>(e: &Input, files: &mut F, name: &str) -> Result<u64, CheckEnd>
    requires machine { e.now.machine ≡ X64 }
    requires size { HasSize (F.state files.old).kept name.now e.now.size }
    ensures rules { ChecksTold (F.state files.old) (F.state files.new) name.now
        (x64_rules (Some e.now)) result }
    ensures ready { IfOk result (λ base. IsReady base e.now) }
    ensures top { IfOk result (λ base. base ≤ 2 ^ 48) }
{
    check_image(e)?;
    let base = image_base(e);
    check_imports_in(files, name, e, base)?;
    Ok(base)
}
