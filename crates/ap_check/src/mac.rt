// What a linked file for macOS asks of its input for x86-64.
ghost use Rattle.std.specs.Prelude.{◌≡◌, Some, OnOk, option_copied};
ghost use Rattle.ap_check.specs.Rules.{Checks};
ghost use Rattle.ap_check.specs.Inputs.{inputs_of};
ghost use Rattle.ap_check.specs.Mac.{mach_entry_of, mach_entry_rules, mac_rules, MeetsMac, AreForMac};

use crate::fault::{Fault, broken, demand};
use crate::input::Input;
use crate::job::x64_input;
use crate::options::{Options, Systems};
use crate::span::can_start_in;
use bitflags::Flags;

/// Rule 29: where macOS was chosen and an input is for x86-64, its program starts there in a load that may be executed.
#[tactic(auto, unfolding(crate::specs::Mac::mac_rules))]
pub fn check_mac(first: &Input, second: Option<&Input>, options: &Options) -> Result<(), Fault>
    ensures rules { Checks result
        (mac_rules options.now (inputs_of first.now (option_copied second.entry))) }
    ensures meets { OnOk result
        (AreForMac options.now (inputs_of first.now (option_copied second.entry))) }
{
    if !options.systems.intersects(Systems::MAC) {
        return Ok(());
    }
    match x64_input(first, second) {
        None => Ok(()),
        Some(e) => check_mach_entry(e),
    }
}

fn check_mach_entry(e: &Input) -> Result<(), Fault>
    ensures rules { Checks result (mach_entry_rules (Some e.now)) }
    ensures meets { OnOk result (MeetsMac e.now) }
{
    let entry = mach_entry(e);
    demand(
        can_start_in(&e.loads, entry),
        broken(e.number, 29, 0, entry),
    )
}

/// Where an input's program starts on macOS: the value of `ape_mach_entry`, or the ELF header's entry where there is no such symbol.
pub fn mach_entry(e: &Input) -> u64
    ensures { result ≡ mach_entry_of e.now }
{
    e.symbols.mach_entry.unwrap_or(e.entry)
}
