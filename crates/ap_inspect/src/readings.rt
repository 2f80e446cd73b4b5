// The texts of readings.
ghost use Rattle.std.specs.Prelude.{◌≡◌, ◌++◌, OnOk};
ghost use Rattle.ap_inspect.specs.ReadingTexts.{ape_fault_text, ape_text, fault_text, mach_text, ok_text, pe_text};

use crate::statements::push_pair;
use ap_image::Plan;
use ap_loader::ApeFault;
use ap_machmap::MachFault;
use ap_pemap::PeFault;
use ap_texts::{elf_name, mach_name, pe_name, push_plan};
use std::alloc::AllocError;

/// Appends what the PE reading answers.
pub(crate) fn push_pe(text: &mut Vec<u8>, answer: &Result<Plan, PeFault>) -> Result<(), AllocError>
    ensures { OnOk result (text.new.items ≡ text.old.items ++ pe_text answer.now) }
{
    match answer {
        Ok(plan) => push_ok(text, b"pe", plan),
        Err(fault) => push_fault(text, b"pe", pe_name(fault.cause), fault.item, fault.value),
    }
}

/// Appends what the Mach-O reading answers.
pub(crate) fn push_mach(
    text: &mut Vec<u8>,
    answer: &Result<Plan, MachFault>,
) -> Result<(), AllocError>
    ensures { OnOk result (text.new.items ≡ text.old.items ++ mach_text answer.now) }
{
    match answer {
        Ok(plan) => push_ok(text, b"mach", plan),
        Err(fault) => push_fault(
            text,
            b"mach",
            mach_name(fault.cause),
            fault.item,
            fault.value,
        ),
    }
}

/// Appends what an APE reading answers, by the reading's name.
pub(crate) fn push_ape(
    text: &mut Vec<u8>,
    name: &[u8],
    answer: &Result<Plan, ApeFault>,
) -> Result<(), AllocError>
    ensures { OnOk result (text.new.items ≡ text.old.items ++ ape_text name.now answer.now) }
{
    match answer {
        Ok(plan) => push_ok(text, name, plan),
        Err(fault) => push_ape_fault(text, name, fault),
    }
}

fn push_ape_fault(text: &mut Vec<u8>, name: &[u8], fault: &ApeFault) -> Result<(), AllocError>
    ensures { OnOk result (text.new.items ≡ text.old.items ++ ape_fault_text name.now fault.now) }
{
    match fault {
        ApeFault::NoMagic => push_fault(text, name, b"NoMagic", 0, 0),
        ApeFault::NoStatement => push_fault(text, name, b"NoStatement", 0, 0),
        ApeFault::Elf(fault) => {
            push_fault(text, name, elf_name(fault.cause), fault.item, fault.value)
        }
    }
}

#[tactic(auto, using(std::proofs::Common::append_assoc), unfolding(crate::specs::ReadingTexts::ok_text))]
fn push_ok(text: &mut Vec<u8>, name: &[u8], plan: &Plan) -> Result<(), AllocError>
    ensures { OnOk result (text.new.items ≡ text.old.items ++ ok_text name.now plan.now) }
{
    text.extend_from_slice(b"reading ")?;
    text.extend_from_slice(name)?;
    text.extend_from_slice(b" ok\n")?;
    push_plan(text, plan)
}

#[tactic(auto, using(std::proofs::Common::append_assoc), unfolding(crate::specs::ReadingTexts::fault_text))]
fn push_fault(
    text: &mut Vec<u8>,
    name: &[u8],
    cause: &[u8],
    item: u16,
    value: u64,
) -> Result<(), AllocError>
    ensures { OnOk result (text.new.items ≡ text.old.items ++ fault_text name.now cause.now item value) }
{
    text.extend_from_slice(b"reading ")?;
    text.extend_from_slice(name)?;
    text.extend_from_slice(b" ")?;
    text.extend_from_slice(cause)?;
    push_pair(text, item as u64, value)
}
