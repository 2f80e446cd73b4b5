// The text of a plan.
ghost use Rattle.std.specs.Prelude.{◌≡◌, ◌++◌, ◌<◌, ◌≤◌, ◌∷◌, [], IfOk, OnOk, flat_map, if◌then◌else◌, ◌==◌, ◌/◌, ◌%◌};
ghost use Rattle.ap_image.specs.Plans.{Mapping};
ghost use Rattle.ap_texts.specs.PlanTexts as spec;
ghost use Rattle.ap_texts.specs.PlanTexts.{entry_line, region_line, hex_digits, hex_of, rights_of, right_of};

use ap_image::{Perms, Plan, Region};
use bitflags::Flags;
use std::alloc::{AllocError, Global};

/// The text of a plan: `entry` and the entry, and a line for each region, which is its start, span, backed part, place and
/// permissions. Numbers have 16 hexadecimal digits.
pub fn plan_text(alloc: Global, plan: &Plan) -> Result<Vec<u8>, AllocError>
    ensures { IfOk result (λ text. text.items ≡ spec.plan_text plan.now) }
{
    let mut text = Vec::new(alloc);
    push_plan(&mut text, plan)?;
    Ok(text)
}

/// Appends the text of a plan.
#[tactic(auto, using(std::proofs::Common::append_assoc))]
pub fn push_plan(text: &mut Vec<u8>, plan: &Plan) -> Result<(), AllocError>
    ensures { OnOk result (text.new.items ≡ text.old.items ++ spec.plan_text plan.now) }
{
    push_entry(text, plan.entry)?;
    push_regions(text, plan.regions.as_slice())
}

#[tactic(auto, using(std::proofs::Common::append_assoc))]
fn push_regions(text: &mut Vec<u8>, regions: &[Region]) -> Result<(), AllocError>
    ensures { OnOk result (text.new.items ≡ text.old.items ++ flat_map region_line regions.now) }
{
    for region in regions {
        push_region(text, region)?;
    }
    Ok(())
}

#[tactic(auto, using(std::proofs::Common::append_assoc), unfolding(crate::specs::PlanTexts::entry_line))]
fn push_entry(text: &mut Vec<u8>, entry: u64) -> Result<(), AllocError>
    ensures { OnOk result (text.new.items ≡ text.old.items ++ entry_line entry) }
{
    text.extend_from_slice(b"entry ")?;
    push_hex(text, entry)?;
    text.extend_from_slice(b"\n")
}

// Appends the line of a region.
#[tactic(auto, using(std::proofs::Common::append_assoc), unfolding(crate::specs::PlanTexts::region_line))]
fn push_region(text: &mut Vec<u8>, region: &Region) -> Result<(), AllocError>
    ensures { OnOk result (text.new.items ≡ text.old.items ++ region_line region.now) }
{
    push_number(text, region.start)?;
    push_number(text, region.span)?;
    push_number(text, region.backed)?;
    push_number(text, region.at)?;
    push_rights(text, region.perms)?;
    text.extend_from_slice(b"\n")
}

// Appends a number and a space.
#[tactic(auto, using(std::proofs::Common::append_assoc))]
fn push_number(text: &mut Vec<u8>, number: u64) -> Result<(), AllocError>
    ensures { OnOk result (text.new.items ≡ text.old.items ++ (hex_of number ++ 32 ∷ [])) }
{
    push_hex(text, number)?;
    text.push(b' ')?;
    Ok(())
}

#[tactic(auto, using(std::proofs::Common::append_assoc), unfolding(crate::specs::PlanTexts::rights_of))]
fn push_rights(text: &mut Vec<u8>, perms: Perms) -> Result<(), AllocError>
    ensures { OnOk result (text.new.items ≡ text.old.items ++ rights_of perms.0) }
{
    let bits = perms.bits();
    let rights = [
        right(bits / 4, b'r'),
        right(bits / 2, b'w'),
        right(bits, b'x'),
    ];
    text.extend_from_slice(&rights)
}

// The letter of a right whose bit is the lowest, or a dash where it is missing.
fn right(bits: u8, letter: u8) -> u8
    ensures { result ≡ right_of bits letter }
{
    if bits % 2 == 1 { letter } else { b'-' }
}

/// Appends a number in 16 hexadecimal digits.
#[tactic(auto, unfolding(crate::specs::PlanTexts::hex_of))]
pub fn push_hex(text: &mut Vec<u8>, number: u64) -> Result<(), AllocError>
    ensures { OnOk result (text.new.items ≡ text.old.items ++ hex_of number) }
{
    push_digits(text, number, 16)
}

// Appends the lowest hexadecimal digits of a number, as many as `count`.
#[tactic(auto, using(std::proofs::Common::append_assoc, crate::proofs::Digits::digit_steps))]
fn push_digits(text: &mut Vec<u8>, number: u64, count: u8) -> Result<(), AllocError>
    ensures { OnOk result (text.new.items ≡ text.old.items ++ hex_digits count number) }
{
    if count == 0 {
        return Ok(());
    }
    push_digits(text, number / 16, count - 1)?;
    text.push(digit((number % 16) as u8))?;
    Ok(())
}

fn digit(value: u8) -> u8
    requires { value < 16 }
    ensures { result ≡ spec.digit value }
{
    if value < 10 {
        b'0' + value
    } else {
        b'a' + (value - 10)
    }
}
