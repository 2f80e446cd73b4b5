// The lines on the statements that embed headers, and on the tables that these headers name.
ghost use Rattle.std.specs.Prelude.{◌≡◌, ◌++◌, ◌+◌, drop, take, OnOk, Some, List, ℕ};
ghost use Rattle.ap_fields.specs.declared.sizes.TheConstants.{WINDOW};
ghost use Rattle.ap_elf.specs.Machines.{number_of};
ghost use Rattle.ap_loader.specs.Embedded.{before_quote, header_at, taken};
ghost use Rattle.ap_inspect.specs.Owners.{header_table, quoted_owner, statement_owner, table_owner, where_mapped};

use crate::owners::push_owner;
use ap_elf::constants::EHDR_SIZE;
use ap_elf::{Machine, header};
use ap_image::Plan;
use ap_loader::{ApeFault, embedded};
use ap_octal::decode_at;
use std::alloc::AllocError;

/// Appends the line of the statement from which the APE reading for a machine takes its header, where `answer` is a plan.
pub(crate) fn push_statement_owner(
    text: &mut Vec<u8>,
    file: &[u8],
    machine: Machine,
    answer: &Result<Plan, ApeFault>,
) -> Result<(), AllocError>
    ensures { OnOk result (text.new.items ≡ text.old.items
        ++ where_mapped answer.now (statement_owner file.now (taken (number_of machine) file.now))) }
{
    match answer {
        Ok(_) => push_taken(text, file, machine),
        Err(_) => Ok(()),
    }
}

fn push_taken(text: &mut Vec<u8>, file: &[u8], machine: Machine) -> Result<(), AllocError>
    ensures { OnOk result (text.new.items ≡ text.old.items
        ++ statement_owner file.now (taken (number_of machine) file.now)) }
{
    match embedded(file, machine) {
        Some(statement) => push_quoted(text, file, statement.0, machine),
        None => Ok(()),
    }
}

// Appends the line of the statement at a place that embeds a header for the machine.
fn push_quoted(
    text: &mut Vec<u8>,
    file: &[u8],
    at: usize,
    machine: Machine,
) -> Result<(), AllocError>
    requires { (header : List ℕ) × header_at (number_of machine) (take WINDOW file.now) at ≡ Some header }
    ensures { OnOk result (text.new.items ≡ text.old.items
        ++ quoted_owner at (before_quote (drop (at + 8) (take WINDOW file.now)))) }
{
    match decode_at(file, at) {
        None => unreachable!(),
        Some(decoded) => push_owner(text, b"ape", at as u64, (decoded.end + 1 - at) as u64),
    }
}

/// Appends the line of the program header table that this header names.
pub(crate) fn push_table_owner(
    text: &mut Vec<u8>,
    file: &[u8],
    machine: Machine,
    answer: &Result<Plan, ApeFault>,
) -> Result<(), AllocError>
    ensures { OnOk result (text.new.items ≡ text.old.items
        ++ where_mapped answer.now (table_owner (taken (number_of machine) file.now))) }
{
    match answer {
        Ok(_) => push_taken_table(text, file, machine),
        Err(_) => Ok(()),
    }
}

fn push_taken_table(text: &mut Vec<u8>, file: &[u8], machine: Machine) -> Result<(), AllocError>
    ensures { OnOk result (text.new.items ≡ text.old.items
        ++ table_owner (taken (number_of machine) file.now)) }
{
    match embedded(file, machine) {
        Some(statement) => push_table(text, &statement.1),
        None => Ok(()),
    }
}

fn push_table(text: &mut Vec<u8>, bytes: &[u8; EHDR_SIZE]) -> Result<(), AllocError>
    ensures { OnOk result (text.new.items ≡ text.old.items ++ header_table bytes.now) }
{
    let h = header(bytes);
    push_owner(text, b"elf", h.e_phoff, 56 * h.e_phnum as u64)
}
