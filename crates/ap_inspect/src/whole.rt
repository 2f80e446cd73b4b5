// The report on a file.
ghost use Rattle.std.specs.Prelude.{◌≡◌, ◌++◌, IfOk, OnOk, ℕ, List, length};
ghost use Rattle.ap_octal.specs.DdPlace.{IsDd};
ghost use Rattle.ap_inspect.specs.DdLines.{dd_line};
ghost use Rattle.ap_inspect.specs.Fronts.{front_lines};
ghost use Rattle.ap_inspect.specs.StatementLines.{AreStatements};
ghost use Rattle.ap_inspect.specs.Reports.{IsReport, answers_of, mapped_owners, owners_text, readings_text, statement_owners, table_owners, answers_text};

use crate::asked::{Answers, ask};
use crate::dd::push_dd;
use crate::front::push_front;
use crate::headers::{push_statement_owner, push_table_owner};
use crate::owners::{push_areas, push_mach_part, push_magic_owner, push_pe_part};
use crate::readings::{push_ape, push_mach, push_pe};
use crate::statements::push_statements;
use ap_elf::Machine;
use ap_files::NoMemory;
use ap_octal::{DdStatement, dd_statement};
use std::alloc::{AllocError, Global};

/// The report on a file: its size and magic, the statements in its first 8192 bytes, its `dd` statement, what the PE, the
/// Mach-O and two APE readings answer, and lines that say which bytes belong to which format. Numbers are in decimal; a
/// reading that maps the file is followed by its plan's text.
///
/// `NoMemory`: no memory is left for the text, or for the file after its `dd` statement.
pub fn report(alloc: Global, file: &[u8]) -> Result<Vec<u8>, NoMemory>
    ensures { IfOk result (λ text. IsReport file.now text.items) }
{
    match text_of(alloc, file) {
        Ok(text) => Ok(text),
        Err(_) => Err(NoMemory),
    }
}

fn text_of(alloc: Global, file: &[u8]) -> Result<Vec<u8>, AllocError>
    ensures { IfOk result (λ text. IsReport file.now text.items) }
{
    let dd = dd_statement(file);
    let answers = ask(alloc, file, &dd)?;
    let mut text = Vec::new(alloc);
    push_window(&mut text, file, &dd)?;
    push_answers(&mut text, file, &dd, &answers)?;
    Ok(text)
}

// Appends what a file's window holds.
#[tactic(auto, using(std::proofs::Common::append_assoc))]
fn push_window(text: &mut Vec<u8>, file: &[u8], dd: &Option<DdStatement>) -> Result<(), AllocError>
    ensures { OnOk result ((lines : List ℕ) × (text.new.items ≡ text.old.items
        ++ (front_lines file.now ++ (lines ++ dd_line dd.now))) × AreStatements file.now 0 lines) }
{
    push_front(text, file)?;
    push_statements(text, file, 0)?;
    push_dd(text, dd)
}

// Appends what its readings say, and whose its bytes are.
#[tactic(auto, using(std::proofs::Common::append_assoc))]
fn push_answers(
    text: &mut Vec<u8>,
    file: &[u8],
    dd: &Option<DdStatement>,
    answers: &Answers,
) -> Result<(), AllocError>
    requires { answers.now ≡ answers_of file.now dd.now }
    ensures { OnOk result (text.new.items ≡ text.old.items ++ answers_text file.now dd.now answers.now) }
{
    push_readings(text, answers)?;
    push_owners(text, file, dd, answers)
}

#[tactic(auto, using(std::proofs::Common::append_assoc), unfolding(crate::specs::Reports::readings_text))]
fn push_readings(text: &mut Vec<u8>, answers: &Answers) -> Result<(), AllocError>
    ensures { OnOk result (text.new.items ≡ text.old.items ++ readings_text answers.now) }
{
    push_pe(text, &answers.pe)?;
    push_mach(text, &answers.mach)?;
    push_ape(text, b"ape-62", &answers.x64)?;
    push_ape(text, b"ape-183", &answers.arm64)
}

#[tactic(auto, using(std::proofs::Common::append_assoc), unfolding(crate::specs::Reports::owners_text))]
fn push_owners(
    text: &mut Vec<u8>,
    file: &[u8],
    dd: &Option<DdStatement>,
    answers: &Answers,
) -> Result<(), AllocError>
    requires { answers.now ≡ answers_of file.now dd.now }
    ensures { OnOk result (text.new.items ≡ text.old.items
        ++ owners_text file.now dd.now answers.now) }
{
    push_magic_owner(text, file)?;
    push_pe_part(text, file, &answers.pe)?;
    push_statement_owners(text, file, answers)?;
    push_table_owners(text, file, answers)?;
    push_mapped(text, file.len() as u64, dd, answers)
}

#[tactic(auto, using(std::proofs::Common::append_assoc), unfolding(crate::specs::Reports::statement_owners))]
fn push_statement_owners(
    text: &mut Vec<u8>,
    file: &[u8],
    answers: &Answers,
) -> Result<(), AllocError>
    ensures { OnOk result (text.new.items ≡ text.old.items
        ++ statement_owners file.now answers.now) }
{
    push_statement_owner(text, file, Machine::X64, &answers.x64)?;
    push_statement_owner(text, file, Machine::A64, &answers.arm64)
}

#[tactic(auto, using(std::proofs::Common::append_assoc), unfolding(crate::specs::Reports::table_owners))]
fn push_table_owners(text: &mut Vec<u8>, file: &[u8], answers: &Answers) -> Result<(), AllocError>
    ensures { OnOk result (text.new.items ≡ text.old.items ++ table_owners file.now answers.now) }
{
    push_table_owner(text, file, Machine::X64, &answers.x64)?;
    push_table_owner(text, file, Machine::A64, &answers.arm64)
}

#[tactic(auto, using(std::proofs::Common::append_assoc), unfolding(crate::specs::Reports::mapped_owners))]
fn push_mapped(
    text: &mut Vec<u8>,
    len: u64,
    dd: &Option<DdStatement>,
    answers: &Answers,
) -> Result<(), AllocError>
    ensures { OnOk result (text.new.items ≡ text.old.items ++ mapped_owners len dd.now answers.now) }
{
    push_mach_part(text, len, dd, &answers.mach)?;
    push_areas(text, &answers.x64)?;
    push_areas(text, &answers.arm64)
}
