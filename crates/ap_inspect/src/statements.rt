// The lines on statements.
ghost use Rattle.std.specs.Prelude.{◌≡◌, ◌≤◌, ◌+◌, ◌-◌, ◌++◌, ℕ, List, OnOk};
ghost use Rattle.ap_octal.specs.Embedded.{Opens};
ghost use Rattle.ap_inspect.specs.StatementLines as spec;
ghost use Rattle.ap_inspect.specs.StatementLines.{AreStatements, IsStatement, statement_line, machine_of};

use ap_fields::{WINDOW, le16};
use ap_octal::{Decoded, HEADER_SIZE, decode_at, statements};
use ap_texts::push_decimal;
use std::alloc::AllocError;

/// Appends a line for each statement of the file's first 8192 bytes from a place on, in order.
#[tactic(auto, using(std::proofs::Common::append_assoc))]
pub(crate) fn push_statements(
    text: &mut Vec<u8>,
    file: &[u8],
    from: usize,
) -> Result<(), AllocError>
    requires { from ≤ WINDOW }
    ensures { OnOk result ((lines : List ℕ) × (text.new.items ≡ text.old.items ++ lines)
        × AreStatements file.now from lines) }
{
    let Some(at) = statements(file, from) else {
        return Ok(());
    };
    push_statement(text, file, at)?;
    push_statements(text, file, at + 1)
}

fn push_statement(text: &mut Vec<u8>, file: &[u8], at: usize) -> Result<(), AllocError>
    requires { Opens file.now at }
    ensures { OnOk result ((line : List ℕ) × (text.new.items ≡ text.old.items ++ line)
        × IsStatement file.now at line) }
{
    let decoded = decode_at(file, at);
    push_line(text, at, &decoded)
}

#[tactic(auto, using(std::proofs::Common::append_assoc), unfolding(crate::specs::StatementLines::statement_line))]
fn push_line(text: &mut Vec<u8>, at: usize, decoded: &Option<Decoded>) -> Result<(), AllocError>
    ensures { OnOk result (text.new.items ≡ text.old.items ++ statement_line at decoded.now) }
{
    text.extend_from_slice(b"statement ")?;
    push_decimal(text, at as u64)?;
    match decoded {
        None => text.extend_from_slice(b" none\n"),
        Some(decoded) => push_pair(
            text,
            decoded.count as u64,
            machine_of(&decoded.first) as u64,
        ),
    }
}

#[tactic(auto, using(std::proofs::Common::append_assoc))]
pub(crate) fn push_pair(text: &mut Vec<u8>, count: u64, machine: u64) -> Result<(), AllocError>
    ensures { OnOk result (text.new.items ≡ text.old.items ++ spec.pair_text count machine) }
{
    text.extend_from_slice(b" ")?;
    push_decimal(text, count)?;
    text.extend_from_slice(b" ")?;
    push_decimal(text, machine)?;
    text.extend_from_slice(b"\n")
}

// The machine of an ELF header, and 0 of other bytes.
fn machine_of(first: &[u8; HEADER_SIZE]) -> u16
    ensures { result ≡ spec.machine_of first.now }
{
    if first.starts_with(b"\x7fELF") {
        le16(first, 18)
    } else {
        0
    }
}
