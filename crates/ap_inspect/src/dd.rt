// The line on the `dd` statement.
ghost use Rattle.std.specs.Prelude.{◌≡◌, ◌++◌, OnOk};
ghost use Rattle.ap_inspect.specs.DdLines.{dd_line, numbers_line};

use crate::statements::push_pair;
use ap_octal::DdStatement;
use ap_texts::push_decimal;
use std::alloc::AllocError;

/// Appends the line of a file's `dd` statement.
pub(crate) fn push_dd(text: &mut Vec<u8>, dd: &Option<DdStatement>) -> Result<(), AllocError>
    ensures { OnOk result (text.new.items ≡ text.old.items ++ dd_line dd.now) }
{
    match dd {
        None => text.extend_from_slice(b"dd none\n"),
        Some(statement) => push_numbers(text, statement),
    }
}

#[tactic(auto, using(std::proofs::Common::append_assoc), unfolding(crate::specs::DdLines::numbers_line))]
fn push_numbers(text: &mut Vec<u8>, statement: &DdStatement) -> Result<(), AllocError>
    ensures { OnOk result (text.new.items ≡ text.old.items ++ numbers_line statement.now) }
{
    text.extend_from_slice(b"dd ")?;
    push_decimal(text, statement.at as u64)?;
    text.extend_from_slice(b" ")?;
    push_decimal(text, statement.size as u64)?;
    push_pair(text, statement.skip as u64, statement.count as u64)
}
