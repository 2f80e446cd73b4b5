// The `dd` statement of a file.
ghost use Rattle.std.specs.Prelude.{◌≡◌, ◌≤◌, ◌<◌, ◌+◌, ℕ, IsTrue, ◌↔◌, true, false, length, slice_index, MatchOption};
ghost use Rattle.ap_fields.specs.Bytes.{Holds};
ghost use Rattle.ap_octal.specs.DdPlace as place;
ghost use Rattle.ap_octal.specs.DdPlace.{HasOperand, IsDd, StandsDd};

use crate::search::window_of;
use crate::types::DdStatement;
use ap_fields::WINDOW;

// The most digits of a number of a `dd` statement.
const MOST_DIGITS: usize = 9;

/// The first place in the file's first 8192 bytes at which ` bs=B skip=S count=C conv=notrunc` stands wholly, with numbers
/// of one to nine decimal digits, B at least 1, and these numbers. None exactly where it stands nowhere there.
pub fn dd_statement(file: &[u8]) -> Option<DdStatement>
    ensures { IsDd file.now result }
{
    let window = window_of(file);
    for at in 0..window.len() {
        if let Some((size, skip, count)) = numbers_at(window, at) {
            return Some(DdStatement {
                at,
                size,
                skip,
                count,
            });
        }
    }
    None
}

/// The number that one to nine decimal digits spell; the first may be zeros. None exactly where the text is anything else.
pub fn short_number(text: &[u8]) -> Option<u32>
    ensures { result ≡ place.short_number text.now }
{
    if text.is_empty() || text.len() > MOST_DIGITS {
        return None;
    }
    let mut value = 0;
    for digit in text {
        if !is_digit(*digit) {
            return None;
        }
        value = value * 10 + (*digit - b'0') as u32;
    }
    Some(value)
}

// The three numbers of the statement at a place.
fn numbers_at(text: &[u8], at: usize) -> Option<(u32, u32, u32)>
    requires { at ≤ length text.now }
    ensures { MatchOption result
        ((size skip count : ℕ) → ¬ StandsDd text.now at size skip count)
        (λ n. StandsDd text.now at n.0 n.1 n.2) }
{
    let (size, skip_at) = operand_at(text, at, b" bs=")?;
    let (skip, count_at) = operand_at(text, skip_at, b" skip=")?;
    let (count, conv_at) = operand_at(text, count_at, b" count=")?;
    if size >= 1 && stands(text, conv_at, b" conv=notrunc") {
        Some((size, skip, count))
    } else {
        None
    }
}

// The number behind a name that stands at a place, and where its digits end.
fn operand_at(text: &[u8], at: usize, name: &[u8]) -> Option<(u32, usize)>
    requires { at ≤ length text.now }
    ensures { MatchOption result ((number end : ℕ) → ¬ HasOperand text.now at name.now number end)
        (λ n. HasOperand text.now at name.now n.0 n.1) }
{
    if !stands(text, at, name) {
        return None;
    }
    let from = at + name.len();
    let end = digits_end(text, from);
    let number = short_number(&text[from..end])?;
    Some((number, end))
}

// Whether some bytes stand at a place.
fn stands(text: &[u8], at: usize, bytes: &[u8]) -> bool
    requires { at ≤ length text.now }
    ensures { IsTrue result ↔ Holds text.now at bytes.now }
{
    if text.len() - at < bytes.len() {
        return false;
    }
    for (i, byte) in bytes.iter().enumerate() {
        if text[at + i] != *byte {
            return false;
        }
    }
    true
}

// The first place from `from` on at which no digit stands.
fn digits_end(text: &[u8], from: usize) -> usize
    requires { from ≤ length text.now }
    ensures low { from ≤ result }
    ensures high { result ≤ length text.now }
    ensures digits { (k : ℕ) → from ≤ k → k < result
        → place.is_digit (slice_index text.now k) ≡ true }
    ensures end { place.is_digit (slice_index text.now result) ≡ false }
{
    let mut end = from;
    while end < text.len() && is_digit(text[end]) {
        end += 1;
    }
    end
}

// Whether the byte is a decimal digit.
fn is_digit(byte: u8) -> bool
    ensures { result ≡ place.is_digit byte }
{
    b'0' <= byte && byte <= b'9'
}
