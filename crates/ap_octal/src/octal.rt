// Octal text, read from left to right.
ghost use Rattle.std.specs.Prelude.{◌≡◌, ◌<◌, drop, length, slice_index, MatchOption, IsTrue, ◌↔◌};
ghost use Rattle.ap_octal.specs.OctalText.{IsPlain, EndsDigits};
ghost use Rattle.ap_octal.specs.OctalSteps.{Begins, HasDigit, IsNoOctal, Spells};

use crate::types::HEADER_SIZE;

/// The first 64 of the bytes that the text stands for, and how many these are. None exactly where it isn't octal text.
pub(crate) fn octal_bytes(text: &[u8]) -> Option<([u8; HEADER_SIZE], usize)>
    ensures { MatchOption result (IsNoOctal text.now) (λ p. Spells text.now p.0 p.1) }
{
    let mut first = [0; HEADER_SIZE];
    let mut count = 0;
    let mut rest = text;
    while !rest.is_empty() {
        let (byte, width) = next_byte(rest)?;
        if count < HEADER_SIZE {
            first[count] = byte;
        }
        count += 1;
        rest = &rest[width..];
    }
    Some((first, count))
}

/// The byte that the text's front stands for, and the length of that front. None where it stands for no byte, so that the
/// text isn't octal text.
pub fn next_byte(text: &[u8]) -> Option<(u8, usize)>
    requires { 0 < length text.now }
    ensures { MatchOption result (IsNoOctal text.now) (λ p. Begins text.now p.0 p.1) }
{
    let byte = text[0];
    if byte == b'\\' {
        escaped_byte(text)
    } else if is_plain(byte) {
        Some((byte, 1))
    } else {
        None
    }
}

// The byte that a backslash and the octal digits behind it, three at most, stand for, and the length of these.
fn escaped_byte(text: &[u8]) -> Option<(u8, usize)>
    requires some { 0 < length text.now }
    requires backslash { slice_index text.now 0 ≡ 92 }
    ensures { MatchOption result (IsNoOctal text.now) (λ p. Begins text.now p.0 p.1) }
{
    let a = octal_digit(text, 1)?;
    let Some(b) = octal_digit(text, 2) else {
        return Some((a, 2));
    };
    let Some(c) = octal_digit(text, 3) else {
        return Some((a * 8 + b, 3));
    };
    let value = (a as u16 * 8 + b as u16) * 8 + c as u16;
    if value > 255 {
        None
    } else {
        Some((value as u8, 4))
    }
}

// Whether the byte stands for itself.
fn is_plain(byte: u8) -> bool
    ensures { IsTrue result ↔ IsPlain byte }
{
    1 <= byte && byte <= 127 && byte != b'%' && byte != b'\'' && byte != b'\\'
}

// The value of the octal digit at `at`, where one stands there.
fn octal_digit(text: &[u8], at: usize) -> Option<u8>
    ensures { MatchOption result (EndsDigits (drop at text.now)) (λ d. HasDigit text.now at d) }
{
    if at < text.len() && b'0' <= text[at] && text[at] <= b'7' {
        Some(text[at] - b'0')
    } else {
        None
    }
}
