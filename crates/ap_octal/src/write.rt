// The canonical statement.
ghost use Rattle.std.specs.Prelude.{◌≡◌, ◌+◌, ◌≤◌, length};
ghost use Rattle.ap_fields.specs.Fields.{patched};
ghost use Rattle.ap_octal.specs.OctalText.{IsOctal};
ghost use Rattle.ap_octal.specs.Statement as statement;
ghost use Rattle.ap_octal.specs.Statement.{octal_of, octals_of, statement_of};

use crate::types::{HEADER_SIZE, MOST_STATEMENT};

/// Writes from `at` on the canonical statement, which prints the header, and answers its length: [`MOST_STATEMENT`] at
/// most, for which there is room. All other bytes stay.
pub fn write_statement(out: &mut [u8], at: usize, header: &[u8; HEADER_SIZE]) -> usize
    requires { at + MOST_STATEMENT ≤ length out.old }
    ensures count { result ≡ length (statement_of header.now) }
    ensures text { out.new ≡ patched out.old at (statement_of header.now) }
    ensures octal { IsOctal (octals_of header.now) header.now }
{
    let mut end = put_text(out, at, b"printf '");
    for byte in header {
        end = put_octal(out, end, *byte);
    }
    put_text(out, end, b"'") - at
}

// Writes a text from `at` on, and answers the place behind it.
fn put_text(out: &mut [u8], at: usize, text: &[u8]) -> usize
    requires { at + length text.now ≤ length out.old }
    ensures end { result ≡ at + length text.now }
    ensures text { out.new ≡ patched out.old at text.now }
{
    let end = at + text.len();
    out[at..end].copy_from_slice(text);
    end
}

// Writes the text of one byte from `at` on, and answers the place behind it.
fn put_octal(out: &mut [u8], at: usize, byte: u8) -> usize
    requires { at + 4 ≤ length out.old }
    ensures end { result ≡ at + length (octal_of byte) }
    ensures text { out.new ≡ patched out.old at (octal_of byte) }
{
    if is_letter(byte) {
        put_text(out, at, &[byte])
    } else {
        let digits = [b'0' + byte / 64, b'0' + byte / 8 % 8, b'0' + byte % 8];
        put_text(out, at, &[b'\\', digits[0], digits[1], digits[2]])
    }
}

// Whether the byte is an ASCII letter.
fn is_letter(byte: u8) -> bool
    ensures { result ≡ statement.is_letter byte }
{
    (b'A' <= byte && byte <= b'Z') || (b'a' <= byte && byte <= b'z')
}
