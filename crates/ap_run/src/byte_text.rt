// The text of any bytes.
ghost use Rattle.std.specs.Prelude.{◌≡◌, ◌++◌, OnOk};
ghost use Rattle.ap_run.specs.ByteTexts.{bytes_text, shown_byte};

use std::alloc::AllocError;

/// Appends bytes, of which one that isn't printed, and a backslash, is a backslash and three octal digits.
#[tactic(auto, using(std::proofs::Common::append_assoc))]
pub fn push_bytes(text: &mut Vec<u8>, bytes: &[u8]) -> Result<(), AllocError>
    ensures { OnOk result (text.new.items ≡ text.old.items ++ bytes_text bytes.now) }
{
    for byte in bytes {
        push_byte(text, *byte)?;
    }
    Ok(())
}

#[tactic(auto, unfolding(crate::specs::ByteTexts::shown_byte))]
fn push_byte(text: &mut Vec<u8>, byte: u8) -> Result<(), AllocError>
    ensures { OnOk result (text.new.items ≡ text.old.items ++ shown_byte byte) }
{
    if byte.is_ascii_graphic() && byte != b'\\' {
        return text.extend_from_slice(&[byte]);
    }
    let digits = [
        b'\\',
        b'0' + byte / 64,
        b'0' + byte / 8 % 8,
        b'0' + byte % 8,
    ];
    text.extend_from_slice(&digits)
}
