// The here-document's delimiter.
ghost use Rattle.std.specs.Prelude.{◌≡◌, ◌≤◌, length};
ghost use Rattle.ap_fields.specs.declared.sizes.TheConstants.{WINDOW};
ghost use Rattle.ap_script.specs.Delimiter as spec;
ghost use Rattle.ap_script.specs.Delimiter.{delimiter_number};

use crate::text::Text;
use ap_fields::WINDOW;
use arrayvec::ArrayVec;
use memchr::memmem;

/// The number of the delimiter of a here-document with this body, which has 8192 bytes at most: the least whose delimiter
/// doesn't stand in the body after all NUL bytes are taken out of it.
pub fn choose_delimiter(body: &[u8]) -> u32
    requires { length body.now ≤ WINDOW }
    ensures { result ≡ delimiter_number body.now }
{
    let text = without_nul(body);
    let mut number = 0;
    while number < WINDOW as u32 && stands_in(&delimiter(number), &text) {
        number += 1;
    }
    number
}

/// The delimiter of a number: `apelink` and the number in eight digits.
pub(crate) fn delimiter(number: u32) -> [u8; 15]
    ensures { result ≡ spec.delimiter number }
{
    let mut word = *b"apelink00000000";
    let mut rest = number;
    let mut at = word.len();
    while at > 7 {
        at -= 1;
        word[at] = b'0' + (rest % 10) as u8;
        rest /= 10;
    }
    word
}

fn without_nul(body: &[u8]) -> Text
    requires { length body.now ≤ WINDOW }
    ensures { result.items ≡ spec.without_nul body.now }
{
    let mut text = ArrayVec::new();
    for byte in body {
        if *byte != 0 {
            text.push(*byte);
        }
    }
    text
}

fn stands_in(word: &[u8], text: &[u8]) -> bool
    ensures { result ≡ spec.stands_in word.now text.now }
{
    memmem::find(text, word).is_some()
}
