//! Texts of which NUL bytes are passed over.
ghost use Rattle.std.specs.Prelude.{◌≡◌, IfOk, ◌≤◌, length};
ghost use Rattle.ap_shparse.specs.Grammar.{seen, past_nul};

use crate::tree::Nul;
use std::alloc::{AllocError, Global};

/// The bytes of a text that aren't NUL.
pub(crate) fn without_nul(alloc: Global, text: &[u8]) -> Result<Vec<u8>, AllocError>
    ensures { IfOk result (λ v. v.items ≡ seen Nul.Drop text.now) }
{
    text.iter()
        .copied()
        .filter(|byte| *byte != 0)
        .collect(alloc)
}

/// How many bytes the longest front has of which `seen` aren't NUL.
pub(crate) fn past_nul(text: &[u8], seen: usize) -> usize
    ensures { result ≡ past_nul seen text.now }
{
    let mut left = seen;
    for (at, byte) in text.iter().enumerate() {
        if *byte != 0 {
            if left == 0 {
                return at;
            }
            left -= 1;
        }
    }
    text.len()
}
