// A statement read.
ghost use Rattle.std.specs.Prelude.{MatchOption};
ghost use Rattle.ap_octal.specs.Embedded.{Opens, EmbedsNothing, Tells};

use crate::octal::octal_bytes;
use crate::search::closing_quote;
use crate::{Decoded, HEADER_SIZE};

/// What the statement that `printf '` opens at `at` embeds. None exactly where no closing quote stands in the file's
/// first 8192 bytes, or what stands before it isn't octal text of at least 64 bytes.
pub fn decode_at(file: &[u8], at: usize) -> Option<Decoded>
    requires { Opens file.now at }
    ensures { MatchOption result (EmbedsNothing file.now at) (λ d. Tells file.now at d) }
{
    let from = at + 8;
    let end = closing_quote(file, from)?;
    let (first, count) = octal_bytes(&file[from..end])?;
    if count < HEADER_SIZE {
        return None;
    }
    Some(Decoded { first, count, end })
}
