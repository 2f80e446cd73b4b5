// Where statements open and close.
ghost use Rattle.std.specs.Prelude.{◌≡◌, ◌+◌, ◌≤◌, ℕ, take, length, min, MatchOption};
ghost use Rattle.memchr.specs.Find.{IsFirst};
ghost use Rattle.ap_octal.specs.Embedded.{Opens, Closes};

use ap_fields::WINDOW;
use memchr::{memchr, memmem};

/// The least place from `from` on at which `printf '` stands wholly in the file's first 8192 bytes. None exactly where
/// there is none.
pub fn statements(file: &[u8], from: usize) -> Option<usize>
    requires { from ≤ WINDOW }
    ensures { IsFirst (Opens file.now) from WINDOW result }
{
    let window = window_of(file);
    if from > window.len() {
        return None;
    }
    let place = memmem::find(&window[from..], b"printf '")?;
    Some(from + place)
}

/// The place of the first quote from `from` on, where it stands in the file's first 8192 bytes.
pub(crate) fn closing_quote(file: &[u8], from: usize) -> Option<usize>
    requires within { from ≤ WINDOW }
    requires fits { from ≤ length file.now }
    ensures { MatchOption result ((end : ℕ) → ¬ Closes file.now from end)
        (λ end. Closes file.now from end) }
{
    let place = memchr(b'\'', &window_of(file)[from..])?;
    Some(from + place)
}

/// The first 8192 bytes of a file, or all that it has.
pub(crate) fn window_of(file: &[u8]) -> &[u8]
    ensures len { length result.now ≡ min WINDOW (length file.now) }
    ensures bytes { result.now ≡ take WINDOW file.now }
{
    &file[..WINDOW.min(file.len())]
}
