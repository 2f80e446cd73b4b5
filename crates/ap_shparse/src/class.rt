ghost use Rattle.std.specs.Prelude.{◌≡◌};
ghost use Rattle.ap_shparse.specs.Bytes.{has, is_letter, is_digit, is_plain};

/// A class of bytes of which a text may have a run.
#[derive(Clone, Copy)]
pub(crate) enum Class {
    /// Space and tab.
    Blank,
    /// All but the newline.
    Comment,
    /// All but `'`.
    Quoted,
    Digit,
    /// Letters, digits and `_`.
    Name,
    /// What may stand in the `w` of `${name:-w}`; NUL too, where so.
    Fallback { nul: bool },
}

impl Class {
    #[tactic(auto, unfolding(crate::specs::Bytes::has))]
    pub(crate) fn has(self, byte: u8) -> bool
        ensures { result ≡ has self byte }
    {
        match self {
            Class::Blank => byte == b' ' || byte == b'\t',
            Class::Comment => byte != b'\n',
            Class::Quoted => byte != b'\'',
            Class::Digit => is_digit(byte),
            Class::Name => is_letter(byte) || is_digit(byte),
            Class::Fallback { nul } => !NOT_IN_FALLBACK.contains(&byte) && (nul || byte != 0),
        }
    }
}

const NOT_IN_FALLBACK: &[u8] = b"\"$'\\`}~";

const SPECIALS: &[u8] = b"\0\t\n \"$&'()*;<>?[\\`|";

/// An ASCII letter or `_`.
pub(crate) fn is_letter(byte: u8) -> bool
    ensures { result ≡ is_letter byte }
{
    byte == b'_' || (byte >= b'A' && byte <= b'Z' || byte >= b'a' && byte <= b'z')
}

pub(crate) fn is_digit(byte: u8) -> bool
    ensures { result ≡ is_digit byte }
{
    byte >= b'0' && byte <= b'9'
}

/// Whether a byte stands for itself in a word.
#[tactic(auto, unfolding(crate::specs::Bytes::is_plain))]
pub(crate) fn is_plain(byte: u8) -> bool
    ensures { result ≡ is_plain byte }
{
    !SPECIALS.contains(&byte)
}
