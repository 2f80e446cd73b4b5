// Numbers in decimal digits without a sign.
ghost use Rattle.std.specs.Prelude.{◌≡◌};
ghost use Rattle.ap_words.specs.Numbers as spec;

/// The number of 1 to `most` digits, which is below 2^64.
pub fn number_in(text: &str, most: usize) -> Option<u64>
    ensures { result ≡ spec.number_in most text.now }
{
    let digits = text.as_bytes();
    if digits.len() < 1 || digits.len() > most {
        return None;
    }
    read_digits(0, digits)
}

/// The number of 1 to `most` digits, which is below 2^32.
pub fn small_in(text: &str, most: usize) -> Option<u32>
    ensures { result ≡ spec.small_in most text.now }
{
    let number = number_in(text, most)?;
    in_32_bits(number)
}

fn in_32_bits(number: u64) -> Option<u32>
    ensures { result ≡ spec.in_32_bits number }
{
    if number < 1 << 32 {
        Some(number as u32)
    } else {
        None
    }
}

// The number with digits behind it, where it is below 2^64.
fn read_digits(number: u64, digits: &[u8]) -> Option<u64>
    ensures { result ≡ spec.read_digits number digits.now }
{
    match digits {
        [] => Some(number),
        [digit, rest @ ..] => {
            let next = with_digit(number, *digit)?;
            read_digits(next, rest)
        }
    }
}

fn with_digit(number: u64, digit: u8) -> Option<u64>
    ensures { result ≡ spec.with_digit number digit }
{
    if !digit.is_ascii_digit() {
        return None;
    }
    number.checked_mul(10)?.checked_add((digit - b'0') as u64)
}
