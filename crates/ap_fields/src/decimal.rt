// Numbers in decimal digits.
ghost use Rattle.std.specs.Prelude.{◌≡◌, ◌+◌, ◌≤◌, length};
ghost use Rattle.std.specs.Fmt.{decimal};
ghost use Rattle.ap_fields.specs.Fields.{patched};

/// Writes `v` from `at` on in decimal digits, without leading zeros, and answers how many digits those are: 20 at most,
/// for which there is room. All other bytes stay.
pub fn put_decimal(out: &mut [u8], at: usize, v: u64) -> usize
    requires { at + 20 ≤ length out.old }
    ensures count { result ≡ length (decimal v) }
    ensures text { out.new ≡ patched out.old at (decimal v) }
{
    put_digits(out, at, v)
}

fn put_digits(out: &mut [u8], at: usize, v: u64) -> usize
    requires { at + length (decimal v) ≤ length out.old }
    ensures count { result ≡ length (decimal v) }
    ensures text { out.new ≡ patched out.old at (decimal v) }
{
    if v < 10 {
        out[at] = b'0' + v as u8;
        return 1;
    }
    let front = put_digits(out, at, v / 10);
    out[at + front] = b'0' + (v % 10) as u8;
    front + 1
}
