// Addresses rounded to a granule, the size of a page that a machine's kernels map.
ghost use Rattle.std.specs.Prelude.{◌≡◌, ◌^◌, ◌<◌};
ghost use Rattle.ap_fields.specs.Granules.{IsPowerOfTwo, floor_of, ceil_of};

/// The greatest multiple of the granule `g` that is at most `a`.
pub fn floor_to(a: u64, g: u64) -> u64
    requires { IsPowerOfTwo g }
    ensures { result ≡ floor_of a g }
{
    a - a % g
}

/// The least multiple of the granule `g` that is at least `a`.
pub fn ceil_to(a: u64, g: u64) -> u64
    requires power { IsPowerOfTwo g }
    requires fits { ceil_of a g < 2 ^ 64 }
    ensures { result ≡ ceil_of a g }
{
    let over = a % g;
    if over == 0 { a } else { a - over + g }
}
