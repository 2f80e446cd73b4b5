// Plans made by hand: their cells, their runs and their image files.
ghost use Rattle.std.specs.Prelude.{◌≡◌};
ghost use Rattle.ap_image.specs.Plans.{AreBacked};

use ap_image::*;
use arrayvec::ArrayVec;
use bitflags::Flags;
use std::test::Fail;

/// Read and execute.
pub fn code() -> Perms
    ensures { result.0 ≡ 5 }
{
    Perms::R.union(Perms::X)
}

/// Read and write.
pub fn data() -> Perms
    ensures { result.0 ≡ 6 }
{
    Perms::R.union(Perms::W)
}

/// A page of code that a file shows from 0x4000 on, and two pages of zeros.
pub fn code_and_zeros() -> Plan
    ensures { AreBacked result.regions 0x5000 }
{
    let mut regions = ArrayVec::new();
    regions.push(Region {
        start: 0x401000,
        span: 0x1000,
        backed: 0x1000,
        at: 0x4000,
        perms: code(),
    });
    regions.push(Region {
        start: 0x403000,
        span: 0x2000,
        backed: 0,
        at: 0,
        perms: data(),
    });
    Plan {
        regions,
        entry: 0x401000,
    }
}

/// Zeros from an address on.
fn zeros(start: u64, span: u64, perms: Perms) -> Region
    ensures { result ≡ record { start = start; span = span; backed = 0; at = 0; perms = perms } }
{
    Region {
        start,
        span,
        backed: 0,
        at: 0,
        perms,
    }
}

#[test]
fn a_plan_has_the_cells_of_its_regions_and_an_image_file(rt: HostRuntime) -> Result<(), Fail> {
    let plan = code_and_zeros();
    let mut file = [0u8; 0x5000];
    file[0x4000] = 1;
    file[0x4010] = 7;
    file[0x4fff] = 9;
    for (a, found) in [
        (0, None),
        (0x400fff, None),
        (0x401000, Some((1, code()))),
        (0x401010, Some((7, code()))),
        (0x401fff, Some((9, code()))),
        (0x402000, None),
        (0x403000, Some((0, data()))),
        (0x404fff, Some((0, data()))),
        (0x405000, None),
        (0xffff_ffff_ffff_ffff, None),
    ] {
        assert!(rt; cell(&plan, &file, a) == found, "at {a}");
    }
    let image = dump(rt.alloc(), &plan, &file)?;
    assert!(rt; image.len() == 12360);
    assert!(rt;
        image.starts_with(
            b"APEIMAGE\0\x10\x40\0\0\0\0\0\x02\0\0\0\0\0\0\0\
        \0\x10\x40\0\0\0\0\0\0\x10\0\0\0\0\0\0\x05\0\0\0\0\0\0\0\
        \0\x30\x40\0\0\0\0\0\0\x20\0\0\0\0\0\0\x06\0\0\0\0\0\0\0\x01\0"
        )
    );
    assert!(rt; image.get(72 + 0x10) == Some(&7));
    Ok(())
}

#[test]
fn regions_that_touch_are_joined_where_their_permissions_are_equal(
    rt: HostRuntime,
) -> Result<(), Fail> {
    let mut regions = ArrayVec::new();
    regions.push(zeros(0x1000, 0x1000, code()));
    regions.push(zeros(0x2000, 0x1000, code()));
    regions.push(zeros(0x3000, 0x1000, data()));
    regions.push(zeros(0x5000, 0x1000, data()));
    let plan = Plan { regions, entry: 0 };
    let found = runs(rt.alloc(), &plan)?;
    let expected = [
        (0x1000, 0x2000, code()),
        (0x3000, 0x1000, data()),
        (0x5000, 0x1000, data()),
    ]
    .map(|(start, length, perms)| Run {
        start,
        length,
        perms,
    });
    assert!(rt; found.as_slice() == expected.as_slice());
    Ok(())
}

#[test]
fn wide_plans_have_no_image_file(rt: HostRuntime) {
    let mut regions = ArrayVec::new();
    regions.push(zeros(0x1000, 0x4000_0000_0000, data()));
    let plan = Plan { regions, entry: 0 };
    let wide = DumpFault::Wide {
        total: 70368744177664,
    };
    assert!(rt; dump(rt.alloc(), &plan, b"").err() == Some(wide));
}
