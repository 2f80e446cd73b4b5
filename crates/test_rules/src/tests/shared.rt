// Which areas of the first input serve loads of the second, by masks that are true and by bits of no load.
use super::{Program, apart, file_of, linux, taken};
use ap_check::check_all_in;
use ap_layout::{Layout, Twins, place};
use std::process::Abort;
use std::test::Fail;

/// The file and the length of an area.
type Place = (u64, u64);

/// Two programs, masks, the areas of the loads of the second, and the size of the linked file.
type Case = (Program, Program, &'static [u32], [Place; 3], u64);

/// A program for AArch64. Its areas are at 16384, empty, at 32768, and at 49152 with two granules, up to 81920.
const COARSE: Program = (
    65536,
    183,
    0x404000,
    &[
        (1, 5, 128, 0x404000, 16, 16, 16384),
        (1, 6, 128, 0x408000, 0, 16, 16384),
        (1, 6, 128, 0x40c000, 16384, 16384, 16384),
        (1, 6, 128, 0x410000, 16385, 16385, 16384),
    ],
);

/// A program for x86-64 whose loads need 16384 bytes, none, and 4096.
const FINE: Program = (
    65536,
    62,
    0x400000,
    &[
        (1, 5, 128, 0x400000, 16384, 16384, 4096),
        (1, 6, 128, 0x404000, 0, 16, 4096),
        (1, 6, 128, 0x405000, 16, 16, 4096),
    ],
);

/// A program for x86-64. Its areas are at 16384 with one granule, at 20480 and at 36864, and at 49152 with 16384 bytes, which
/// alone stands at a multiple of 16384 and is as long.
const STAGGERED: Program = (
    65536,
    62,
    0x400000,
    &[
        (1, 5, 128, 0x400000, 16, 16, 4096),
        (1, 6, 128, 0x401000, 16384, 16384, 4096),
        (1, 6, 128, 0x405000, 12288, 12288, 4096),
        (1, 6, 128, 0x408000, 16384, 16384, 4096),
    ],
);

/// A program for AArch64 whose loads need 16384 bytes, none, and 16384.
const SECOND: Program = (
    65536,
    183,
    0x404000,
    &[
        (1, 5, 128, 0x404000, 16, 16, 16384),
        (1, 6, 128, 0x408000, 0, 16, 16384),
        (1, 6, 128, 0x40c000, 16384, 16384, 16384),
    ],
);

/// The areas of FINE where none is shared.
const ALONE: [Place; 3] = [(81920, 16384), (0, 0), (98304, 4096)];

/// The areas of SECOND where none is shared.
const BEHIND: [Place; 3] = [(65536, 16384), (0, 0), (81920, 16384)];

static CASES: [Case; 18] = [
    // no masks, and none that tells anything
    (COARSE, FINE, &[], ALONE, 102400),
    (COARSE, FINE, &[0, 0, 0], ALONE, 102400),
    // one area, and the first of two
    (
        COARSE,
        FINE,
        &[1, 0, 0],
        [(16384, 16384), (0, 0), (81920, 4096)],
        86016,
    ),
    (
        COARSE,
        FINE,
        &[4, 0, 0],
        [(32768, 16384), (0, 0), (81920, 4096)],
        86016,
    ),
    (
        COARSE,
        FINE,
        &[5, 0, 0],
        [(16384, 16384), (0, 0), (81920, 4096)],
        86016,
    ),
    // bits of an empty area, of a longer one, and of loads that aren't there
    (COARSE, FINE, &[2, 0, 0], ALONE, 102400),
    (COARSE, FINE, &[8, 0, 0], ALONE, 102400),
    (COARSE, FINE, &[16, 0, 0], ALONE, 102400),
    (COARSE, FINE, &[0xfffffff0, 0, 0], ALONE, 102400),
    // they are passed over
    (
        COARSE,
        FINE,
        &[0x8000000e, 0, 0],
        [(32768, 16384), (0, 0), (81920, 4096)],
        86016,
    ),
    // bits of a load without bytes in its file, and of one that needs another length
    (COARSE, FINE, &[0, 0xffffffff, 0], ALONE, 102400),
    (COARSE, FINE, &[0, 0, 0xffffffff], ALONE, 102400),
    // too few masks, and too many
    (
        COARSE,
        FINE,
        &[1],
        [(16384, 16384), (0, 0), (81920, 4096)],
        86016,
    ),
    (COARSE, FINE, &[0, 0, 0, 1], ALONE, 102400),
    // an area that isn't on the second input's granule, one that is, and both
    (STAGGERED, SECOND, &[2, 0, 0], BEHIND, 98304),
    (
        STAGGERED,
        SECOND,
        &[8, 0, 0],
        [(49152, 16384), (0, 0), (65536, 16384)],
        81920,
    ),
    (
        STAGGERED,
        SECOND,
        &[15, 0, 0],
        [(49152, 16384), (0, 0), (65536, 16384)],
        81920,
    ),
    // two loads have one area
    (
        STAGGERED,
        SECOND,
        &[8, 15, 8],
        [(49152, 16384), (0, 0), (49152, 16384)],
        65536,
    ),
];

#[test]
fn areas_are_shared_by_their_masks(rt: HostRuntime) -> Result<(), Fail> {
    for (number, case) in CASES.iter().enumerate() {
        let (first, second, masks, places, total) = case;
        let lay = placed(&rt, *first, *second, masks).ok_or("refused")?;
        assert!(rt;
            are_at(&lay, places) && lay.total == *total,
            "case {number}"
        );
    }
    Ok(())
}

/// The layout of two programs by these masks. `None`, where one of them isn't taken.
fn placed(rt: &impl Abort, one: Program, other: Program, masks: &[u32]) -> Option<Layout> {
    let first = taken(rt, one, 1).ok()?;
    let second = taken(rt, other, 2).ok()?;
    let mut files = file_of(rt, one);
    assert!(rt; first.size == 65536 && second.size == 65536);
    let job = check_all_in(&first, Some(&second), &linux(), &mut files, "a").ok()?;
    Some(place(&job, &told(masks)))
}

/// What these masks tell.
fn told(masks: &[u32]) -> Twins {
    let mut twins = apart();
    for mask in masks {
        if !twins.masks.is_full() {
            twins.masks.push(*mask);
        }
    }
    twins
}

/// Whether the areas of the second program's loads are at these places.
fn are_at(lay: &Layout, places: &[Place]) -> bool {
    let areas = lay.areas[1].as_slice();
    areas.len() == places.len() && areas.iter().zip(places).all(|(a, p)| (a.file, a.len) == *p)
}
