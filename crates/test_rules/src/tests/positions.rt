// The positions of the parts of linked files, and what stands in their blocks.
use super::{LOAD, Program, Row, USUAL, apart, entry_of, file_of, linux, taken};
use ap_check::check_all_in;
use ap_claims::Block;
use ap_elf::entries;
use ap_layout::{Area, entry_count, place};
use ap_script::{write_script, write_tables};
use std::process::Abort;
use std::test::Fail;

/// The file and the length of an area.
type Place = (u64, u64);

/// A program that is linked; the areas of its linked file; the end of its tables, its size, and the line behind its tables; and
/// the program headers that are written.
type Case = (
    Program,
    &'static [Place],
    (usize, u64, &'static [u8]),
    &'static [Row],
);

/// PLAIN's load as it is written.
const WRITTEN: Row = (1, 5, 16384, 0x401000, 16, 16, 4096);

const FIRST: &[u8] = b"\napelink00000000\n";

static CASES: [Case; 13] = [
    (
        (4096, 62, 0x401000, &[LOAD]),
        &[(16384, 4096)],
        (152, 20480, FIRST),
        &[WRITTEN],
    ),
    // the load isn't at a granule's start
    (
        (4096, 62, 0x401234, &[(1, 5, 128, 0x401234, 16, 16, 4096)]),
        &[(16384, 4096)],
        (152, 20480, FIRST),
        &[(1, 5, 16948, 0x401234, 16, 16, 4096)],
    ),
    // it has no bytes in the file
    (
        (4096, 62, 0x401000, &[(1, 5, 128, 0x401000, 0, 16, 4096)]),
        &[(0, 0)],
        (152, 16384, FIRST),
        &[(1, 5, 0, 0x401000, 0, 16, 4096)],
    ),
    // the second load, and a template, have none
    (
        (
            4096,
            62,
            0x401000,
            &[
                LOAD,
                (1, 6, 144, 0x403010, 0, 5000, 4096),
                (7, 6, 144, 0x403010, 0, 8, 8),
            ],
        ),
        &[(16384, 4096), (0, 0)],
        (264, 20480, FIRST),
        &[
            WRITTEN,
            (1, 6, 0x10, 0x403010, 0, 5000, 4096),
            (7, 4, 0, 0x403010, 0, 8, 8),
        ],
    ),
    (
        (
            4240,
            62,
            0x401000,
            &[LOAD, (1, 6, 144, 0x403000, 4096, 4097, 4096)],
        ),
        &[(16384, 4096), (20480, 4096)],
        (208, 24576, FIRST),
        &[WRITTEN, (1, 6, 20480, 0x403000, 4096, 4097, 4096)],
    ),
    // granules of 16384
    (
        (4096, 183, 0x404000, &[(1, 5, 128, 0x404000, 16, 16, 16384)]),
        &[(16384, 16384)],
        (152, 32768, FIRST),
        &[(1, 5, 16384, 0x404000, 16, 16, 16384)],
    ),
    // as gcc and ld make it
    (
        USUAL,
        &[
            (0x4000, 0x1000),
            (0x5000, 0x7d000),
            (0x82000, 0x27000),
            (0xa9000, 0x7000),
        ],
        (544, 720896, FIRST),
        &[
            (1, 4, 0x4000, 0x400000, 0x528, 0x528, 4096),
            (1, 5, 0x5000, 0x401000, 0x7cba1, 0x7cba1, 4096),
            (1, 4, 0x82000, 0x47e000, 0x26fd4, 0x26fd4, 4096),
            (1, 6, 0xa9f98, 0x4a6f98, 0x5a00, 0xb2c0, 4096),
            (0x6474e551, 6, 0, 0, 0, 1245184, 16),
            (4, 4, 0x4270, 0x400270, 0x40, 0x40, 8),
            (4, 4, 0x42b0, 0x4002b0, 0x44, 0x44, 4),
            (7, 4, 0xa9f98, 0x4a6f98, 0x18, 0x58, 8),
        ],
    ),
    // flags, sizes and alignments that are mended
    (
        (
            4096,
            62,
            0x401000,
            &[
                LOAD,
                (0x6474e551, 14, 0, 0, 0, 0, 1),
                (4, 6, 128, 0x401000, 8, 0, 1),
                (7, 6, 128, 0x401000, 8, 8, 8),
            ],
        ),
        &[(16384, 4096)],
        (320, 20480, FIRST),
        &[
            WRITTEN,
            (0x6474e551, 6, 0, 0, 0, 0, 16),
            (4, 4, 16384, 0x401000, 8, 8, 4),
            (7, 4, 16384, 0x401000, 8, 8, 8),
        ],
    ),
    // a template whose numbers are letters, at an address of letters
    (
        (
            0x9f0cc,
            62,
            0x6e696c500000,
            &[
                (1, 5, 4096, 0x6e696c500000, 0x9e000, 0x9e000, 4096),
                (1, 6, 0x9f061, 0x6e696c657061, 107, 107, 4096),
                (7, 6, 0x9f061, 0x6e696c657061, 107, 808464432, 808464432),
            ],
        ),
        &[(16384, 0x9e000), (0xa2000, 4096)],
        (264, 667648, b"\napelink00000001\n"),
        &[
            (1, 5, 16384, 0x6e696c500000, 0x9e000, 0x9e000, 4096),
            (1, 6, 0xa2061, 0x6e696c657061, 107, 107, 4096),
            (7, 4, 0xa2061, 0x6e696c657061, 107, 808464432, 808464432),
        ],
    ),
    // sizes of stacks
    (
        (
            4096,
            62,
            0x401000,
            &[LOAD, (0x6474e551, 6, 0, 0, 0, 1193046, 1)],
        ),
        &[(16384, 4096)],
        (208, 20480, FIRST),
        &[WRITTEN, (0x6474e551, 6, 0, 0, 0, 1245184, 16)],
    ),
    (
        (
            4096,
            62,
            0x401000,
            &[LOAD, (0x6474e551, 6, 0, 0, 0, 1 << 40, 1)],
        ),
        &[(16384, 4096)],
        (208, 20480, FIRST),
        &[WRITTEN, (0x6474e551, 6, 0, 0, 0, 1 << 30, 16)],
    ),
    (
        (
            4096,
            62,
            0x401000,
            &[LOAD, (0x6474e551, 6, 0, 0, 0, u64::MAX, 1)],
        ),
        &[(16384, 4096)],
        (208, 20480, FIRST),
        &[WRITTEN, (0x6474e551, 6, 0, 0, 0, 1 << 30, 16)],
    ),
    (
        (
            4096,
            62,
            0x401000,
            &[LOAD, (0x6474e551, 6, 0, 0, 0, 65536, 1)],
        ),
        &[(16384, 4096)],
        (208, 20480, FIRST),
        &[WRITTEN, (0x6474e551, 6, 0, 0, 0, 65536, 16)],
    ),
];

#[test]
fn programs_are_placed_and_their_tables_written(rt: HostRuntime) -> Result<(), Fail> {
    for (number, case) in CASES.iter().enumerate() {
        assert!(rt; is_made(&rt, case).ok_or("refused")?, "case {number}");
    }
    Ok(())
}

/// Whether the parts of a linked file stand where they are wanted. `None`, where the program isn't taken.
fn is_made(rt: &impl Abort, (program, areas, (end, total, ending), table): &Case) -> Option<bool> {
    let input = taken(rt, *program, 1).ok()?;
    let mut files = file_of(rt, *program);
    let job = check_all_in(&input, None, &linux(), &mut files, "a").ok()?;
    let lay = place(&job, &apart());
    let positions = (lay.tables.as_slice(), lay.mach_at, lay.mach_len);
    assert!(rt; positions == ([96].as_slice(), 0, 0));
    assert!(rt; lay.body_end as usize == *end && lay.total == *total);
    assert!(rt; lay.areas[1].is_empty() && are_at(&lay.areas[0], areas));
    assert!(rt; entry_count(&input) as usize == table.len());
    let mut block = Block::new();
    write_tables(&mut block, &job, &lay).ok()?;
    write_script(&mut block, &job, &lay).ok()?;
    Some(are_written(block.bytes(), table) && block.bytes().get(*end..)?.starts_with(ending))
}

fn are_at(areas: &[Area], places: &[Place]) -> bool {
    areas.len() == places.len() && areas.iter().zip(places).all(|(a, p)| (a.file, a.len) == *p)
}

fn are_written(block: &[u8], table: &[Row]) -> bool {
    let mut at = 96usize;
    for row in table {
        if at > 8192
            || block.len() < 16384
            || entries(block, at, 1).as_slice() != [entry_of(*row)].as_slice()
        {
            return false;
        }
        at += 56;
    }
    true
}
