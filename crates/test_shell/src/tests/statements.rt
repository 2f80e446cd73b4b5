// The first `dd` statement of a file (APE specification).
use ap_octal::dd_statement;
use std::test::Fail;

/// A file, and its statement: place, size of a block, blocks that are skipped and blocks that are copied.
type Row = (&'static str, Option<(usize, u32, u32, u32)>);

const ROWS: &[Row] = &[
    (
        "dd bs=8 skip=1024 count=72 conv=notrunc",
        Some((2, 8, 1024, 72)),
    ),
    (
        " bs=08 skip=000000001 count=0 conv=notrunc2",
        Some((0, 8, 1, 0)),
    ),
    (" bs=0000000008 skip=1 count=1 conv=notrunc", None),
    (" bs=8 skip= count=1 conv=notrunc", None),
    (" bs=8 count=1 skip=1 conv=notrunc", None),
    (" bs=8 skip=1 count=1 conv=notrun", None),
    (
        " bs=0 skip=1 count=1 conv=notrunc bs=2 skip=3 count=4 conv=notrunc",
        Some((33, 2, 3, 4)),
    ),
    (
        " bs=5 bs=6 skip=7 count=8 conv=notrunc bs=9 skip=1 count=1 conv=notrunc",
        Some((5, 6, 7, 8)),
    ),
    ("", None),
];

/// A statement of 33 bytes.
const LAST: &[u8] = b" bs=8 skip=1 count=1 conv=notrunc";

#[test]
fn the_first_statement_is_found(rt: HostRuntime) -> Result<(), Fail> {
    for (text, wanted) in ROWS {
        let found = dd_statement(text.as_bytes()).map(|s| (s.at, s.size, s.skip, s.count));
        assert!(rt; found == *wanted, "{text}");
    }
    for (at, there) in [(8159, true), (8160, false)] {
        let mut file = Vec::new(rt.alloc());
        file.resize(at, 0)?;
        file.extend_from_slice(LAST)?;
        let found = dd_statement(file.as_slice());
        assert!(rt; found.is_some() == there, "at {at}");
    }
    Ok(())
}
