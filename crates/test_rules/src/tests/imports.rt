// Rule 28, of a program whose load has an import table that names number 115 of a DLL without a name of its own.
ghost use Rattle.std.specs.Prelude.{◌≡◌, false};

use super::{Edit, Row, front};
use ap_check::*;
use std::process::Abort;
use std::test::Fail;

const LOAD: Row = (1, 5, 0x1000, 0x403000, 0x1000, 0x1000, 4096);

const BASE: u64 = 0x400000;

/// The table's entry, and the word of its lookup table. Behind them 1025 letters stand from 0x403100 on.
const DIRECTORY: [Edit; 3] = [
    (4, 0x1000, 0x3040),
    (8, 0x100c, 0x3080_0000_30a0),
    (8, 0x1040, 0x8000_0000_0000_0073),
];

/// The symbols of the import table and of the import address tables.
const SYMBOLS: [u64; 4] = [0x403000, 0x403028, 0x403080, 0x4030a0];

fn program(rt: &impl Abort, edits: &[Edit]) -> [u8; 0x2000] {
    let mut file = [0; 0x2000];
    file[..4096].copy_from_slice(&front(rt, 62, 0x403000, &[LOAD]));
    for i in 0x1100..0x1501 {
        file[i] = b'a';
    }
    for (width, at, number) in DIRECTORY.iter().chain(edits) {
        assert!(rt; *width <= 8 && *at <= 0x1ff8);
        file[*at..*at + *width].copy_from_slice(&number.to_le_bytes()[..*width]);
    }
    file
}

fn named(input: Input, symbols: [u64; 4]) -> Input {
    let mut input = input;
    input.symbols = Symbols {
        idata: Some(symbols[0]),
        idata_end: Some(symbols[1]),
        iat: Some(symbols[2]),
        iat_end: Some(symbols[3]),
        pe_entry: Some(LOAD.3),
        mach_entry: None,
        image_base: Some(BASE),
    };
    input
}

fn windows() -> Options
    ensures debug { result.debug ≡ false }
    ensures systems { result.systems.0 ≡ 8 }
{
    Options {
        systems: Systems::WINDOWS,
        debug: false,
    }
}

fn checked(rt: &impl Abort, input: &Input, file: &[u8]) -> Option<(u16, u64)> {
    assert!(rt; input.number == 1 && input.size == file.len() as u64);
    let fault = check_all(input, None, &windows(), file).err()?;
    assert!(rt; fault.rule == 28 && fault.input == 1);
    Some((fault.item, fault.value))
}

#[test]
fn an_import_table_stands(rt: HostRuntime) -> Result<(), Fail> {
    let [from, to, iat, end] = SYMBOLS;
    let rows: [(&[Edit], [u64; 4], Option<(u16, u64)>); 13] = [
        (&[], SYMBOLS, None),
        (&[], [from, from + 19, iat, end], Some((1, from))),
        (&[], [from, from - 1, iat, end], Some((1, from))),
        (&[], [from, 0x404001, iat, end], Some((1, from))),
        (&[], [0x402fff, to, iat, end], Some((1, 0x402fff))),
        (&[], [from, to, iat, iat], Some((2, iat))),
        (&[], [from, to, iat, 0x404001], Some((2, iat))),
        (&[], [from, to, 0x403fff, 0x404000], None),
        (&[(8, 0x1040, 0x7fff0000)], SYMBOLS, Some((3, 0x803f0000))),
        (&[(4, 0x100c, 0x4000)], SYMBOLS, Some((3, 0x404000))),
        (&[], [from, to - 1, iat, end], Some((4, to - 1))),
        (&[(4, 0x100c, 0x3fff)], SYMBOLS, None),
        (&[(4, 0x100c, 0x3100)], SYMBOLS, Some((5, 0x403100))),
    ];
    for (edits, symbols, fault) in rows {
        let file = program(&rt, edits);
        let input = named(check_input(&file, 1).ok().ok_or("refused")?, symbols);
        let found = checked(&rt, &input, &file);
        assert!(rt; found == fault, "{found:?} in place of {fault:?}");
    }
    Ok(())
}
