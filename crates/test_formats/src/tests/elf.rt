// The headers and symbols of a small program, by its bytes and by its name.
use super::{Edit, FRONT, edit};
use ap_elf::*;
use ap_files::{Failed, SteadyFiles};

/// What makes of the front of a program one with the symbol `ape_pe_entry`: the symbols stand at 144, their strings at 192,
/// the section headers at 208, and the load is at 128.
const NAMED: &[Edit] = &[
    (8, 72, 128),
    (8, 40, 208),
    (2, 60, 3),
    (4, 168, 1),
    (2, 174, 0xfff1),
    (8, 176, 0x401008),
    (8, 193, 0x655f_6570_5f65_7061),
    (4, 201, 0x7972_746e),
    (4, 276, 2),
    (8, 296, 144),
    (8, 304, 48),
    (4, 312, 2),
    (8, 328, 24),
    (4, 340, 3),
    (8, 360, 192),
    (8, 368, 14),
];

/// What is found of a name: the part that fails, or 0, and the value.
type Found = (u8, Option<u64>);

const NONE: Found = (0, None);

/// The symbol's value.
const SOME: Found = (0, Some(0x401008));

/// Edits of the file, a name, and what is found of it.
static CASES: [(&[Edit], &str, Found); 23] = [
    (&[], "ape_pe_entry", SOME),
    (&[], "ape_pe_entr", NONE),
    (&[], "pe_entry", NONE),
    (&[], "ape_iat", NONE),
    // parts 1 to 7
    (&[(2, 58, 63)], "ape_pe_entry", (1, None)),
    (&[(8, 40, 209)], "ape_pe_entry", (2, None)),
    (&[(8, 328, 25), (8, 304, 47)], "ape_pe_entry", (3, None)),
    (&[(8, 304, 0x10000000000)], "ape_pe_entry", (4, None)),
    (&[(8, 304, 47)], "ape_pe_entry", (5, None)),
    (&[(4, 312, 3)], "ape_pe_entry", (6, None)),
    (&[(4, 340, 2)], "ape_pe_entry", (6, None)),
    (&[(8, 368, 0x10000000000)], "ape_pe_entry", (7, None)),
    // a sum that wraps
    (&[(8, 296, 0xffffffffffffffff)], "ape_pe_entry", (4, None)),
    // no section, and no symbol table
    (&[(2, 60, 0)], "ape_pe_entry", NONE),
    (&[(8, 40, 0), (2, 58, 63)], "ape_pe_entry", NONE),
    (&[(4, 276, 1), (4, 312, 3)], "ape_pe_entry", NONE),
    // a name whose NUL stands behind the strings
    (&[(8, 368, 13)], "ape_pe_entry", NONE),
    // an undefined symbol before the defined one
    (&[(4, 144, 1), (8, 152, 7)], "ape_pe_entry", SOME),
    (&[(2, 174, 0)], "ape_pe_entry", NONE),
    // two defined symbols
    (
        &[(4, 144, 1), (2, 150, 1), (8, 152, 7)],
        "ape_pe_entry",
        (0, Some(7)),
    ),
    // a name at the end of another
    (&[(4, 168, 5)], "pe_entry", SOME),
    (&[(4, 168, 5)], "ape_pe_entry", NONE),
    // a name that stands twice
    (&[(8, 192, 0x006100610062), (4, 168, 4)], "a", SOME),
];

#[test]
fn names_have_the_values_of_their_symbols(rt: HostRuntime) {
    for (edits, name, found) in &CASES {
        let mut file = [0; 400];
        file[..120].copy_from_slice(&FRONT);
        edit(&rt, &mut file, NAMED);
        edit(&rt, &mut file, edits);
        assert!(rt; by_bytes(&file, name) == *found, "{name} at {edits:?}");
        assert!(rt; by_name(&file, name) == Ok(*found), "{name} at {edits:?}");
    }
}

#[test]
fn texts_stand_among_the_strings(rt: HostRuntime) {
    let mut files = SteadyFiles::of("in", b"ape_pe_entry\0");
    let t = Tables {
        at: 0,
        count: 0,
        strings: 0,
        length: 13,
    };
    for (text, stands) in [
        ("ape_", true),
        ("ape_i", false),
        ("entry\0", true),
        ("\0\0", false),
    ] {
        let found = stands_in_strings(&mut files, "in", &t, text.as_bytes());
        assert!(rt; found == Ok(stands), "{text:?}");
    }
}

#[test]
fn headers_are_read_and_written(rt: HostRuntime) {
    let mut front = FRONT;
    edit(
        &rt,
        &mut front,
        &[(8, 40, 208), (2, 62, 2), (8, 88, 0x401235), (8, 104, 32)],
    );
    let h = header(&front);
    assert!(rt; h.e_phnum == 1 && h.e_phoff == 64 && h.ident[4] == 2);
    assert!(rt; (h.e_type, h.e_machine, h.e_version, h.e_ehsize) == (2, 62, 1, 64));
    assert!(rt; (h.e_entry, h.e_shoff, h.e_phentsize) == (0x401000, 208, 56));
    assert!(rt; (h.e_shentsize, h.e_shnum, h.e_shstrndx) == (64, 0, 2));
    let load = Entry {
        kind: 1,
        flags: 5,
        offset: 4096,
        vaddr: 0x401000,
        paddr: 0x401235,
        filesz: 16,
        memsz: 32,
        align: 4096,
    };
    assert!(rt; entry(&front, &h, 0) == load);
    assert!(rt; entries(&front, 64, 1).as_slice() == [load].as_slice());
    assert!(rt; front.starts_with(&header_bytes(&h)));
    assert!(rt; front.ends_with(&entry_bytes(&load)));
    let mut files = SteadyFiles::of("in", &front);
    assert!(rt; header_in(&mut files, "in") == Ok(h));
}

fn by_bytes(file: &[u8; 400], name: &str) -> Found {
    let h = header(file);
    match symbols_part(file, &h) {
        0 => (0, symbol(file, &h, name.as_bytes())),
        part => (part, None),
    }
}

fn by_name(file: &[u8; 400], name: &str) -> Result<Found, Failed> {
    let mut files = SteadyFiles::of("in", file);
    match locate_in(&mut files, "in", 400, &header(file))? {
        Located::Part { part } => Ok((part, None)),
        Located::Missing => Ok(NONE),
        Located::At(t) => Ok((0, symbol_in(&mut files, "in", &t, name.as_bytes(), &[])?)),
    }
}
