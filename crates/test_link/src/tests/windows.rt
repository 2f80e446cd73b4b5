// A program for Windows that imports `ExitProcess` of KERNEL32.dll and number 115 of WS2_32.dll, linked from memory, and what
// its linked file imports.
ghost use Rattle.std.specs.Prelude.{◌≡◌, false};

use super::PLAIN;
use ap_check::{Options, Systems};
use ap_claims::Block;
use ap_image::{Import, Reading, Wanted};
use ap_link::link;
use ap_pemap::{PeReading, imports};
use std::process::Abort;
use std::test::Fail;

/// The length of the program.
const SIZE: usize = 0x23c0;

/// A number that is written into the program: its bytes, their place, and the number.
type Edit = (usize, usize, u64);

/// The header, the two program headers, and the import table, which stands at 0x1000 and at the address 0x403000.
const PROGRAM: [Edit; 25] = [
    (8, 24, 0x402000),
    (8, 40, 0x2300),
    (2, 56, 2),
    (2, 60, 3),
    (8, 72, 2048),
    (8, 80, 0x402000),
    (8, 120, 0x6_0000_0001),
    (8, 128, 0x1000),
    (8, 136, 0x403000),
    (8, 152, 0x1000),
    (8, 160, 0x1000),
    (4, 0x1000, 0x3040),
    (8, 0x100c, 0x3080_0000_30c0),
    (4, 0x1014, 0x3050),
    (8, 0x1020, 0x3090_0000_30d0),
    (8, 0x1040, 0x30a0),
    (8, 0x1050, 0x8000_0000_0000_0073),
    (8, 0x1080, 0x30a0),
    (8, 0x1090, 0x8000_0000_0000_0073),
    (4, 0x2344, 2),
    (8, 0x2358, 0x2000),
    (8, 0x2360, 168),
    (8, 0x2368, 2),
    (8, 0x2378, 24),
    (4, 0x2384, 3),
];

/// The symbols: the places of their names among the strings, and their values.
const SYMBOLS: [(u64, u64); 6] = [
    (1, 0x402008),
    (14, 0x400000),
    (29, 0x403000),
    (39, 0x40303c),
    (53, 0x403080),
    (61, 0x4030a0),
];

const NAMES: &[u8] =
    b"\0ape_pe_entry\0ape_image_base\0ape_idata\0ape_idata_end\0ape_iat\0ape_iat_end\0";

#[test]
fn imports_are_carried(rt: HostRuntime) -> Result<(), Fail> {
    let program = program(&rt);
    let linked = link(rt.alloc(), &program, None, &windows(), &mut Block::new());
    let Ok(file) = linked else {
        return Err("refused".into());
    };
    let Ok(plan) = PeReading.read(&file) else {
        return Err("no PE file".into());
    };
    let Ok(found) = imports(rt.alloc(), &file, &plan) else {
        return Err("no list".into());
    };
    let [first, second] = found.as_slice() else {
        return Err("not two".into());
    };
    assert!(rt; is_import(first, b"KERNEL32.dll", 0x403080));
    assert!(rt;
        matches!(&first.what, Wanted::Name { name } if name.as_slice() == b"ExitProcess".as_slice())
    );
    assert!(rt; is_import(second, b"WS2_32.dll", 0x403090));
    assert!(rt; matches!(&second.what, Wanted::Ordinal { number } if *number == 115));
    Ok(())
}

fn is_import(import: &Import, dll: &[u8], slot: u64) -> bool {
    import.dll.as_slice() == dll && import.slot == slot
}

fn program(rt: &impl Abort) -> [u8; SIZE] {
    let mut file = [0; SIZE];
    put(rt, &mut file, 0, &PLAIN[..128]);
    put(rt, &mut file, 0x10a2, b"ExitProcess");
    put(rt, &mut file, 0x10c0, b"KERNEL32.dll");
    put(rt, &mut file, 0x10d0, b"WS2_32.dll");
    put(rt, &mut file, 0x2200, NAMES);
    for edit in PROGRAM {
        write(rt, &mut file, edit);
    }
    write(rt, &mut file, (8, 0x2398, 0x2200));
    write(rt, &mut file, (8, 0x23a0, 73));
    let mut at = 0x2018;
    for (name, value) in SYMBOLS {
        assert!(rt; at <= 0x2200);
        write(rt, &mut file, (4, at, name));
        write(rt, &mut file, (2, at + 6, 0xfff1));
        write(rt, &mut file, (8, at + 8, value));
        at += 24;
    }
    file
}

fn write(rt: &impl Abort, file: &mut [u8], (width, at, number): Edit) {
    assert!(rt; width <= 8);
    put(rt, file, at, &number.to_le_bytes()[..width]);
}

fn put(rt: &impl Abort, file: &mut [u8], at: usize, bytes: &[u8]) {
    assert!(rt; at <= file.len() && bytes.len() <= file.len() - at);
    file[at..at + bytes.len()].copy_from_slice(bytes);
}

fn windows() -> Options
    ensures debug { result.debug ≡ false }
    ensures systems { result.systems.0 ≡ 8 }
{
    Options {
        systems: Systems::WINDOWS,
        debug: false,
    }
}
