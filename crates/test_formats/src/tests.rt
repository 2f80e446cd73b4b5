// What the crates of formats do, by their public calls. The files that a reading refuses, and the lines that say so, are
// rows of scripts/rows.txt.
mod claims;
mod disk;
mod elf;
mod fields;
mod imports;
mod mach;
mod memory;
mod octal;
mod pe;
mod pieces;
mod plans;
mod readings;
mod streams;

use std::process::Abort;

/// A number that is written into a file: its bytes, their place, and the number.
type Edit = (usize, usize, u64);

/// The header and the program header of an x86-64 program. Its load is the 16 bytes from 4096 on, at 0x401000.
const FRONT: [u8; 120] = *b"\x7fELF\x02\x01\x01\0\0\0\0\0\0\0\0\0\
    \x02\0\x3e\0\x01\0\0\0\0\x10\x40\0\0\0\0\0\x40\0\0\0\0\0\0\0\0\0\0\0\0\0\0\0\
    \0\0\0\0\x40\0\x38\0\x01\0\x40\0\0\0\0\0\
    \x01\0\0\0\x05\0\0\0\0\x10\0\0\0\0\0\0\0\x10\x40\0\0\0\0\0\0\0\0\0\0\0\0\0\
    \x10\0\0\0\0\0\0\0\x10\0\0\0\0\0\0\0\0\x10\0\0\0\0\0\0";

fn edit(rt: &impl Abort, file: &mut [u8], edits: &[Edit]) {
    for (width, at, number) in edits {
        assert!(rt; *width <= 8 && *at < file.len() && *width <= file.len() - *at);
        file[*at..*at + *width].copy_from_slice(&number.to_le_bytes()[..*width]);
    }
}
