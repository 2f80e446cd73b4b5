// What is taken of inputs and made of them, by public calls. The inputs that a rule refuses are rows of scripts/rows.txt.
ghost use Rattle.std.specs.Prelude.{◌≡◌, IfOk, false};
ghost use Rattle.ap_files.specs.Machine.{no_faults, untold_files};

mod blocks;
mod imports;
mod inputs;
mod mac;
mod positions;
mod shared;

use ap_check::{CheckEnd, Input, Options, Systems, check_input_in};
use ap_elf::Entry;
use ap_fields::{put16, put32, put64};
use ap_files::{Failed, Files};
use ap_layout::Twins;
use arrayvec::ArrayVec;
use std::process::Abort;

/// One load of 16 bytes, which stand at 128, behind the header and one program header.
const PLAIN: [u8; 144] = *b"\x7fELF\x02\x01\x01\0\0\0\0\0\0\0\0\0\
    \x02\0\x3e\0\x01\0\0\0\0\x10\x40\0\0\0\0\0\x40\0\0\0\0\0\0\0\0\0\0\0\0\0\0\0\
    \0\0\0\0\x40\0\x38\0\x01\0\x40\0\0\0\0\0\
    \x01\0\0\0\x05\0\0\0\x80\0\0\0\0\0\0\0\0\x10\x40\0\0\0\0\0\0\0\0\0\0\0\0\0\
    \x10\0\0\0\0\0\0\0\x10\0\0\0\0\0\0\0\0\x10\0\0\0\0\0\0\0\0\0\0\0\0\0\0\
    0123456789abcdef";

/// A number that is written into a file: its bytes, their place, and the number.
type Edit = (usize, usize, u64);

/// A program header: its type, flags, offset, address, size in the file, size in memory, and alignment.
type Row = (u32, u32, u64, u64, u64, u64, u64);

/// The load of PLAIN.
const LOAD: Row = (1, 5, 128, 0x401000, 16, 16, 4096);

/// A program: its size, its machine, where it starts, and its program headers.
type Program = (u64, u16, u64, &'static [Row]);

/// The program headers of a program as gcc and ld make it.
const USUAL_ROWS: &[Row] = &[
    (1, 4, 0, 0x400000, 0x528, 0x528, 4096),
    (1, 5, 0x1000, 0x401000, 0x7cba1, 0x7cba1, 4096),
    (1, 4, 0x7e000, 0x47e000, 0x26fd4, 0x26fd4, 4096),
    (1, 6, 0xa5f98, 0x4a6f98, 0x5a00, 0xb2c0, 4096),
    (4, 4, 0x270, 0x400270, 0x40, 0x40, 8),
    (4, 4, 0x2b0, 0x4002b0, 0x44, 0x44, 4),
    (7, 4, 0xa5f98, 0x4a6f98, 0x18, 0x58, 8),
    (0x6474e553, 4, 0x270, 0x400270, 0x40, 0x40, 8),
    (0x6474e551, 6, 0, 0, 0, 0x123456, 16),
    (0x6474e552, 4, 0xa5f98, 0x4a6f98, 0x4068, 0x4068, 1),
];

/// That program.
const USUAL: Program = (702872, 62, 0x401650, USUAL_ROWS);

/// A file of which only the first bytes aren't 0.
#[derive(Drop)]
struct Sparse {
    size: u64,
    front: [u8; 4096],
}

impl Files for Sparse {
    ghost state = { λ _. untold_files no_faults };

    fn size(&mut self, _name: &str) -> Result<u64, Failed> {
        Ok(self.size)
    }

    fn read_at(&mut self, _name: &str, at: u64, buf: &mut [u8]) -> Result<(), Failed> {
        if at <= 4096 {
            let part = &self.front[at as usize..];
            let count = part.len().min(buf.len());
            buf[..count].copy_from_slice(&part[..count]);
        }
        Ok(())
    }

    fn start(&mut self, _name: &str) -> Result<(), Failed> {
        Ok(())
    }

    fn add(&mut self, _name: &str, piece: &[u8]) -> Result<usize, Failed> {
        Ok(piece.len())
    }

    fn finish(&mut self, _name: &str) -> Result<(), Failed> {
        Ok(())
    }
}

/// What is taken of a program, by its name.
fn taken(rt: &impl Abort, program: Program, number: u8) -> Result<Input, CheckEnd>
    ensures { IfOk result (λ i. i.number ≡ number) }
{
    check_input_in(&mut file_of(rt, program), "a", number)
}

/// The file of a program.
fn file_of(rt: &impl Abort, program: Program) -> Sparse {
    let (size, machine, entry, rows) = program;
    Sparse {
        size,
        front: front(rt, machine, entry, rows),
    }
}

/// The front of a program with these program headers.
fn front(rt: &impl Abort, machine: u16, entry: u64, rows: &[Row]) -> [u8; 4096] {
    let mut b = [0; 4096];
    b[..64].copy_from_slice(&PLAIN[..64]);
    assert!(rt; rows.len() <= 64);
    put16(&mut b, 18, machine);
    put64(&mut b, 24, entry);
    put16(&mut b, 56, rows.len() as u16);
    let mut at = 64;
    for (kind, flags, offset, vaddr, filesz, memsz, align) in rows {
        assert!(rt; at <= 4040);
        put32(&mut b, at, *kind);
        put32(&mut b, at + 4, *flags);
        put64(&mut b, at + 8, *offset);
        put64(&mut b, at + 16, *vaddr);
        put64(&mut b, at + 32, *filesz);
        put64(&mut b, at + 40, *memsz);
        put64(&mut b, at + 48, *align);
        at += 56;
    }
    b
}

/// The entry of a row.
fn entry_of(row: Row) -> Entry {
    let (kind, flags, offset, vaddr, filesz, memsz, align) = row;
    Entry {
        kind,
        flags,
        offset,
        vaddr,
        paddr: 0,
        filesz,
        memsz,
        align,
    }
}

/// Loads of which none has the content of another.
fn apart() -> Twins {
    Twins {
        masks: ArrayVec::new(),
    }
}

fn linux() -> Options
    ensures debug { result.debug ≡ false }
    ensures systems { result.systems.0 ≡ 1 }
{
    Options {
        systems: Systems::LINUX,
        debug: false,
    }
}

/// PLAIN for AArch64, with its load and its entry at 0x404000.
fn other() -> [u8; 144] {
    let mut other = PLAIN;
    put16(&mut other, 18, 183);
    put64(&mut other, 24, 0x404000);
    put64(&mut other, 80, 0x404000);
    other
}
