// Programs for two machines whose loads have the same content, linked: which areas are shared, and where the loads of the second
// program stand.
ghost use Rattle.std.specs.Prelude.{◌≡◌, ◌≤◌};

use super::{PLAIN, link, linux};
use ap_claims::Block;
use ap_fields::{le64, put16, put32, put64};
use ap_files::MemoryFiles;
use ap_link::{LinkEnd, link as link_bytes};
use std::alloc::{AllocError, Global};
use std::test::Fail;

/// A load: its place in the file, its address, and its size in the file and in memory.
type Load = (u64, u64, u64);

/// A program: its machine, its loads, at the first of which it starts, and edits of its bytes: their place, their number, and
/// the byte.
type Program = (u16, &'static [Load], &'static [(usize, usize, u8)]);

/// Two programs, the size of what they become, and where the loads of the second stand in it.
type Case = (Program, Program, u64, &'static [u64]);

const A64: u16 = 183;

const X64: u16 = 62;

/// One granule of AArch64, a tenth of a page, and two and a half pieces of a comparison.
const WHOLE: &[Load] = &[(4096, 0x400000, 16384)];

const PART: &[Load] = &[(4096, 0x400000, 100)];

const LONG: &[Load] = &[(4096, 0x400000, 81920)];

static CASES: [Case; 15] = [
    ((A64, WHOLE, &[]), (X64, WHOLE, &[]), 32768, &[16384]),
    ((X64, WHOLE, &[]), (A64, WHOLE, &[]), 32768, &[16384]),
    // they begin alike, and have other lengths
    ((A64, PART, &[]), (X64, PART, &[]), 36864, &[32768]),
    // all bytes are the same, or all but one: the last, the first, and those where two pieces meet
    ((A64, LONG, &[]), (X64, LONG, &[]), 98304, &[16384]),
    (
        (A64, LONG, &[]),
        (X64, LONG, &[(86015, 1, 9)]),
        180224,
        &[98304],
    ),
    (
        (A64, LONG, &[]),
        (X64, LONG, &[(4096, 1, 9)]),
        180224,
        &[98304],
    ),
    (
        (A64, LONG, &[]),
        (X64, LONG, &[(36863, 1, 9)]),
        180224,
        &[98304],
    ),
    (
        (A64, LONG, &[]),
        (X64, LONG, &[(36864, 1, 9)]),
        180224,
        &[98304],
    ),
    // all but the zeros before the first byte of one
    (
        (A64, WHOLE, &[]),
        (X64, &[(4112, 0x400010, 16368)], &[]),
        49152,
        &[32784],
    ),
    // those zeros are bytes of the other
    (
        (A64, WHOLE, &[(4096, 16, 0)]),
        (X64, &[(4112, 0x400010, 16368)], &[]),
        32768,
        &[16400],
    ),
    // so are those behind the last byte
    (
        (A64, WHOLE, &[(20380, 100, 0)]),
        (X64, &[(4096, 0x400000, 16284)], &[]),
        32768,
        &[16384],
    ),
    // other places and addresses, and two loads with one area
    (
        (A64, WHOLE, &[]),
        (X64, &[(8192, 0x7f3000, 16384)], &[]),
        32768,
        &[16384],
    ),
    (
        (A64, WHOLE, &[]),
        (
            X64,
            &[(4096, 0x7f3000, 16384), (8192, 0x900000, 16384)],
            &[],
        ),
        32768,
        &[16384, 16384],
    ),
    // the first of two areas with the same content, and an area that isn't on the other granule
    (
        (
            A64,
            &[(4096, 0x400000, 16384), (4096, 0x408000, 16384)],
            &[],
        ),
        (X64, WHOLE, &[]),
        49152,
        &[16384],
    ),
    (
        (X64, &[(4096, 0x400000, 16), (4096, 0x401000, 16384)], &[]),
        (A64, WHOLE, &[]),
        65536,
        &[49152],
    ),
];

#[test]
fn programs_share_what_is_the_same(rt: HostRuntime) -> Result<(), Fail> {
    for (number, (first, second, size, places)) in CASES.iter().enumerate() {
        let one = made(rt.alloc(), first)?;
        let other = made(rt.alloc(), second)?;
        let file = linked(rt.alloc(), &one, &other)?;
        assert!(rt; file.len() as u64 == *size, "case {number}");
        let table = 96 + 56 * first.1.len().min(24);
        assert!(rt; are_at(&file, table, places), "case {number}");
        assert!(rt;
            is_same_by_files(rt.alloc(), &one, &other, &file)?,
            "case {number}"
        );
    }
    Ok(())
}

#[test]
fn all_areas_are_shared(rt: HostRuntime) -> Result<(), Fail> {
    let one = stairs(rt.alloc(), A64, false)?;
    let other = stairs(rt.alloc(), X64, true)?;
    let file = linked(rt.alloc(), &one, &other)?;
    assert!(rt; file.len() == 409600);
    for i in 0..24 {
        let place = 16384 * (24 - i as u64);
        assert!(rt; are_at(&file, 96 + 24 * 56 + 56 * i, &[place]), "load {i}");
    }
    assert!(rt; is_same_by_files(rt.alloc(), &one, &other, &file)?);
    Ok(())
}

#[test]
fn a_call_that_fails_while_comparing_leaves_a_front(rt: HostRuntime) -> Result<(), Fail> {
    let one = made(rt.alloc(), &(A64, LONG, &[]))?;
    let other = made(rt.alloc(), &(X64, LONG, &[]))?;
    let whole = linked(rt.alloc(), &one, &other)?;
    let mut before = false;
    let mut behind = false;
    for fails in 1..40 {
        let mut files = files_of(rt.alloc(), &[fails], &one, &other)?;
        let end = link(&mut files, "a", Some("b"));
        match files.bytes("out") {
            None => {
                before = true;
                assert!(rt;
                    end == Err(LinkEnd::ReadFault) || end == Err(LinkEnd::WriteFault),
                    "{fails}"
                );
            }
            Some(out) => {
                behind = true;
                assert!(rt; whole.starts_with(out), "{fails}");
            }
        }
    }
    assert!(rt; before && behind);
    Ok(())
}

/// What two programs become.
fn linked(alloc: Global, first: &[u8], second: &[u8]) -> Result<Vec<u8>, Fail> {
    let Ok(file) = link_bytes(alloc, first, Some(second), &linux(), &mut Block::new()) else {
        return Err("refused".into());
    };
    Ok(file)
}

/// Whether two programs become this file when they are linked from files.
fn is_same_by_files(alloc: Global, first: &[u8], second: &[u8], file: &[u8]) -> Result<bool, Fail> {
    let mut files = files_of(alloc, &[], first, second)?;
    let end = link(&mut files, "a", Some("b"));
    Ok(end == Ok(file.len() as u64) && files.bytes("out") == Some(file))
}

/// Two programs, and room for what they become. These calls fail.
fn files_of(
    alloc: Global,
    fails: &[u64],
    first: &[u8],
    second: &[u8],
) -> Result<MemoryFiles, Fail> {
    let mut files = MemoryFiles::new(alloc, fails)?;
    files.put("a", first)?;
    files.put("b", second)?;
    files.reserve("out", 500_000)?;
    Ok(files)
}

/// Whether the program headers at a place are of loads that stand at these places.
fn are_at(file: &[u8], table: usize, places: &[u64]) -> bool {
    let mut at = table;
    for place in places {
        if at > 8192 || file.len() < 16384 || le64(file, at + 8) != *place {
            return false;
        }
        at += 56;
    }
    true
}

/// A program whose bytes behind the first 4096 are 0x55 but for its edits.
fn made(alloc: Global, (machine, loads, edits): &Program) -> Result<Vec<u8>, AllocError> {
    let mut file = Vec::new(alloc);
    file.extend_from_slice(&front(*machine, loads))?;
    file.resize(90112, 0x55)?;
    for (at, count, byte) in *edits {
        fill(&mut file, *at, *count, *byte);
    }
    Ok(file)
}

/// Writes a byte so many times, where there is room.
fn fill(file: &mut [u8], at: usize, count: usize, byte: u8) {
    if at <= file.len() && count <= file.len() - at {
        file[at..at + count].fill(byte);
    }
}

/// A program of 24 loads of 16384 bytes, of which no two begin alike, and in the opposite order.
fn stairs(alloc: Global, machine: u16, back: bool) -> Result<Vec<u8>, AllocError> {
    let mut loads = Vec::new(alloc);
    for i in 0..24u64 {
        let step = if back { 23 - i } else { i };
        loads.push((4096 + 64 * step, 0x400000 + 16384 * i, 16384))?;
    }
    let mut file = Vec::new(alloc);
    file.extend_from_slice(&front(machine, &loads))?;
    for step in 0..280usize {
        file.resize(4160 + 64 * step, (step % 256) as u8)?;
    }
    Ok(file)
}

/// The first bytes of a program with these loads, at most 24.
fn front(machine: u16, loads: &[Load]) -> [u8; 4096] {
    let mut b = [0; 4096];
    b[..64].copy_from_slice(&PLAIN[..64]);
    put16(&mut b, 18, machine);
    put16(&mut b, 56, loads.len().min(24) as u16);
    if let Some((_, entry, _)) = loads.first() {
        put64(&mut b, 24, *entry);
    }
    put_loads(&mut b, loads);
    b
}

/// Writes the program headers of loads behind the header.
fn put_loads(b: &mut [u8; 4096], loads: &[Load]) {
    let mut at = 64usize;
    for load in loads {
        if at > 4000 {
            return;
        }
        put_load(b, at, load);
        at += 56;
    }
}

/// Writes the program header of a load.
fn put_load(b: &mut [u8; 4096], at: usize, load: &Load)
    requires { at ≤ 4000 }
{
    let (offset, address, size) = load;
    put32(b, at, 1);
    put32(b, at + 4, 5);
    put64(b, at + 8, *offset);
    put64(b, at + 16, *address);
    put64(b, at + 32, *size);
    put64(b, at + 40, *size);
    put64(b, at + 48, 4096);
}
