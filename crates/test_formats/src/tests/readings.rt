// The readings of ELF files and of APE files, each call once: of bytes, of a file by its name, and through the trait.
ghost use Rattle.std.specs.Prelude.{◌≡◌, ℕ, List, length};
ghost use Rattle.ap_elf.specs.declared.machine.Machine.{Machine};
ghost use Rattle.ap_elf.specs.Machines.{IsPage, number_of};
ghost use Rattle.ap_elf.specs.ElfReading.{elf_reading};
ghost use Rattle.ap_image.specs.Reading.{AgreeAt, AgreeOnPlan};
ghost use Rattle.ap_elfmap.specs.ElfPlans.{Looks, elf_plan};

use super::{Edit, FRONT, edit};
use ap_elf::Machine;
use ap_elfmap::{ElfCause, ElfFault, ElfReading, read_with, read_with_in};
use ap_files::SteadyFiles;
use ap_image::{Perms, Plan, Reading, Region, cell, reads_alike};
use ap_loader::{ApeFault, ApeReading, embedded};
use bitflags::Flags;
use std::process::Abort;

/// The size of the program.
const SIZE: usize = 4112;

/// The text of a header for x86-64 whose program header table stands at 2560, with as few digits as there can be.
const SHORT_TEXT: &[u8] =
    b"\\177ELF\\2\\1\\1\\11\\0\\0\\0\\0\\0\\0\\0\\0\\2\\0>\\0\\1\\0\\0\\0\\0\\20@\\0\\0\\0\\0\\0\\0\\12\\0\
    \\0\\0\\0\\0\\0\\0\\0\\0\\0\\0\\0\\0\\0\\0\\0\\0\\0@\\08\\0\\1\\0\\0\\0\\0\\0\\0\\0";

/// The header.
const HEADER: [u8; 64] = *b"\x7f\x45\x4c\x46\x02\x01\x01\x09\0\0\0\0\0\0\0\0\x02\0\x3e\0\x01\0\0\0\
    \0\x10\x40\0\0\0\0\0\0\x0a\0\0\0\0\0\0\0\0\0\0\0\0\0\0\
    \0\0\0\0\x40\0\x38\0\x01\0\0\0\0\0\0\0";

/// The text of a header for AArch64.
const OTHER_TEXT: &[u8] =
    b"\\177ELF\\002\\001\\001\\011\\000\\000\\000\\000\\000\\000\\000\\000\\002\\000\\267\\000\\001\\000\
    \\000\\000\\000\\000\\100\\000\\000\\000\\000\\000\\000\\012\\000\\000\\000\\000\\000\\000\\000\\000\
    \\000\\000\\000\\000\\000\\000\\000\\000\\000\\000\\100\\000\\070\\000\\001\\000\\000\\000\\000\\000\
    \\000\\000";

/// The region of the program's load.
fn loaded() -> Region {
    Region {
        start: 0x401000,
        span: 0x1000,
        backed: 16,
        at: 0x1000,
        perms: Perms::from_bits_retain(5),
    }
}

#[test]
fn programs_are_read(rt: HostRuntime) {
    let file = program(&rt, &[(1, 4096, 7)]);
    let reading = ElfReading {
        machine: Machine::X64,
        page: 4096,
    };
    assert!(rt; shows(reading.read(&file).ok(), loaded()));
    let mut files = SteadyFiles::of("program", &file);
    let read = reading.read_in(&mut files, "program", 4112).ok();
    assert!(rt; shows(read.and_then(|r| r.ok()), loaded()));
    let range = ElfFault {
        cause: ElfCause::Range,
        item: 1,
        value: 4096,
    };
    assert!(rt; reading.read(file.get(..4111).unwrap_or(b"")).err() == Some(range));
    alike();
    assert!(rt; cell_read(&reading, &file, 0x401000) == Some((7, Perms::from_bits_retain(5))));
    assert!(rt; cell_read(&reading, &file, 0x402000).is_none());
}

#[test]
fn pages_of_aarch64_may_be_larger(rt: HostRuntime) {
    let file = program(
        &rt,
        &[
            (2, 18, 183),
            (8, 24, 0x404000),
            (8, 72, 0),
            (8, 80, 0x404000),
        ],
    );
    let reading = ElfReading {
        machine: Machine::A64,
        page: 16384,
    };
    let region = Region {
        start: 0x404000,
        span: 16384,
        backed: 4112,
        at: 0,
        ..loaded()
    };
    assert!(rt; shows(reading.read(&file).ok(), region));
}

// The table begins at 56, so that the type and the flags of its entry are fields of the header.
#[test]
fn a_header_from_elsewhere_brings_its_part_of_the_table(rt: HostRuntime) {
    let mut header = HEADER;
    edit(
        &rt,
        &mut header,
        &[(8, 32, 56), (8, 56, 0x0000_0006_0000_0001)],
    );
    let file = program(
        &rt,
        &[
            (8, 0, 0x2323232323232323),
            (8, 64, 0),
            (8, 72, 0x401000),
            (8, 80, 0),
            (8, 88, 16),
            (8, 96, 16),
        ],
    );
    let data = Some((b'#', Perms::from_bits_retain(6)));
    let plan = read_with(Machine::X64, 4096, &header, &file).ok();
    assert!(rt; plan.and_then(|p| cell(&p, &file, 0x401000)) == data);
    let mut files = SteadyFiles::of("program", &file);
    let read = read_with_in(Machine::X64, 4096, &header, &mut files, "program", 4112);
    let plan = read.ok().and_then(|r| r.ok());
    assert!(rt; plan.and_then(|p| cell(&p, &file, 0x401000)) == data);
    let short = ElfFault {
        cause: ElfCause::Short,
        item: 0,
        value: 1,
    };
    assert!(rt; read_with(Machine::X64, 4096, &header, b"#").err() == Some(short));
}

#[test]
fn foreign_files_are_read(rt: HostRuntime) {
    let file = foreign(&rt);
    let other = embedded(&file, Machine::A64).map(|found| found.0);
    assert!(rt; other == Some(9));
    assert!(rt; embedded(&file, Machine::X64) == Some((17 + OTHER_TEXT.len() + 6, HEADER)));
    let reading = ApeReading {
        machine: Machine::X64,
        page: 4096,
    };
    assert!(rt; shows(reading.read(&file).ok(), loaded()));
    let mut files = SteadyFiles::of("foreign", &file);
    let read = reading.read_in(&mut files, "foreign", 4112).ok();
    assert!(rt; shows(read.and_then(|r| r.ok()), loaded()));
    assert!(rt; reading.read(b"").err() == Some(ApeFault::NoMagic));
    assert!(rt; reading.read(file.get(..30).unwrap_or(b"")).err() == Some(ApeFault::NoStatement));
}

/// Files of equal length that agree on the first's header and table, and on what its plan shows, are read alike.
fn alike()
    ensures { (m : Machine) (page : ℕ) (f g : List ℕ) → IsPage m page → length f ≡ length g → AgreeAt (Looks f) f g → AgreeOnPlan (elf_plan (number_of m) page f) f g → elf_reading (number_of m) page f ≡ elf_reading (number_of m) page g }
{
    reads_alike::<ElfReading>()
}

/// Whether a plan has this one region, and begins at its start.
fn shows(plan: Option<Plan>, region: Region) -> bool {
    plan.is_some_and(|p| p.entry == region.start && p.regions.as_slice() == [region].as_slice())
}

/// The cell of a file at an address by a reading, if it has one.
fn cell_read<R: Reading>(reading: &R, file: &[u8], a: u64) -> Option<(u8, Perms)>
where
    R::Fault: Drop,
    requires { R.is_well_formed reading.now }
{
    let plan = reading.read(file).ok()?;
    cell(&plan, file, a)
}

/// The program with some edits.
fn program(rt: &impl Abort, edits: &[Edit]) -> [u8; SIZE] {
    let mut file = [0; SIZE];
    file[..120].copy_from_slice(&FRONT);
    edit(rt, &mut file, edits);
    file
}

/// A file with a statement for AArch64 at 9 and one for x86-64 behind it, and the program's table at 2560.
fn foreign(rt: &impl Abort) -> [u8; SIZE] {
    let mut file = [0; SIZE];
    let mut at = 0;
    for part in [
        b"APEDBG='\nprintf '".as_slice(),
        OTHER_TEXT,
        b"' >&7\nprintf '",
        SHORT_TEXT,
        b"' >&7\n",
    ] {
        assert!(rt; at <= SIZE && part.len() <= SIZE - at);
        file[at..at + part.len()].copy_from_slice(part);
        at += part.len();
    }
    file[2560..2616].copy_from_slice(&FRONT[64..]);
    file
}
