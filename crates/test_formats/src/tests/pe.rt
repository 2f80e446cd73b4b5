// PE32+ files: what is refused of one that the linker writes, how it is mapped, and the headers that are written.
use super::{Edit, edit};
use ap_check::Load;
use ap_claims::Block;
use ap_files::SteadyFiles;
use ap_image::{Perms, Plan, Reading, Region};
use ap_layout::Area;
use ap_pe::{
    Directory, PeCause, PeFault, PeSection, Program, pe_headers, pe_reads_alike, read_pe, section,
    write_headers,
};
use ap_pemap::PeReading;
use bitflags::Flags;
use std::process::Abort;

/// The size of the file.
const SIZE: usize = 20480;

/// Its fields that aren't 0. It is for an x86-64 program of 16 bytes at 0x401000 that starts at 0x401008 on Windows, and has a
/// section for the gap before it.
const FIELDS: [Edit; 36] = [
    (8, 0, 0x273d_4470_4671_5a4d),
    (4, 60, 96),
    (4, 96, 0x4550),
    (2, 100, 0x8664),
    (2, 102, 2),
    (2, 116, 240),
    (2, 118, 0x23),
    (2, 120, 0x20b),
    (4, 124, 0x200),
    (4, 136, 0x11008),
    (4, 140, 0x11000),
    (8, 144, 0x3f_0000),
    (4, 152, 4096),
    (4, 156, 512),
    (2, 160, 6),
    (2, 168, 6),
    (4, 176, 0x12000),
    (4, 180, 8192),
    (2, 188, 3),
    (2, 190, 0x100),
    (8, 192, 0x80_0000),
    (8, 200, 0x1000),
    (8, 208, 0x10_0000),
    (8, 216, 0x1000),
    (4, 228, 16),
    (4, 360, 0x3130_672e),
    (4, 368, 0xf000),
    (4, 372, 0x2000),
    (4, 396, 0x4000_0080),
    (4, 400, 0x3230_612e),
    (4, 408, 16),
    (4, 412, 0x11000),
    (4, 416, 0x200),
    (4, 420, 0x4000),
    (4, 436, 0x6000_0060),
    (1, 0x4000, 0xcc),
];

/// Files that are refused: how many of the bytes they have, what is changed, and the cause, the item and the value.
const REFUSED: [(usize, Edit, PeCause, u16, u64); 24] = [
    (63, (1, 0, 0x4d), PeCause::Mz, 0, 63),
    (SIZE, (2, 0, 0x5a4e), PeCause::Mz, 0, 0x5a4e),
    (SIZE, (4, 60, 4294967295), PeCause::Signature, 0, 4294967295),
    (SIZE, (2, 100, 43620), PeCause::Machine, 0, 43620),
    (SIZE, (2, 102, 97), PeCause::Sections, 0, 97),
    (SIZE, (2, 116, 111), PeCause::OptionalSize, 0, 111),
    (SIZE, (2, 116, 65535), PeCause::OptionalSize, 0, 65535),
    (SIZE, (2, 120, 267), PeCause::OptionalMagic, 0, 267),
    (SIZE, (8, 144, 4128769), PeCause::Base, 0, 4128769),
    (SIZE, (4, 152, 2048), PeCause::Alignment, 0, 2048),
    (SIZE, (4, 156, 256), PeCause::Alignment, 0, 4096),
    (SIZE, (2, 116, 239), PeCause::Directories, 0, 16),
    (439, (1, 0, 0x4d), PeCause::SectionTable, 0, 360),
    (SIZE, (4, 180, 0), PeCause::HeadersSize, 0, 0),
    (SIZE, (4, 180, 20481), PeCause::HeadersSize, 0, 20481),
    (SIZE, (4, 368, 0), PeCause::Empty, 1, 0),
    (SIZE, (4, 372, 12288), PeCause::Adjacent, 1, 12288),
    (SIZE, (4, 420, 8193), PeCause::RawAlign, 2, 8193),
    (SIZE, (4, 420, 134217216), PeCause::RawRange, 2, 134217216),
    (SIZE, (4, 408, 4294963200), PeCause::SectionEnd, 2, 69632),
    (SIZE, (4, 176, 0), PeCause::ImageSize, 0, 0),
    (
        SIZE,
        (8, 144, 140737488289792),
        PeCause::Top,
        0,
        140737488289792,
    ),
    (SIZE, (4, 136, 73728), PeCause::Entry, 0, 73728),
    (439, (4, 180, 0), PeCause::SectionTable, 0, 360),
];

#[test]
fn refusals(rt: HostRuntime) {
    for (size, change, cause, item, value) in REFUSED {
        let file = image(&rt, &[change]);
        let fault = PeFault { cause, item, value };
        assert!(rt; PeReading.read(file.get(..size).unwrap_or(b"")).err() == Some(fault));
    }
}

#[test]
fn programs_for_windows_are_mapped(rt: HostRuntime) {
    let regions = [
        region(0x3f_0000, 0x2000, 0x2000, 0, 4),
        region(0x3f_2000, 0xf000, 0, 0, 4),
        region(0x40_1000, 0x1000, 0x200, 0x4000, 5),
    ];
    let file = image(&rt, &[]);
    assert!(rt; shows(PeReading.read(&file).ok(), &regions));
    assert!(rt; shows(PeReading.read(&image(&rt, &[(4, 228, 17)])).ok(), &regions));
    let mut files = SteadyFiles::of("program", &file);
    let read = PeReading.read_in(&mut files, "program", 20480).ok();
    assert!(rt; shows(read.and_then(|r| r.ok()), &regions));
    pe_reads_alike();
    // bytes of the file behind the size in memory
    let large = image(
        &rt,
        &[
            (4, 408, 0x1234),
            (4, 416, 0x1400),
            (4, 420, 0x2000),
            (4, 176, 0x13000),
        ],
    );
    let regions = [
        regions[0],
        regions[1],
        region(0x40_1000, 0x2000, 0x1400, 0x2000, 5),
    ];
    assert!(rt; shows(PeReading.read(&large).ok(), &regions));
}

#[test]
fn section_headers_are_read(rt: HostRuntime) {
    let file = image(&rt, &[]);
    let Ok(h) = read_pe(&file) else {
        return rt.abort();
    };
    assert!(rt; h.base == 0x3f_0000 && h.entry == 0x11008 && h.count == 2 && h.optional == 240);
    let second = PeSection {
        vsize: 16,
        vaddr: 0x11000,
        raw: 0x200,
        at: 0x4000,
        flags: 0x6000_0060,
    };
    assert!(rt; h.count < 2 || section(&file, &h, 1) == second);
}

#[test]
fn headers_are_written(rt: HostRuntime) {
    let file = image(&rt, &[]);
    let program = Program {
        base: 0x3f_0000,
        entry: 0x40_1008,
        stack: 0,
        imports: Directory { rva: 0, length: 0 },
        slots: Directory { rva: 0, length: 0 },
    };
    let loads = [Load {
        offset: 128,
        vaddr: 0x40_1000,
        filesz: 16,
        memsz: 16,
        perms: Perms::from_bits_retain(5),
    }];
    let areas = [Area {
        file: 0x4000,
        len: 0x1000,
    }];
    assert!(rt; pe_headers(&program, &loads, &areas).as_slice() == &file[96..440]);
    let mut block = Block::new();
    assert!(rt; write_headers(&mut block, &program, &loads, &areas).is_ok());
    assert!(rt; block.bytes().get(60..440) == file.get(60..440));
}

/// Whether a plan has these regions, and the program's entry.
fn shows(plan: Option<Plan>, regions: &[Region]) -> bool {
    plan.is_some_and(|p| p.entry == 0x40_1008 && p.regions.as_slice() == regions)
}

fn region(start: u64, span: u64, backed: u64, at: u64, perms: u8) -> Region {
    Region {
        start,
        span,
        backed,
        at,
        perms: Perms::from_bits_retain(perms),
    }
}

/// The file with some edits.
fn image(rt: &impl Abort, edits: &[Edit]) -> [u8; SIZE] {
    let mut file = [0; SIZE];
    edit(rt, &mut file, &FIELDS);
    edit(rt, &mut file, edits);
    file
}
