// Mach-O programs: what is refused of one that the linker writes, how it is mapped, and the headers that are written.
use super::{Edit, edit};
use ap_check::Load;
use ap_claims::Block;
use ap_files::SteadyFiles;
use ap_image::{Perms, Plan, Reading, Region};
use ap_layout::Area;
use ap_mach::{
    Command, MachCause, MachFault, command, mach_headers, mach_reads_alike, write_headers,
};
use ap_machmap::MachReading;
use bitflags::Flags;
use std::process::Abort;

/// The size of the file.
const SIZE: usize = 20480;

/// Its fields that aren't 0. It is for an x86-64 program of 16 bytes at 0x401000, where it starts. Its commands stand at 32, 104
/// and 176, and end at 360.
const FIELDS: [Edit; 26] = [
    (4, 0, 0xfeed_facf),
    (4, 4, 0x0100_0007),
    (4, 8, 3),
    (4, 12, 2),
    (4, 16, 3),
    (4, 20, 328),
    (4, 24, 1),
    (4, 32, 0x19),
    (4, 36, 72),
    (8, 40, 0x4f52_455a_5f5f),
    (8, 64, 0x40_1000),
    (4, 104, 0x19),
    (4, 108, 72),
    (8, 112, 0x31_3045_5041_5f5f),
    (8, 128, 0x40_1000),
    (8, 136, 0x1000),
    (8, 144, 0x4000),
    (8, 152, 0x1000),
    (4, 160, 7),
    (4, 164, 5),
    (4, 176, 5),
    (4, 180, 184),
    (4, 184, 4),
    (4, 188, 42),
    (8, 320, 0x40_1000),
    (8, 0x4000, 0xcccc_cccc_cccc_cccc),
];

/// Nothing is changed.
const NONE: Edit = (1, 0x4000, 0xcc);

/// Files that are refused: how many of the bytes they have, what is changed, and the cause, the item and the value.
const REFUSED: [(usize, Edit, Edit, MachCause, u16, u64); 34] = [
    (0, NONE, NONE, MachCause::Short, 0, 0),
    (31, NONE, NONE, MachCause::Short, 0, 31),
    (32, NONE, NONE, MachCause::CommandRange, 0, 328),
    (359, NONE, NONE, MachCause::CommandRange, 0, 328),
    (SIZE, (1, 0, 0xce), NONE, MachCause::Magic, 0, 0xfeed_face),
    (SIZE, (4, 4, 16777228), NONE, MachCause::Cpu, 0, 16777228),
    (SIZE, (4, 12, 6), NONE, MachCause::FileType, 0, 6),
    (SIZE, (4, 16, 1025), NONE, MachCause::Count, 0, 1025),
    (SIZE, (4, 16, 1024), NONE, MachCause::CommandSize, 4, 360),
    (SIZE, (4, 16, 4), NONE, MachCause::CommandSize, 4, 360),
    (
        SIZE,
        (4, 20, 4294967295),
        NONE,
        MachCause::CommandRange,
        0,
        4294967295,
    ),
    (SIZE, (4, 20, 327), NONE, MachCause::CommandSize, 3, 176),
    (SIZE, (4, 36, 71), NONE, MachCause::CommandSize, 1, 32),
    (SIZE, (4, 36, 0), NONE, MachCause::CommandSize, 1, 32),
    (SIZE, (4, 36, 336), NONE, MachCause::CommandSize, 1, 32),
    (SIZE, (4, 36, 64), NONE, MachCause::SegmentSize, 1, 64),
    (SIZE, (4, 32, 14), NONE, MachCause::Dynamic, 1, 14),
    (
        SIZE,
        (4, 104, 0x8000_0028),
        NONE,
        MachCause::Dynamic,
        2,
        0x8000_0028,
    ),
    (
        SIZE,
        (8, 128, 4198401),
        NONE,
        MachCause::Aligned,
        2,
        4198401,
    ),
    (SIZE, (8, 144, 1), NONE, MachCause::Aligned, 2, 4198400),
    (SIZE, (8, 136, 4097), NONE, MachCause::Aligned, 2, 4198400),
    // a segment that maps nothing is asked too
    (SIZE, (8, 64, 1), NONE, MachCause::Aligned, 1, 0),
    (SIZE, (8, 152, 8192), NONE, MachCause::Sizes, 2, 8192),
    (
        SIZE,
        (8, 144, 268435456),
        NONE,
        MachCause::Range,
        2,
        268435456,
    ),
    (
        SIZE,
        (8, 72, 268435456),
        NONE,
        MachCause::Range,
        1,
        268435456,
    ),
    (20479, NONE, NONE, MachCause::Range, 2, 16384),
    (
        SIZE,
        (8, 128, 140737488355328),
        NONE,
        MachCause::Top,
        2,
        140737488355328,
    ),
    (
        SIZE,
        (8, 64, 0xffff_ffff_ffff_f000),
        NONE,
        MachCause::Top,
        1,
        0,
    ),
    (
        SIZE,
        (4, 92, 1),
        (8, 128, 4194304),
        MachCause::Order,
        2,
        4194304,
    ),
    (SIZE, (4, 184, 5), NONE, MachCause::Thread, 3, 184),
    (SIZE, (4, 188, 41), NONE, MachCause::Thread, 3, 184),
    (SIZE, (4, 180, 176), (4, 20, 320), MachCause::Thread, 3, 176),
    (SIZE, (4, 176, 27), NONE, MachCause::NoThread, 0, 0),
    (SIZE, (4, 16, 0), NONE, MachCause::NoThread, 0, 0),
];

#[test]
fn refusals(rt: HostRuntime) {
    for (size, first, second, cause, item, value) in REFUSED {
        let file = image(&rt, &[first, second]);
        let fault = MachFault { cause, item, value };
        assert!(rt; MachReading.read(file.get(..size).unwrap_or(b"")).err() == Some(fault));
    }
}

/// Bits of `initprot`, with the permissions that they give.
const PROTECTIONS: [(u64, u8); 8] = [
    (1, 4),
    (2, 2),
    (3, 6),
    (4, 1),
    (5, 5),
    (6, 3),
    (7, 7),
    (0xfffffff9, 4),
];

#[test]
fn programs_are_mapped(rt: HostRuntime) {
    let file = image(&rt, &[]);
    let load = region(0x40_1000, 0x1000, 0x1000, 0x4000, 5);
    assert!(rt; shows(MachReading.read(&file).ok(), &[load]));
    let mut files = SteadyFiles::of("program", &file);
    let read = MachReading.read_in(&mut files, "program", 20480).ok();
    assert!(rt; shows(read.and_then(|r| r.ok()), &[load]));
    mach_reads_alike();
    // the header and the commands are the whole file
    let bare = image(&rt, &[(8, 144, 0), (8, 152, 0)]);
    let zeros = region(0x40_1000, 0x1000, 0, 0, 5);
    assert!(rt;
        shows(
            MachReading.read(bare.get(..360).unwrap_or(b"")).ok(),
            &[zeros]
        )
    );
    for (bits, perms) in PROTECTIONS {
        let file = image(&rt, &[(4, 164, bits)]);
        let load = region(0x40_1000, 0x1000, 0x1000, 0x4000, perms);
        assert!(rt; shows(MachReading.read(&file).ok(), &[load]));
    }
    // a segment without permissions maps nothing, nor does one without addresses
    assert!(rt; shows(MachReading.read(&image(&rt, &[(4, 164, 8)])).ok(), &[]));
    assert!(rt;
        shows(
            MachReading
                .read(&image(&rt, &[(8, 136, 0), (8, 152, 0)]))
                .ok(),
            &[]
        )
    );
    // one that begins where the one before it ends
    let low = region(0, 0x40_1000, 0, 0, 4);
    assert!(rt;
        shows(
            MachReading.read(&image(&rt, &[(4, 92, 1)])).ok(),
            &[low, load]
        )
    );
}

#[test]
fn second_threads_are_refused(rt: HostRuntime) {
    let mut file = image(&rt, &[(4, 16, 4), (4, 20, 512)]);
    thread(&rt, &mut file, 360);
    let fault = MachFault {
        cause: MachCause::Thread,
        item: 4,
        value: 184,
    };
    assert!(rt; MachReading.read(&file).err() == Some(fault));
}

#[test]
fn many_commands_are_read(rt: HostRuntime) {
    // 1023 commands of 8 bytes that are passed over, and a thread command
    let mut file = [0; 8400];
    start(&rt, &mut file, 1024, 8368);
    for k in 0..1023 {
        edit(&rt, &mut file, &[(4, 32 + 8 * k, 0x2a), (4, 36 + 8 * k, 8)]);
    }
    thread(&rt, &mut file, 8216);
    assert!(rt; shows(MachReading.read(&file).ok(), &[]));
    // a dynamic linker's name in command 8, and the place of its start in command 12
    for (k, kind) in [(8, 14), (12, 2147483688)] {
        let mut other = file;
        edit(&rt, &mut other, &[(4, 24 + 8 * k, kind)]);
        let fault = MachFault {
            cause: MachCause::Dynamic,
            item: k as u16,
            value: kind,
        };
        assert!(rt; MachReading.read(&other).err() == Some(fault));
    }
}

#[test]
fn segments_are_counted(rt: HostRuntime) {
    for (count, taken) in [(97, true), (98, false)] {
        let mut file = [0; 8400];
        start(&rt, &mut file, count + 1, 72 * count + 184);
        for k in 0..count as usize {
            let at = 32 + 72 * k;
            edit(
                &rt,
                &mut file,
                &[
                    (4, at, 0x19),
                    (4, at + 4, 72),
                    (8, at + 24, 4096 * k as u64),
                    (8, at + 32, 4096),
                    (4, at + 60, 1),
                ],
            );
        }
        thread(&rt, &mut file, 32 + 72 * count as usize);
        let many = MachFault {
            cause: MachCause::Many,
            item: 98,
            value: 97,
        };
        match MachReading.read(&file) {
            Ok(plan) => assert!(rt; taken && plan.regions.len() == 97),
            Err(fault) => assert!(rt; !taken && fault == many),
        }
    }
}

#[test]
fn commands_are_read(rt: HostRuntime) {
    let file = image(&rt, &[]);
    let second = Command {
        kind: 0x19,
        at: 104,
        size: 72,
    };
    assert!(rt; command(&file, 104, 360) == Some(second));
    assert!(rt; command(&file, 104, 176) == Some(second));
    assert!(rt; command(&file, 104, 175).is_none());
    assert!(rt; command(&file, 104, 111).is_none());
    assert!(rt; command(&file, 360, 360).is_none());
    assert!(rt; command(&image(&rt, &[(4, 108, 4)]), 104, 360).is_none());
    assert!(rt; command(&image(&rt, &[(4, 108, 76)]), 104, 360).is_none());
}

#[test]
fn headers_are_written(rt: HostRuntime) {
    let file = image(&rt, &[]);
    let loads = [Load {
        offset: 4096,
        vaddr: 0x40_1000,
        filesz: 16,
        memsz: 16,
        perms: Perms::from_bits_retain(5),
    }];
    let areas = [Area {
        file: 0x4000,
        len: 0x1000,
    }];
    let headers = mach_headers(0x40_1000, &loads, &areas);
    assert!(rt; Some(headers.as_slice()) == file.get(..360));
    let mut block = Block::new();
    assert!(rt; write_headers(&mut block, 8192, 0x40_1000, &loads, &areas).is_ok());
    assert!(rt; block.bytes().get(8192..8552) == file.get(..360));
}

/// The header of a program with so many commands, of so many bytes.
fn start(rt: &impl Abort, file: &mut [u8], count: u64, size: u64) {
    edit(
        rt,
        file,
        &[
            (4, 0, 0xfeed_facf),
            (4, 4, 0x0100_0007),
            (4, 12, 2),
            (4, 16, count),
            (4, 20, size),
        ],
    );
}

/// A thread command at a place, which starts the program at 0x401000.
fn thread(rt: &impl Abort, file: &mut [u8], at: usize) {
    assert!(rt; at <= file.len());
    edit(
        rt,
        file,
        &[
            (4, at, 5),
            (4, at + 4, 184),
            (4, at + 8, 4),
            (4, at + 12, 42),
            (8, at + 144, 0x40_1000),
        ],
    );
}

/// Whether a plan has these regions, and the program's entry.
fn shows(plan: Option<Plan>, regions: &[Region]) -> bool {
    plan.is_some_and(|p| p.entry == 0x40_1000 && p.regions.as_slice() == regions)
}

fn region(start: u64, span: u64, backed: u64, at: u64, perms: u8) -> Region {
    Region {
        start,
        span,
        backed,
        at,
        perms: Perms::from_bits_retain(perms),
    }
}

/// The file with some edits.
fn image(rt: &impl Abort, edits: &[Edit]) -> [u8; SIZE] {
    let mut file = [0; SIZE];
    edit(rt, &mut file, &FIELDS);
    edit(rt, &mut file, edits);
    file
}
