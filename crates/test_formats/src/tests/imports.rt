// Walks of import directories. The directory is that of a program with the image base 0x400000, which imports `ExitProcess`
// of KERNEL32.dll and number 115 of WS2_32.dll.
ghost use Rattle.std.specs.Prelude.{◌≡◌, ◌≤◌, ◌^◌, None, [], ◌∷◌, length};
ghost use Rattle.ap_files.specs.Reads.{HasSize};
ghost use Rattle.ap_image.specs.Plans.{AreBacked};

use super::{Edit, edit};
use WalkCause::{Long, Many, NoCell, NoEnd};
use ap_files::{Failed, Files, SliceFiles};
use ap_image::*;
use arrayvec::ArrayVec;
use bitflags::Flags;
use std::process::Abort;

const BASE: u64 = 0x400000;

const TABLE: u64 = 0x403000;

const END: u64 = 0x40303c;

/// How many bytes are mapped, from the table on.
const SIZE: usize = 0xa000;

/// The table's two entries, the words of both lookup tables and of both address tables, and a hint.
const DIRECTORY: [Edit; 9] = [
    (4, 0x00, 0x3040),
    (8, 0x0c, 0x3080_0000_30a0),
    (4, 0x14, 0x3060),
    (8, 0x20, 0x3090_0000_30b0),
    (8, 0x40, 0x30c0),
    (8, 0x60, 0x8000_0000_0000_0073),
    (8, 0x80, 0x30c0),
    (8, 0x90, 0x8000_0000_0000_0073),
    (2, 0xc0, 0x0102),
];

const ITEMS: [Step; 4] = [
    Step::Entry { dll: 0x4030a0 },
    Step::Word {
        what: What::Name { at: 0x4030c2 },
        slot: 0x403080,
    },
    Step::Entry { dll: 0x4030b0 },
    Step::Word {
        what: What::Ordinal { number: 115 },
        slot: 0x403090,
    },
];

/// How a walk ends: at the entry that closes the table, or by a fault.
type End = Option<(WalkCause, u64)>;

/// A file that is mapped from the table on.
fn plan() -> Plan
    ensures { result.regions ≡ record { start = 0x403000; span = 0xa000; backed = 0xa000; at = 0; perms = record { 0 = 4 } } ∷ [] }
{
    let mut regions = ArrayVec::new();
    regions.push(Region {
        start: TABLE,
        span: SIZE as u64,
        backed: SIZE as u64,
        at: 0,
        perms: Perms::R,
    });
    Plan { regions, entry: 0 }
}

fn directory(rt: &impl Abort, edits: &[Edit]) -> [u8; SIZE] {
    let mut file = [0; SIZE];
    put(rt, &mut file, 0xa0, b"KERNEL32.dll");
    put(rt, &mut file, 0xb0, b"WS2_32.dll");
    put(rt, &mut file, 0xc2, b"ExitProcess");
    edit(rt, &mut file, &DIRECTORY);
    edit(rt, &mut file, edits);
    file
}

fn put(rt: &impl Abort, file: &mut [u8], at: usize, text: &[u8]) {
    assert!(rt; at <= file.len() && text.len() <= file.len() - at);
    file[at..at + text.len()].copy_from_slice(text);
}

/// How a walk ends of a file by its name.
fn ending_in<F: Files>(files: &mut F, plan: &Plan, size: u64, stop: u64) -> Result<Ending, Failed>
    requires size { HasSize (F.state files.old).kept [] size }
    requires backed { AreBacked plan.now.regions size }
    requires stop { stop ≤ 2 ^ 48 }
{
    let mut cells = FileCells {
        files,
        name: "",
        plan,
        size,
        last: LastRead::new(),
    };
    Walk::new(BASE, TABLE, Some(stop)).ending(&mut cells)
}

#[tactic(auto, using(ap_files::proofs::SliceLemmas::slice_steps))]
fn ending_of(file: &[u8], plan: &Plan, stop: u64) -> Result<Ending, Failed>
    requires backed { AreBacked plan.now.regions (length file.now) }
    requires stop { stop ≤ 2 ^ 48 }
{
    ending_in(
        &mut SliceFiles { bytes: file },
        plan,
        file.len() as u64,
        stop,
    )
}

/// Steps through a walk, which is to give so many items, these first, and to end so, again and again.
fn walk(rt: &impl Abort, file: &[u8; SIZE], stop: u64, items: &[Step], count: usize, end: End) {
    let ending = match end {
        None => Ending::Done,
        Some((cause, at)) => Ending::Fault(WalkFault { cause, at }),
    };
    let plan = plan();
    let mut cells = PlanCells { plan: &plan, file };
    assert!(rt; stop < 1 << 48);
    let mut walk = Walk::new(BASE, TABLE, Some(stop));
    for i in 0..count {
        let found = walk.step(&mut cells);
        assert!(rt; found.is_ok() && found != Ok(Step::Done), "item {i}");
        assert!(rt; i >= items.len() || found == Ok(items[i]), "item {i}");
    }
    for _ in 0..2 {
        let found = match walk.step(&mut cells) {
            Ok(Step::Done) => Some(Ending::Done),
            Err(WalkEnd::Fault(fault)) => Some(Ending::Fault(fault)),
            _ => None,
        };
        assert!(rt; found == Some(ending), "{found:?} after {count}");
    }
    assert!(rt; ending_of(file, &plan, stop) == Ok(ending));
}

#[test]
fn a_walk_gives_the_items_and_how_they_end(rt: HostRuntime) {
    let rows: [(&[Edit], u64, usize, End); 17] = [
        (&[], END, 4, None),
        // no lookup table: the words are those of the address table
        (&[(4, 0x00, 0)], END, 4, None),
        // the low 31 bits of a word are the hint's place, and the low 16 bits are an ordinal
        (&[(8, 0x40, 0x7fff_ffff_8000_30c0)], END, 4, None),
        (&[(8, 0x60, 0xffff_ffff_ffff_0073)], END, 4, None),
        // an entry without a name, or without an address table, closes the table
        (&[(4, 0x0c, 0)], END, 0, None),
        (&[(4, 0x24, 0)], END, 2, None),
        // the table ends before the entry that closes it, or within its first
        (&[], END - 1, 4, Some((NoEnd, END - 1))),
        (&[], 0x403028, 4, Some((NoEnd, 0x403028))),
        (&[], 0x403013, 0, Some((NoEnd, 0x403013))),
        // a hint, a DLL's name and a word that aren't there, in whole or in part
        (&[(8, 0x40, 0x7fff0000)], END, 1, Some((NoCell, 0x803f0000))),
        (&[(8, 0x40, 0xcfff)], END, 1, Some((NoCell, 0x40d000))),
        (&[(8, 0x40, 0xcffe)], END, 1, Some((NoCell, 0x40d000))),
        (&[(4, 0x0c, 0x10)], END, 0, Some((NoCell, 0x400010))),
        (&[(4, 0x20, 0x2fff)], END, 2, Some((NoCell, 0x402fff))),
        (&[(4, 0x14, 0x90000000)], END, 3, Some((NoCell, 0x90400000))),
        (&[(4, 0x14, 0xcff8)], END, 3, None),
        (&[(4, 0x14, 0xcffc)], END, 3, Some((NoCell, 0x40d000))),
    ];
    for (edits, stop, count, end) in rows {
        walk(&rt, &directory(&rt, edits), stop, &ITEMS, count, end);
    }
}

#[test]
fn names_have_1024_bytes_and_walks_4096_items_at_most(rt: HostRuntime) {
    let names: [(u64, &[u8], usize, End); 3] = [
        (0x3400, &[b'a'; 1024], 4, None),
        (0x3400, &[b'a'; 1025], 0, Some((Long, 0x403400))),
        // the last byte that a name of 1024 bytes needs is the NUL behind it
        (0xcc00, &[b'a'; 1024], 0, Some((NoCell, 0x40d000))),
    ];
    for (rva, name, count, end) in names {
        let mut file = directory(&rt, &[(4, 0x0c, rva)]);
        put(&rt, &mut file, rva as usize - 0x3000, name);
        walk(&rt, &file, END, &[], count, end);
    }
    // words of ordinals, behind which the second entry has a word, or closes the table, or has a name that isn't there
    for (words, edit, end) in [
        (4093, (4, 0x14, 0x3060), None),
        (4094, (4, 0x14, 0x3060), Some((Many, 0x403060))),
        (4095, (4, 0x20, 0), None),
        (4095, (4, 0x20, 0x10), Some((Many, 0x403014))),
        (4096, (4, 0x20, 0), Some((Many, 0x40bff8))),
    ] {
        let mut file = directory(&rt, &[(4, 0x00, 0x4000), edit]);
        for i in 0..words {
            put(&rt, &mut file, 0x1000 + 8 * i, b"\x01\0\0\0\0\0\0\x80");
        }
        walk(&rt, &file, END, &ITEMS[..1], 4096, end);
    }
}

/// Bytes of which one isn't read at first.
#[derive(Drop)]
struct Once<'a> {
    bytes: PlanCells<'a>,
    calls: u64,
    failing: u64,
    faults: u64,
}

impl Cells for Once<'_> {
    ghost state = { λ c. record { told = None; faults = c.faults; others = None } };

    fn byte(&mut self, a: u64) -> Result<Option<u8>, Failed> {
        self.calls = self.calls.saturating_add(1);
        if self.calls == self.failing {
            self.faults = self.faults.saturating_add(1);
            return Err(Failed);
        }
        self.bytes.byte(a)
    }
}

#[test]
fn a_byte_that_is_not_read_leaves_the_walk(rt: HostRuntime) {
    let plan = plan();
    let file = directory(&rt, &[]);
    // the bytes of three entries, four words, two DLLs' names, and a hint with its name
    for failing in 1..60 + 32 + 13 + 11 + 14 + 1 {
        let mut cells = Once {
            bytes: PlanCells {
                plan: &plan,
                file: &file,
            },
            calls: 0,
            failing,
            faults: 0,
        };
        let mut walk = Walk::new(BASE, TABLE, Some(END));
        for step in [ITEMS[0], ITEMS[1], ITEMS[2], ITEMS[3], Step::Done] {
            let mut found = walk.step(&mut cells);
            if found == Err(WalkEnd::ReadFault) {
                found = walk.step(&mut cells);
            }
            assert!(rt; found == Ok(step), "{found:?} where call {failing} fails");
        }
        assert!(rt; cells.faults == 1);
        cells.calls = 0;
        assert!(rt; Walk::new(BASE, TABLE, None).ending(&mut cells) == Err(Failed));
    }
}

#[test]
fn imports_have_their_names(rt: HostRuntime) {
    let plan = plan();
    let file = directory(&rt, &[]);
    let mut cells = PlanCells {
        plan: &plan,
        file: &file,
    };
    let Ok(found) = list_imports(rt.alloc(), Walk::new(BASE, TABLE, None), &mut cells) else {
        panic!(rt; "a list of two");
    };
    let [first, second] = found.as_slice() else {
        panic!(rt; "two");
    };
    assert!(rt; first.dll.as_slice() == b"KERNEL32.dll".as_slice() && first.slot == 0x403080);
    assert!(rt;
        matches!(&first.what, Wanted::Name { name } if name.as_slice() == b"ExitProcess".as_slice())
    );
    assert!(rt; second.dll.as_slice() == b"WS2_32.dll".as_slice() && second.slot == 0x403090);
    assert!(rt; matches!(&second.what, Wanted::Ordinal { number } if *number == 115));
}
