// Each command once over files in memory, with each call of the files and each print failing in turn, and what is read of a
// file. What the commands write and print, by words and files, is in rows of scripts/rows.txt.
mod failures;
mod looks;
mod sized;

use ap_files::{Files, MemoryFiles, MemorySink, Sink, SteadySink};
use ap_run::{Cause, End, ReadingFault, run};
use std::alloc::Global;
use std::process::Abort;

/// A place in a file, and the bytes that it gets.
type Edit = (usize, &'static [u8]);

/// An x86-64 program: its header, one load of 16 bytes at 0x401000, which starts there, and the 16 bytes from 128 on.
const PLAIN: &[u8] = b"\x7fELF\x02\x01\x01\0\0\0\0\0\0\0\0\0\
    \x02\0\x3e\0\x01\0\0\0\0\x10\x40\0\0\0\0\0\
    \x40\0\0\0\0\0\0\0\0\0\0\0\0\0\0\0\
    \0\0\0\0\x40\0\x38\0\x01\0\0\0\0\0\0\0\
    \x01\0\0\0\x05\0\0\0\x80\0\0\0\0\0\0\0\
    \0\x10\x40\0\0\0\0\0\0\0\0\0\0\0\0\0\
    \x10\0\0\0\0\0\0\0\x10\0\0\0\0\0\0\0\
    \0\x10\0\0\0\0\0\0\0\0\0\0\0\0\0\0\
    0123456789abcdef";

/// The program for AArch64, with its load and its entry at 0x404000.
const OTHER: &[Edit] = &[(18, b"\xb7"), (24, b"\0\x40"), (80, b"\0\x40")];

/// The program with a second load, of 5000 zeros at 0x403000, that has no bytes in the file.
const TWO_LOADS: &[Edit] = &[
    (56, b"\x02"),
    (72, b"\0\x10"),
    (
        120,
        b"\x01\0\0\0\x06\0\0\0\0\0\0\0\0\0\0\0\0\x30\x40\0\0\0\0\0",
    ),
    (
        144,
        b"\0\0\0\0\0\0\0\0\0\0\0\0\0\0\0\0\x88\x13\0\0\0\0\0\0\0\x10\0\0\0\0\0\0",
    ),
    (4096, b"0123456789abcdef"),
];

/// The room for an output.
const ROOM: usize = 70_000;

const LINK: &[&str] = &["link", "--systems", "linux", "-o", "out", "in"];

const LINK_TWO: &[&str] = &["link", "--systems", "linux", "-o", "out", "in", "other"];

const LOAD: &[&str] = &["load", "in"];

const DUMP: &[&str] = &["load", "--dump", "out", "in"];

const MAP: &[&str] = &["map", "--as", "elf", "in"];

const SCRIPT: &[&str] = &["script", "--system", "Linux", "--machine", "x86_64", "in"];

/// The text of the plan of the program of two loads, once it is linked.
const TEXT: &[u8] = b"entry 0000000000401000\n\
    0000000000401000 0000000000001000 0000000000001000 0000000000004000 r-x\n\
    0000000000403000 0000000000002000 0000000000000000 0000000000000000 rw-\n";

/// The first bytes of its image file: the mark, the entry, two runs, each with its line, and the first byte.
const IMAGE: &[u8] = b"APEIMAGE\0\x10\x40\0\0\0\0\0\x02\0\0\0\0\0\0\0\
    \0\x10\x40\0\0\0\0\0\0\x10\0\0\0\0\0\0\x05\0\0\0\0\0\0\0\
    \0\x30\x40\0\0\0\0\0\0\x20\0\0\0\0\0\0\x06\0\0\0\0\0\0\00";

#[test]
fn each_command_does_its_work(rt: HostRuntime) {
    let input = edited(&rt, rt.alloc(), TWO_LOADS, 4112);
    let linked = linked(&rt, rt.alloc());
    assert!(rt; linked.len() == 20480);
    for (words, file, text) in [
        (MAP, &input, b"entry 0000000000401000\n".as_slice()),
        (LOAD, &linked, TEXT),
        (DUMP, &linked, TEXT),
        (SCRIPT, &linked, b"execs /tmp/ape.1\n"),
    ] {
        let mut files = files_of(&rt, rt.alloc(), file, &[]);
        let mut out = sink(&rt, rt.alloc(), &[]);
        let end = obey(&rt, rt.alloc(), &mut files, words, &mut out);
        assert!(rt;
            end.cause == Cause::Done && out.bytes().starts_with(text),
            "{words:?}"
        );
        let is_image = output(&files).len() == 12360 && output(&files).starts_with(IMAGE);
        assert!(rt; is_image || words.get(1) != Some(&"--dump"));
    }
}

#[test]
fn a_text_outside_the_grammar_is_refused_at_its_place(rt: HostRuntime) {
    let mut files = files_of(&rt, rt.alloc(), b": ; a|b", &[]);
    let end = obey(&rt, rt.alloc(), &mut files, SCRIPT, &mut SteadySink::new());
    let refusal = ReadingFault::Shell { at: 4 };
    assert!(rt; end.status == 1 && end.cause == Cause::Unread(refusal));
}

/// An input, another one, and room for an output. The calls of the list fail.
fn files_of(rt: &impl Abort, alloc: Global, input: &[u8], fails: &[u64]) -> MemoryFiles {
    let mut files = MemoryFiles::new(alloc, fails).expect(rt, "memory");
    files.put("in", input).expect(rt, "memory");
    files
        .put("other", &edited(rt, alloc, OTHER, 144))
        .expect(rt, "memory");
    files.reserve("out", ROOM).expect(rt, "memory");
    files
}

/// The linked file of the program of two loads.
fn linked(rt: &impl Abort, alloc: Global) -> Vec<u8> {
    let mut files = files_of(rt, alloc, &edited(rt, alloc, TWO_LOADS, 4112), &[]);
    let end = obey(rt, alloc, &mut files, LINK, &mut SteadySink::new());
    assert!(rt; end.cause == Cause::Done);
    let mut linked = Vec::new(alloc);
    linked
        .extend_from_slice(output(&files))
        .expect(rt, "memory");
    linked
}

/// The program with other bytes at some places, filled with zeros to a length.
fn edited(rt: &impl Abort, alloc: Global, edits: &[Edit], length: usize) -> Vec<u8> {
    let mut file = Vec::new(alloc);
    file.extend_from_slice(PLAIN).expect(rt, "memory");
    file.resize(length, 0).expect(rt, "memory");
    for (at, bytes) in edits {
        for (place, byte) in file.iter_mut().skip(*at).zip(*bytes) {
            *place = *byte;
        }
    }
    file
}

/// A sink of which these writes fail.
fn sink(rt: &impl Abort, alloc: Global, fails: &[u64]) -> MemorySink {
    MemorySink::new(alloc, 200, fails).expect(rt, "memory")
}

fn obey<F: Files, O: Sink>(
    rt: &impl Abort,
    alloc: Global,
    files: &mut F,
    words: &[&str],
    out: &mut O,
) -> End {
    let words = words_of(rt, alloc, words);
    run(alloc, &words, files, out, &mut SteadySink::new())
}

fn words_of(rt: &impl Abort, alloc: Global, list: &[&str]) -> Vec<String> {
    let mut words = Vec::new(alloc);
    for word in list {
        let word = String::from_str(alloc, word).expect(rt, "memory");
        words.push(word).expect(rt, "memory");
    }
    words
}

/// The bytes of the output, and none where it isn't there.
fn output(files: &MemoryFiles) -> &[u8] {
    files.bytes("out").unwrap_or(b"")
}
