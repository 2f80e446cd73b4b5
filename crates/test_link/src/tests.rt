// Small programs linked from files, and from memory. What each link writes is in rows of scripts/rows.txt.
ghost use Rattle.std.specs.Prelude.{◌≡◌, ◌≢◌, IfSome, option_copied, codes, false};

mod dispatch;
mod mac;
mod report;
mod shared;
mod windows;

use ap_check::{Fault, Options, Systems};
use ap_claims::{Block, Owners};
use ap_files::MemoryFiles;
use ap_link::{LinkEnd, LinkFault, link as link_bytes, link_stream};
use std::alloc::Global;
use std::test::Fail;

/// One load of 16 bytes at 0x401000, which stand at 128, behind the header and one program header.
const PLAIN: [u8; 144] = *b"\x7fELF\x02\x01\x01\0\0\0\0\0\0\0\0\0\
    \x02\0\x3e\0\x01\0\0\0\0\x10\x40\0\0\0\0\0\x40\0\0\0\0\0\0\0\0\0\0\0\0\0\0\0\
    \0\0\0\0\x40\0\x38\0\x01\0\x40\0\0\0\0\0\
    \x01\0\0\0\x05\0\0\0\x80\0\0\0\0\0\0\0\0\x10\x40\0\0\0\0\0\0\0\0\0\0\0\0\0\
    \x10\0\0\0\0\0\0\0\x10\0\0\0\0\0\0\0\0\x10\0\0\0\0\0\0\0\0\0\0\0\0\0\0\
    0123456789abcdef";

const UNREAD: Result<u64, LinkEnd> = Err(LinkEnd::ReadFault);

fn broken(rule: u8, input: u8, value: u64) -> Result<u64, LinkEnd> {
    Err(LinkEnd::Rule(Fault {
        rule,
        input,
        item: 0,
        value,
    }))
}

#[test]
fn files_are_linked_or_refused(rt: HostRuntime) -> Result<(), Fail> {
    for (first, second, end) in [
        ("d", Some("a"), UNREAD),
        ("a", Some("d"), UNREAD),
        ("c", Some("d"), broken(9, 1, 57)),
        ("a", Some("c"), broken(9, 2, 57)),
        ("a", Some("a"), broken(23, 2, 62)),
        ("a", None, Ok(20480)),
        ("b", None, Ok(32768)),
        ("a", Some("b"), Ok(49152)),
        ("b", Some("a"), Ok(36864)),
    ] {
        let mut files = files_of(rt.alloc(), &[])?;
        assert!(rt; link(&mut files, first, second) == end, "{first}");
        let size = files.bytes("out").map(|out| out.len() as u64);
        assert!(rt; size == end.ok(), "{first}");
    }
    Ok(())
}

#[test]
fn bytes_are_linked_as_files_are(rt: HostRuntime) -> Result<(), Fail> {
    let mut files = files_of(rt.alloc(), &[])?;
    assert!(rt; link(&mut files, "a", Some("b")) == Ok(49152));
    let mut block = Block::new();
    let Ok(file) = link_bytes(rt.alloc(), &PLAIN, Some(&other()), &linux(), &mut block) else {
        return Err("refused".into());
    };
    assert!(rt; files.bytes("out") == Some(file.as_slice()));
    assert!(rt; file.starts_with(block.bytes()) && file.starts_with(b"jartsr='\n"));
    for at in [16384, 36864] {
        let load = file.get(at..at + 17);
        assert!(rt; load == Some(b"0123456789abcdef\0".as_slice()), "{at}");
    }
    assert!(rt; block.owners(95) == Owners::default() && block.owners(96) == Owners::ELF);
    assert!(rt; block.owners(207) == Owners::ELF && block.owners(208) == Owners::SHELL);
    Ok(())
}

#[test]
fn bytes_are_refused(rt: HostRuntime) -> Result<(), Fail> {
    let mut block = Block::new();
    let linked = link_bytes(rt.alloc(), &PLAIN, Some(&PLAIN), &linux(), &mut block);
    let Err(LinkFault::Rule(fault)) = linked else {
        return Err("taken".into());
    };
    assert!(rt; (fault.rule, fault.input, fault.value) == (23, 2, 62));
    assert!(rt; block.owners(0) == Owners::default());
    let text = format!(in rt.alloc(); "{}", LinkFault::Rule(fault))?;
    assert!(rt; text.as_str() == "the input breaks rule 23");
    Ok(())
}

#[test]
fn a_call_that_fails_leaves_a_front(rt: HostRuntime) -> Result<(), Fail> {
    let mut whole = files_of(rt.alloc(), &[])?;
    assert!(rt; link(&mut whole, "a", Some("b")) == Ok(49152));
    let whole = whole.bytes("out").unwrap_or(b"");
    let mut read = false;
    let mut write = false;
    for fails in 1..40 {
        let mut files = files_of(rt.alloc(), &[fails])?;
        files.slow(4000);
        match link(&mut files, "a", Some("b")) {
            Ok(_) => {}
            Err(LinkEnd::ReadFault) => read = true,
            Err(LinkEnd::WriteFault) => write = true,
            Err(LinkEnd::Rule(_)) => assert!(rt; false, "{fails}"),
        }
        let out = files.bytes("out").unwrap_or(b"");
        assert!(rt; whole.starts_with(out), "{fails}");
    }
    assert!(rt; read && write);
    Ok(())
}

/// A link of these names into `out`.
fn link(files: &mut MemoryFiles, first: &str, second: Option<&str>) -> Result<u64, LinkEnd> {
    if first == "out" || second == Some("out") {
        return UNREAD;
    }
    link_stream(first, second, &linux(), "out", files, &mut Block::new())
}

fn linux() -> Options
    ensures debug { result.debug ≡ false }
    ensures systems { result.systems.0 ≡ 1 }
{
    Options {
        systems: Systems::LINUX,
        debug: false,
    }
}

/// The program for AArch64.
fn other() -> [u8; 144] {
    let mut other = PLAIN;
    other[18] = 183;
    other
}

/// The programs `a` and `b`, one with program headers of another size, `c`, and room for an output. These calls fail.
fn files_of(alloc: Global, fails: &[u64]) -> Result<MemoryFiles, Fail> {
    let mut faulty = PLAIN;
    faulty[54] = 57;
    let mut files = MemoryFiles::new(alloc, fails)?;
    files.put("a", &PLAIN)?;
    files.put("b", &other())?;
    files.put("c", &faulty)?;
    files.reserve("out", 70_000)?;
    Ok(files)
}
