// Reports on linked files. More of them are in rows of scripts/rows.txt.
use super::{PLAIN, linux};
use ap_claims::Block;
use ap_inspect::report;
use ap_link::link;
use std::test::Fail;

/// What is told of PLAIN, linked for Linux.
const REPORT: &[u8] = b"size 20480\nmagic jartsr\nstatement 411 64 62\ndd none\n\
    reading pe Mz 0 24938\nreading mach Magic 0 1953653098\nreading ape-62 ok\n\
    entry 0000000000401000\n\
    0000000000401000 0000000000001000 0000000000001000 0000000000004000 r-x\n\
    reading ape-183 NoStatement 0 0\n\
    owner ape 0 8\nowner ape 411 256\nowner elf 96 56\nowner area 16384 4096\n";

#[test]
fn a_linked_file_is_reported_on(rt: HostRuntime) -> Result<(), Fail> {
    let linked = link(rt.alloc(), &PLAIN, None, &linux(), &mut Block::new());
    let Ok(file) = linked else {
        return Err("refused".into());
    };
    let Ok(text) = report(rt.alloc(), &file) else {
        return Err("no memory".into());
    };
    assert!(rt; text.as_slice() == REPORT);
    Ok(())
}
