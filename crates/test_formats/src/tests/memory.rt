// Which calls fail on files in memory and on a sink in memory, and what stands then.
use ap_files::{Failed, Files, MemoryFiles, MemorySink, Sink, SteadyFiles, SteadySink};
use std::test::Fail;

#[derive(Clone, Copy)]
enum Call {
    Size(&'static str),
    Read(&'static str, u64, usize),
    Start(&'static str),
    Add(&'static str, &'static [u8]),
    Finish(&'static str),
}

/// The calls that fail by their numbers; and calls in their order, each with the number that it answers, where it answers.
/// At first `a` holds `abc`, and `o` has room for four bytes.
type Case = (&'static [u64], &'static [(Call, Option<u64>)]);

static CASES: [Case; 10] = [
    // each call once
    (
        &[],
        &[
            (Call::Size("a"), Some(3)),
            (Call::Read("a", 1, 2), Some(0)),
            (Call::Start("o"), Some(0)),
            (Call::Size("o"), Some(0)),
            (Call::Add("o", b"xy"), Some(2)),
            (Call::Add("o", b""), Some(0)),
            (Call::Finish("o"), Some(0)),
            (Call::Size("o"), Some(2)),
        ],
    ),
    // a piece that passes the room
    (
        &[],
        &[
            (Call::Start("o"), Some(0)),
            (Call::Add("o", b"vwxyz"), None),
            (Call::Size("o"), Some(0)),
        ],
    ),
    // a byte more than the room
    (
        &[],
        &[
            (Call::Start("o"), Some(0)),
            (Call::Add("o", b"vwx"), Some(3)),
            (Call::Add("o", b"y"), Some(1)),
            (Call::Add("o", b"z"), None),
            (Call::Size("o"), Some(4)),
        ],
    ),
    // a name without a room
    (&[], &[(Call::Start("x"), None), (Call::Size("x"), None)]),
    // an absence, although the call's number is in the list
    (&[1], &[(Call::Size("x"), None), (Call::Size("a"), Some(3))]),
    // a reserved name is no file
    (&[], &[(Call::Size("o"), None)]),
    // reads that fail by their numbers
    (
        &[1, 3],
        &[
            (Call::Size("a"), None),
            (Call::Size("a"), Some(3)),
            (Call::Read("a", 0, 3), None),
            (Call::Read("a", 0, 3), Some(0)),
        ],
    ),
    // writes that fail by their numbers
    (
        &[5, 2, 1],
        &[
            (Call::Start("o"), None),
            (Call::Start("a"), None),
            (Call::Start("o"), Some(0)),
            (Call::Add("o", b"x"), Some(1)),
            (Call::Add("o", b"y"), None),
            (Call::Add("o", b"y"), Some(1)),
            (Call::Finish("o"), Some(0)),
        ],
    ),
    // a finish that fails, and succeeds when it is asked again
    (
        &[2],
        &[
            (Call::Start("o"), Some(0)),
            (Call::Finish("o"), None),
            (Call::Finish("o"), Some(0)),
        ],
    ),
    // a number of no call
    (
        &[0, 9],
        &[(Call::Size("a"), Some(3)), (Call::Start("a"), Some(0))],
    ),
];

#[test]
fn calls_fail_by_their_numbers_and_rooms(rt: HostRuntime) -> Result<(), Fail> {
    for (number, (fails, calls)) in CASES.iter().enumerate() {
        let mut files = MemoryFiles::new(rt.alloc(), fails)?;
        files.put("a", b"abc")?;
        files.reserve("o", 4)?;
        for (call, wanted) in *calls {
            assert!(rt; answer(&mut files, *call) == *wanted, "case {number}");
        }
    }
    Ok(())
}

#[test]
fn slow_files_take_pieces_in_part(rt: HostRuntime) -> Result<(), Fail> {
    let mut files = MemoryFiles::new(rt.alloc(), &[])?;
    files.put("o", b"abcd")?;
    files.slow(2);
    for (call, wanted) in [
        (Call::Start("o"), Some(0)),
        (Call::Add("o", b"xyz"), Some(2)),
        (Call::Add("o", b"xyz"), None),
        (Call::Add("o", b"z"), Some(1)),
    ] {
        assert!(rt; answer(&mut files, call) == wanted);
    }
    assert!(rt; files.bytes("o") == Some(b"xyz"));
    Ok(())
}

#[test]
fn writes_fail_by_their_numbers_and_the_room(rt: HostRuntime) -> Result<(), Fail> {
    let mut sink = MemorySink::new(rt.alloc(), 5, &[2])?;
    for (piece, wanted) in [
        (b"abc".as_slice(), Ok(3)),
        (b"d", Err(Failed)),
        (b"def", Err(Failed)),
        (b"", Ok(0)),
    ] {
        assert!(rt; sink.write(piece) == wanted, "{piece:?}");
    }
    sink.slow(1);
    for (piece, wanted) in [
        (b"ef".as_slice(), Ok(1)),
        (b"fg", Err(Failed)),
        (b"f", Ok(1)),
    ] {
        assert!(rt; sink.write(piece) == wanted, "{piece:?}");
    }
    assert!(rt; sink.bytes() == b"abcef".as_slice());
    Ok(())
}

#[test]
fn steady_files_read_as_0_past_their_end(rt: HostRuntime) {
    let mut files = SteadyFiles::of("a", b"abc");
    let mut buf = [9u8; 4];
    assert!(rt; files.size("a") == Ok(3));
    assert!(rt; files.read_at("a", 1, &mut buf).is_ok() && buf == *b"bc\0\0");
    assert!(rt; files.read_at("b", 1, &mut buf).is_ok() && buf == [0; 4]);
    assert!(rt; SteadyFiles::new().size("a") == Ok(0));
    assert!(rt; SteadySink::new().write(b"abc") == Ok(3));
}

/// The number that a call answers. `None`, where it is `Failed`, or its condition doesn't hold.
fn answer(files: &mut MemoryFiles, call: Call) -> Option<u64> {
    match call {
        Call::Size(name) => files.size(name).ok(),
        Call::Read(name, at, count) => read(files, name, at, count),
        Call::Start(name) => files.start(name).ok().map(|()| 0),
        Call::Add(name, piece) => add(files, name, piece),
        Call::Finish(name) => finish(files, name),
    }
}

fn read(files: &mut MemoryFiles, name: &str, at: u64, count: usize) -> Option<u64> {
    let size = files.bytes(name)?.len() as u64;
    let mut buf = [0u8; 8];
    if count > 8 || at > size || count as u64 > size - at {
        return None;
    }
    files.read_at(name, at, &mut buf[..count]).ok().map(|()| 0)
}

fn add(files: &mut MemoryFiles, name: &str, piece: &[u8]) -> Option<u64> {
    let _ = files.bytes(name)?;
    if !files.is_unfinished(name) {
        return None;
    }
    files.add(name, piece).ok().map(|count| count as u64)
}

fn finish(files: &mut MemoryFiles, name: &str) -> Option<u64> {
    let _ = files.bytes(name)?;
    if !files.is_unfinished(name) {
        return None;
    }
    files.finish(name).ok().map(|()| 0)
}
