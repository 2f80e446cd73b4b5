// Runs of which each call of the files, or each print, fails in turn.
use super::{
    DUMP, Edit, LINK, LINK_TWO, LOAD, PLAIN, TEXT, edited, files_of, linked, obey, output, sink,
    words_of,
};
use ap_files::{MemoryFiles, SteadyFiles, SteadySink};
use ap_run::{Cause, run};
use std::alloc::Global;
use std::process::Abort;

/// No run makes so many calls.
const MOST_CALLS: u64 = 1000;

/// A command, how many bytes a call takes at most, and the length of the output.
type Case = (&'static [&'static str], Option<usize>, usize);

static CASES: [Case; 6] = [
    (LINK, None, 20480),
    (LINK, Some(100), 20480),
    (LINK_TWO, None, 49152),
    (LINK_TWO, Some(100), 49152),
    (DUMP, None, 12360),
    (DUMP, Some(3000), 12360),
];

// The last call of all is that which finishes the output, so where it alone fails all its bytes stand.
#[test]
fn each_failing_call_leaves_a_front_of_the_output(rt: HostRuntime) {
    let linked = linked(&rt, rt.alloc());
    for (words, most, length) in &CASES {
        let mut whole = files_for(&rt, rt.alloc(), words, &linked, 0, None);
        let end = obey(&rt, rt.alloc(), &mut whole, words, &mut SteadySink::new());
        assert!(rt; end.cause == Cause::Done && output(&whole).len() == *length);
        let mut before = (0, 0);
        let mut now = (0, 0);
        for k in 1..MOST_CALLS {
            let mut files = files_for(&rt, rt.alloc(), words, &linked, k, *most);
            before = now;
            now = run_failing(&rt, rt.alloc(), &mut files, words);
            assert!(rt; output(&whole).starts_with(output(&files)), "{k}");
            if now.0 == 0 {
                break;
            }
        }
        assert!(rt; before == (4, *length) && now == (0, *length), "{words:?}");
    }
}

#[test]
fn an_older_file_stays_where_the_output_cannot_be_started(rt: HostRuntime) {
    let linked = linked(&rt, rt.alloc());
    for (words, _, _) in &CASES {
        let mut stays = false;
        for k in 1..40 {
            let mut files = files_for(&rt, rt.alloc(), words, &linked, k, None);
            files.put("out", b"older").expect(&rt, "memory");
            let (status, _) = run_failing(&rt, rt.alloc(), &mut files, words);
            stays = stays || status == 4 && output(&files) == b"older".as_slice();
        }
        assert!(rt; stays, "{words:?}");
    }
}

#[test]
fn each_failing_print_leaves_a_front_of_the_text(rt: HostRuntime) {
    let linked = linked(&rt, rt.alloc());
    let mut printed = 0;
    for k in 1..MOST_CALLS {
        let mut files = files_of(&rt, rt.alloc(), &linked, &[]);
        let mut out = sink(&rt, rt.alloc(), &[k]);
        out.slow(1);
        let end = obey(&rt, rt.alloc(), &mut files, LOAD, &mut out);
        printed = out.bytes().len();
        assert!(rt; TEXT.starts_with(out.bytes()));
        if end.status == 0 {
            break;
        }
        assert!(rt; end.cause == Cause::OutFault && end.status == 4 && printed as u64 + 1 == k);
    }
    assert!(rt; printed == TEXT.len());
}

#[test]
fn a_line_on_standard_error_changes_no_end(rt: HostRuntime) {
    for (words, fails, status, line) in [
        (LINK, 0, 0, b"".as_slice()),
        (&["load", "none"], 0, 3, b"apetool: cannot read\n"),
        (&["load", "none"], 1, 3, b""),
        (&["load", "none"], 3, 3, b"ap"),
    ] {
        let mut files = files_of(&rt, rt.alloc(), PLAIN, &[]);
        let mut err = sink(&rt, rt.alloc(), &[fails]);
        err.slow(1);
        let words = words_of(&rt, rt.alloc(), words);
        let end = run(
            rt.alloc(),
            &words,
            &mut files,
            &mut SteadySink::new(),
            &mut err,
        );
        assert!(rt; end.status == status && err.bytes() == line, "{fails}");
    }
}

#[test]
fn words_that_are_no_command_make_no_call(rt: HostRuntime) {
    for words in [
        ["link", "in"].as_slice(),
        &["load", "--dump", "in", "in"],
        &[],
    ] {
        let mut files = files_of(&rt, rt.alloc(), PLAIN, &[1]);
        let end = obey(&rt, rt.alloc(), &mut files, words, &mut SteadySink::new());
        assert!(rt; end.cause == Cause::Usage && end.status == 2 && output(&files).is_empty());
    }
}

#[test]
fn files_that_tell_nothing_are_linked(rt: HostRuntime) {
    let mut files = SteadyFiles::of("in", PLAIN);
    let end = obey(&rt, rt.alloc(), &mut files, LINK, &mut SteadySink::new());
    assert!(rt; end.cause == Cause::Done);
}

/// The load has 50,000 bytes, of which a call takes 4000.
#[test]
fn a_large_load_is_linked_piece_by_piece(rt: HostRuntime) {
    let mut input = edited(&rt, rt.alloc(), LARGE, 50_128);
    for (number, place) in input.iter_mut().enumerate().skip(128) {
        *place = (number % 251) as u8;
    }
    let mut files = files_of(&rt, rt.alloc(), &input, &[]);
    files.slow(4000);
    let end = obey(&rt, rt.alloc(), &mut files, LINK, &mut SteadySink::new());
    assert!(rt; end.cause == Cause::Done && output(&files).len() == 16384 + 13 * 4096);
    let load = output(&files).get(16384..66384).unwrap_or(b"");
    assert!(rt; load == &input[input.len().min(128)..]);
}

const LARGE: &[Edit] = &[(96, b"\x50\xc3"), (104, b"\x50\xc3")];

/// The files of a command, with the linked file for one that shows it. The k-th call fails.
fn files_for(
    rt: &impl Abort,
    alloc: Global,
    words: &[&str],
    linked: &[u8],
    k: u64,
    most: Option<usize>,
) -> MemoryFiles {
    let input = if words.first() == Some(&"link") {
        PLAIN
    } else {
        linked
    };
    let mut files = files_of(rt, alloc, input, &[k]);
    match most {
        Some(most) if most > 0 => files.slow(most),
        _ => {}
    }
    files
}

/// The status of a run, and how many bytes of its output stand. Where it fails nothing is printed.
fn run_failing(
    rt: &impl Abort,
    alloc: Global,
    files: &mut MemoryFiles,
    words: &[&str],
) -> (u8, usize) {
    let mut out = sink(rt, alloc, &[]);
    let end = obey(rt, alloc, files, words, &mut out);
    let status = match end.cause {
        Cause::Done => 0,
        Cause::ReadFault => 3,
        Cause::WriteFault => 4,
        _ => 9,
    };
    assert!(rt; end.status == status && (status == 0 || out.bytes().is_empty()));
    (status, output(files).len())
}
