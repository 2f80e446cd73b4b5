// Texts and statements with values from outside: the digits of POSIX `printf`, the statement that a linked program of one
// load has, and places at the window's edge.
use ap_fields::WINDOW;
use ap_octal::*;
use std::alloc::{AllocError, Global};
use std::test::Fail;

const HEADER: [u8; 64] =
    *b"\x7fELF\x02\x01\x01\x09\0\0\0\0\0\0\0\0\x02\0\x3e\0\x01\0\0\0\0\x10\x40\0\0\0\0\0\
    \x60\0\0\0\0\0\0\0\0\0\0\0\0\0\0\0\0\0\0\0\x40\0\x38\0\x01\0\0\0\0\0\0\0";

const STATEMENT: &[u8] =
    b"printf '\\177ELF\\002\\001\\001\\011\\000\\000\\000\\000\\000\\000\\000\\000\\002\\000\\076\\000\\001\\000\\000\\000\\\
        000\\020\\100\\000\\000\\000\\000\\000\\140\\000\\000\\000\\000\\000\\000\\000\\000\\000\\000\\000\\000\\000\\000\\000\\\
        000\\000\\000\\000\\100\\000\\070\\000\\001\\000\\000\\000\\000\\000\\000\\000'";

/// A text, and the first two bytes of what a statement embeds that begins with it, and goes on with letters.
static TEXTS: [(&[u8], Option<[u8; 2]>); 13] = [
    (b"\\08", Some([0, 0x38])),
    (b"\\1777", Some([0x7f, 0x37])),
    (b"\\12\\377", Some([0x0a, 0xff])),
    (b"\x01\x7f", Some([0x01, 0x7f])),
    (b"\\0\\00", Some([0, 0])),
    (b"\\400", None),
    (b"a%b", None),
    (b"a\\nb", None),
    (b"a\\\\b", None),
    (b"\\8b", None),
    (b"ab\0", None),
    (b"ab\x80", None),
    (b"a", None),
];

/// The places where a statement of letters opens and closes; where one is found, and how many bytes it embeds.
static PLACES: [(usize, usize, Option<usize>, Option<usize>); 7] = [
    (8190, 8300, None, None),
    (8185, 8300, None, None),
    (8184, 8300, Some(8184), None),
    (8000, 8192, Some(8000), None),
    (8000, 8191, Some(8000), Some(183)),
    (0, 72, Some(0), Some(64)),
    (0, 71, Some(0), None),
];

#[test]
fn statements_embed_the_bytes_of_their_texts(rt: HostRuntime) -> Result<(), Fail> {
    for (text, bytes) in &TEXTS {
        let file = file_with(rt.alloc(), 12, text, 82 + text.len())?;
        let shown = first_decoded(&file).map(|d| [d.first[0], d.first[1]]);
        assert!(rt; shown == *bytes, "of {text:?}");
    }
    for (at, end, found, count) in &PLACES {
        let file = file_with(rt.alloc(), *at, b"", *end)?;
        assert!(rt; statements(&file, 0) == *found, "at {at}");
        assert!(rt; first_decoded(&file).map(|d| d.count) == *count, "to {end}");
    }
    Ok(())
}

#[test]
fn statements_are_canonical(rt: HostRuntime) {
    let mut out = [b'.'; 300];
    assert!(rt; write_statement(&mut out, 7, &HEADER) == STATEMENT.len());
    assert!(rt; out.starts_with(b".......printf '") && &out[7..263] == STATEMENT);
    assert!(rt; &out[263..] == [b'.'; 37].as_slice());
    let expected = Decoded {
        first: HEADER,
        count: 64,
        end: 262,
    };
    assert!(rt; first_decoded(&out) == Some(expected));
}

#[test]
fn the_next_statement_is_found_behind_the_first(rt: HostRuntime) {
    let file = b"jartsr='\nprintf '\\0'\nprintf 'a'\nprintf";
    for (from, found) in [
        (0, Some(9)),
        (9, Some(9)),
        (10, Some(21)),
        (22, None),
        (WINDOW, None),
    ] {
        assert!(rt; statements(file, from) == found, "{from}");
    }
}

/// A file of zeros with a statement that opens at a place, has a text and then letters, and closes at another.
fn file_with(alloc: Global, at: usize, text: &[u8], end: usize) -> Result<Vec<u8>, AllocError> {
    let mut file = Vec::new(alloc);
    file.resize(at, 0)?;
    file.extend_from_slice(b"printf '")?;
    file.extend_from_slice(text)?;
    file.resize(end, b'a')?;
    file.extend_from_slice(b"'")?;
    file.resize(WINDOW + 512, 0)?;
    Ok(file)
}

/// What the first statement of a file embeds.
fn first_decoded(file: &[u8]) -> Option<Decoded> {
    let at = statements(file, 0)?;
    decode_at(file, at)
}
