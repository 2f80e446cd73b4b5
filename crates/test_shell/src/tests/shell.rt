// What scripts do, and how they end: each command with each of its statuses, and the rules of words, redirections,
// assignments and lists (POSIX.1, 2).
use super::given::{arguments, end_text};
use ap_shell::{Env, Files, Host, HostFile, Outcome, run_script};
use ap_shparse::{Nul, ShellFault};
use sqlite_items::Items;
use std::alloc::{AllocError, Global};
use std::process::Abort;
use std::test::Fail;

/// A script, and behind ` => ` how it ends: its outcome, what it prints, and the file `f`, where it is there then. The argument words are
/// `1` and `2 3`; the files are `d` (0644, the ten digits), `./x` (0755, empty) and `/n` (0644, empty).
type Row = &'static str;

const COMMANDS: &[Row] = &[
    "uname -m; uname -s => exits 0, out x86_64\nLinux\n",
    "uname => exits 1",
    "uname -a => exits 1",
    "cp d f => exits 0, f 0644 0123456789",
    ": >f; cp d f => exits 0, f 0600 0123456789",
    "cp /dev/null f => exits 0, f 0600 ",
    "cp d /dev/null => exits 0",
    "cp d d => exits 1",
    "cp -d f => exits 1",
    "cp no f => exits 1",
    "cp d => exits 1",
    "cp d f; chmod 705 f => exits 0, f 0705 0123456789",
    "chmod 70 d => exits 1",
    "chmod 780 d => exits 1",
    "chmod 700 no => exits 1",
    "chmod 700 /dev/null => exits 1",
    "printf 'a\\1\\12\\101' => exits 0, out a\x01\nA",
    "printf '\\08' >f => exits 0, f 0600 \x008",
    "printf '\\1777' >f => exits 0, f 0600 \x7f7",
    "printf '\\400' >f || exit 9 => exits 9, f 0600 ",
    "printf 'a%b' >f || exit 9 => exits 9, f 0600 ",
    "printf 'a\\n' => exits 1",
    "printf -- => exits 0, out --",
    "printf '' => exits 0",
    "printf a b => exits 1",
    "printf => exits 1",
    "dd if=d of=f bs=3 skip=1 count=9 conv=notrunc => exits 0, f 0600 3456789",
    "dd conv=notrunc count=01 skip=3 bs=4 of=f if=d => exits 0, f 0600 ",
    "printf abcde >f; dd if=d of=f bs=3 skip=0 count=1 conv=notrunc => exits 0, f 0600 012de",
    "cp d f; dd if=f of=f bs=2 skip=2 count=2 conv=notrunc => exits 0, f 0644 4567456789",
    "cp d f; dd if=f of=f bs=3 skip=1 count=9 conv=notrunc => exits 0, f 0644 3456789789",
    "cp d f; dd if=f of=f bs=3 skip=0 count=9 conv=notrunc => exits 0, f 0644 0123456789",
    "dd if=d of=f bs=000000001 skip=9 count=1 conv=notrunc => exits 0, f 0600 9",
    "dd if=d of=f bs=0000000001 skip=9 count=1 conv=notrunc => exits 1",
    "dd if=d of=f bs=0 skip=1 count=1 conv=notrunc => exits 1",
    "dd if=d of=f bs=1 skip= count=1 conv=notrunc => exits 1",
    "dd if=no of=f bs=1 skip=1 count=1 conv=notrunc => exits 1",
    "dd if=d of=f bs=1 skip=1 count=1 conv=trunc => exits 1",
    "dd if=d if=d bs=1 skip=1 count=1 conv=notrunc => exits 1",
    "dd if=d of=f bs=1 skip=1 count=1 => exits 1",
    "[ a = a ] && [ a != b ] && [ -n a ] && [ -z '' ] => exits 0",
    "[ a = b ] => exits 1",
    "[ a != a ] => exits 1",
    "[ -n '' ] => exits 1",
    "[ -n = -n ] => exits 0",
    "[ a ] => exits 2",
    "[ a = b => exits 2",
    "[ a -eq b ] => exits 2",
    "command -v cp; command -v [; command -v exec => exits 0, out cp\n[\nexec\n",
    "command -v ape => exits 1",
    "command cp d f => exits 1",
    ": a b => exits 0",
    "false => exits 1",
    "no => exits 127",
    "exit 007 => exits 7",
    "exit 256 => exits 2",
    "exit 1 2 => exits 2",
    "false; exit => exits 1",
    "exec ./x a \"$@\" => execs ./x [a] [1] [2 3]",
    "exec /n => exits 126",
    "exec /dev/null => exits 126",
    "exec ./no => exits 127",
    "exec d => exits 127",
    "exec ape => exits 127",
    "exec >f; exit 4 => exits 4, f 0600 ",
];

const WORDS: &[Row] = &[
    "x=a; printf \"$x${x}b$x\" => exits 0, out aaba",
    "printf \"${y:-c d}\" => exits 0, out c d",
    "y=; printf \"${y:-e}${y}\" => exits 0, out e",
    "printf \"$0 $$\" => exits 0, out app 7",
    "x=$(uname -m); printf \"$x!\" => exits 0, out x86_64!",
    "x=$(printf '\\12a\\12\\12'); printf \"$x.\" => exits 0, out \na.",
    "x=$(printf '\\0'); [ -n \"$x\" ] => exits 0",
    "x=$(<d); [ -z \"$x\" ] => exits 0",
    "x=$(\"exit\" 3) => exits 127",
    "x=$(command -v exit)\nexit\n => exits 1",
    "x=1; x=2 true; exit \"$x\" => exits 1",
    "x=1; x=2 :; exit \"$x\" => exits 2",
    "x=1; x=2 exec; exit \"$x\" => exits 2",
    "x=1; x=2 exit \"$x\" => exits 1",
    "x=3 y=$x; exit \"$y\" => exits 3",
    "x=$(y=4 :); exit \"${y:-5}\" => exits 5",
    "false; x=1; exit => exits 0",
    "x=$(false) y=$(true); exit => exits 0",
    "x=$(true) y=$(false); exit => exits 1",
    "false; x=$(true) exit => exits 1",
    "\"$TMPDIR\"; cp d 'a\nb'; cp 'a\nb' f => exits 0, f 0644 0123456789",
    "cp d ''; cp '' f => exits 0, f 0644 0123456789",
    "printf x >/dev/null/; cp /dev/null/ f => exits 0, f 0600 x",
    "printf x >/dev/null; cp /dev/null f => exits 0, f 0600 ",
    ": <<'E' 'a\nb'\nx\nE\nexit 3\n => exits 3",
    "x={ y=!a z=#b\nexit 3\n => exits 3",
    "in a\nexit\n => exits 127",
];

const REDIRECTIONS: &[Row] = &[
    "printf abc >f; printf xy 1<>f => exits 0, f 0600 xyc",
    "printf abc >f; printf xy >f => exits 0, f 0600 xy",
    "printf abc >f; : >f => exits 0, f 0600 ",
    "printf abc >f; printf '' 1<>f => exits 0, f 0600 abc",
    "cp d f; printf x 1<>f => exits 0, f 0644 x123456789",
    "printf a >f >g => exits 0, f 0600 ",
    "printf a >f 2>&1 >/dev/null => exits 0, f 0600 ",
    "printf a 2>f 1>&2 => exits 0, f 0600 a",
    "printf a 1>&2 2>f => exits 0, f 0600 ",
    "printf a >&2 => exits 0",
    ": <>f => exits 0, f 0600 ",
    "no 2>f => exits 127, f 0600 ",
    ": >\"$(printf f)\" => exits 0, f 0600 ",
    "x=$(printf a >f); printf \"<$x>\" => exits 0, out <>, f 0600 a",
    "x=$(printf b) >f; printf \"$x\" => exits 0, out b, f 0600 ",
    ": <missing\nexit 3\n => exits 1",
    ": <no || exit 3 => exits 1",
    "exec <no; exit 3 => exits 1",
    "exit 3 <no => exits 1",
    "true <no; exit 3 => exits 3",
    "<no; exit => exits 1",
    "cp d g <no >f => exits 1",
    "cp d g >f <no => exits 1, f 0600 ",
    "x=1 <no; exit \"${x:-4}\" => exits 4",
    "x=$(: <no); exit 5 => exits 5",
    ": </dev/null => exits 0",
    "chmod 000 d; cp d f; printf x >f => exits 0, f 0000 x",
];

const LISTS: &[Row] = &[
    " => exits 0",
    "false || true && exit 5 => exits 5",
    "false && exit 4 => exits 1",
    "false ||\n\n # c\n exit 4\n => exits 4",
    "if false; then exit 4; fi => exits 0",
    "if true; then false; else exit 3; fi => exits 1",
    "if false; then exit 3; else exit 4; fi => exits 4",
    "if exit 6; then :; fi => exits 6",
    "exit 7 # c\n) => exits 7",
    "x=1 exit 5\n) => exits 5",
    ": >f; echo $x => outside 6",
    ": ; 'a => outside 4",
    "\"exit\" 3\n) => outside 9",
];

/// Utility calls that fail, whether `ape` is found, TMPDIR, and a row.
type Told = (&'static [u32], bool, Option<&'static [u8]>, Row);

const TOLD: &[Told] = &[
    (&[1], false, None, "cp d f || exit 9 => exits 9"),
    (
        &[1],
        false,
        None,
        "uname -m >f || exit 9 => exits 9, f 0600 ",
    ),
    (
        &[2],
        false,
        None,
        "x=$(uname -m); cp d f || exit 9 => exits 9",
    ),
    (
        &[1],
        false,
        None,
        "cp d f <no; uname -m || exit 9 => exits 9",
    ),
    (
        &[2, 3],
        false,
        None,
        "cp d f; chmod 700 f; cp d g; exit => exits 1, f 0644 0123456789",
    ),
    (
        &[],
        true,
        None,
        "command -v ape >f 2>&1 && exec ape \"$0\" \"$@\" => execs ape [app] [1] [2 3], f 0600 ape\n",
    ),
    (&[], true, None, "ape => exits 127"),
    (
        &[],
        false,
        Some(b"/t"),
        "printf \"${TMPDIR:-/tmp}\" => exits 0, out /t",
    ),
    (
        &[],
        false,
        Some(b"/t m'p *$x\n"),
        "t=\"${TMPDIR:-/tmp}/ape.$$\"; cp d \"$t\"; chmod 700 \"$t\"; cp \"$t\" f; exec \"$t\" \"$@\" => \
         execs /t m'p *$x\n/ape.7 [1] [2 3], f 0700 0123456789",
    ),
];

#[test]
fn scripts_do_what_they_mean(rt: HostRuntime) -> Result<(), Fail> {
    for rows in [COMMANDS, WORDS, REDIRECTIONS, LISTS] {
        for row in rows {
            runs(&rt, rt.alloc(), &(&[], false, None, *row))?;
        }
    }
    for told in TOLD {
        runs(&rt, rt.alloc(), told)?;
    }
    Ok(())
}

fn runs(rt: &impl Abort, alloc: Global, told: &Told) -> Result<(), Fail> {
    let (text, wanted) = told.3.split_once(" => ").ok_or("no answer")?;
    let env = env_of(alloc, told)?;
    let mut host = host(alloc)?;
    let outcome = run_script(alloc, text.as_bytes(), Nul::Keep, &env, &mut host);
    let found = shown(alloc, &outcome, &host)?;
    assert!(rt;
        found.as_slice() == wanted.as_bytes(),
        "{text} => {found:?}"
    );
    Ok(())
}

fn env_of(alloc: Global, told: &Told) -> Result<Env, AllocError> {
    let args = arguments(alloc)?;
    let tmpdir = match told.2 {
        Some(text) => Some(Items::from_slice(alloc, text)?),
        None => None,
    };
    Ok(Env {
        zero: Items::from_slice(alloc, b"app")?,
        args,
        tmpdir,
        pid: 7,
        machine: Items::from_slice(alloc, b"x86_64")?,
        system: Items::from_slice(alloc, b"Linux")?,
        ape: told.1,
        fails: Items::from_slice(alloc, told.0)?,
    })
}

fn host(alloc: Global) -> Result<Host, AllocError> {
    let mut files = Files::new(alloc);
    for (name, bytes, mode) in [
        (b"d".as_slice(), b"0123456789".as_slice(), 0o644),
        (b"./x", b"", 0o755),
        (b"/n", b"", 0o644),
    ] {
        let bytes = Items::from_slice(alloc, bytes)?;
        files.insert(alloc, name, HostFile { bytes, mode })?;
    }
    let out = Items::new(alloc);
    Ok(Host { files, out })
}

fn shown(
    alloc: Global,
    ended: &Result<Outcome, ShellFault>,
    host: &Host,
) -> Result<Vec<u8>, AllocError> {
    let mut shown = end_text(alloc, ended)?;
    if !host.out.is_empty() {
        shown.extend_from_slice(b", out ")?;
        shown.extend_from_slice(host.out.as_slice())?;
    }
    if let Some(file) = host.files.get(b"f") {
        let mode = file.mode;
        let line = format!(in alloc; ", f 0{}{}{} ", mode / 64, mode / 8 % 8, mode % 8)?;
        shown.extend_from_slice(line.as_bytes())?;
        shown.extend_from_slice(file.bytes.as_slice())?;
    }
    Ok(shown)
}
