// Which texts are scripts, and which script each is, as `show` writes it.
mod dispatch;
mod given;
mod shell;
mod show;
mod statements;

use ap_shparse::{Nul, ShellFault, parse};
use show::show;
use std::alloc::{AllocError, Global};
use std::test::Fail;

/// A text, and the answer: its script, or `outside` and a place.
type Row = (&'static [u8], Nul, &'static [u8]);

const ROWS: [Row; 79] = [
    // items and ends
    (b"", Nul::Keep, b""),
    (b"\n # c\n\t\n", Nul::Keep, b""),
    (b":", Nul::Keep, b"<':'>;"),
    (b": ; a|b", Nul::Keep, b"outside 4"),
    (b"true\nfor x in a", Nul::Keep, b"outside 5"),
    (b"# c\n a <<x", Nul::Keep, b"outside 5"),
    (b":;;", Nul::Keep, b"outside 2"),
    (b";", Nul::Keep, b"outside 0"),
    (b"a # b\n#c", Nul::Keep, b"<'a'>;"),
    (b"a#b", Nul::Keep, b"<'a#b'>;"),
    // NUL
    (b"\0\0)", Nul::Keep, b"outside 0"),
    (b"\0\0)", Nul::Drop, b"outside 2"),
    (b"tr\0ue", Nul::Keep, b"outside 0"),
    (b"tr\0ue", Nul::Drop, b"<'true'>;"),
    (b"a\0\n\0 )", Nul::Drop, b"outside 5"),
    (b": # a\0b\n: 'a\0b'", Nul::Keep, b"<':'>;<':'><'a\0b'>;"),
    (b": # a\0b\n: 'a\0b'", Nul::Drop, b"<':'>;<':'><'ab'>;"),
    (b"x=${a:-\0}", Nul::Keep, b"outside 0"),
    (b"x=\"${a:-\0}\"", Nul::Keep, b"x=<${a:-\0}> ;"),
    (
        b": <<'E'\na\0E\n\0E\nE\n",
        Nul::Keep,
        b"<':'>0<<'a\0E\n\0E\n' ;",
    ),
    (
        b": <<'E'\na\0E\n\0E\nE\n",
        Nul::Drop,
        b"<':'>0<<'aE\n' ;<'E'>;",
    ),
    // AND-OR lists
    (b"a ||", Nul::Keep, b"outside 0"),
    (b"a || b && c", Nul::Keep, b"<'a'>||<'b'>&&<'c'>;"),
    (
        b"false ||\n\n # c\n exit 4\n",
        Nul::Keep,
        b"<'false'>||<'exit'><'4'>;",
    ),
    (b"a & b", Nul::Keep, b"outside 0"),
    (b"a\nb ||| c", Nul::Keep, b"outside 2"),
    // if
    (b"if true\n", Nul::Keep, b"outside 0"),
    (
        b"if a; then b; fi",
        Nul::Keep,
        b"if <'a'>;then <'b'>;else fi;",
    ),
    (
        b"if a\nthen b; c\nelse d || e; fi && f\n",
        Nul::Keep,
        b"if <'a'>;then <'b'>;<'c'>;else <'d'>||<'e'>;fi&&<'f'>;",
    ),
    (b"if a; then fi", Nul::Keep, b"outside 0"),
    (b"if a; then b fi", Nul::Keep, b"outside 0"),
    (b"then", Nul::Keep, b"outside 0"),
    (b"x=1 while", Nul::Keep, b"x=<'1'> <'while'>;"),
    (b">f if", Nul::Keep, b"<'if'>1><'f'> ;"),
    (b"in a\nelif", Nul::Keep, b"outside 5"),
    (b"\"if\" a", Nul::Keep, b"<'if'><'a'>;"),
    // words
    (b"a'b c'\"d\\\"\\e\"f", Nul::Keep, b"<'ab cd\"\\ef'>;"),
    (b": ''", Nul::Keep, b"<':'><>;"),
    (b"[ a = b ]", Nul::Keep, b"<'['><'a'><'='><'b'><']'>;"),
    (b"[ a != b ]", Nul::Keep, b"<'['><'a'><'!='><'b'><']'>;"),
    (b": !a", Nul::Keep, b"outside 0"),
    (b": [a", Nul::Keep, b"outside 0"),
    (b": a[", Nul::Keep, b"outside 0"),
    (b": ~", Nul::Keep, b"outside 0"),
    (b": a~ a{b}", Nul::Keep, b"<':'><'a~'><'a{b}'>;"),
    (b": ; 'a", Nul::Keep, b"outside 4"),
    (b"echo $x", Nul::Keep, b"outside 0"),
    (b": \"`\"", Nul::Keep, b"outside 0"),
    (b"\"$@\" \"$@\"", Nul::Keep, b"<@><@>;"),
    (b"a\"$@\"", Nul::Keep, b"outside 0"),
    // expansions
    (
        b": \"a$b${c}$0$$0${d:-e f}g\"",
        Nul::Keep,
        b"<':'><'a'$b$c$0$$'0'${d:-e f}'g'>;",
    ),
    (
        b"x=$00 y={ z=!a w=#b v=",
        Nul::Keep,
        b"x=<$0'0'> y=<'{'> z=<'!a'> w=<'#b'> v=<> ;",
    ),
    (b"x=\"$1\"\n", Nul::Keep, b"outside 0"),
    (b"x=[", Nul::Keep, b"outside 0"),
    (b"x=a~", Nul::Keep, b"outside 0"),
    (b"x=\"$@\"", Nul::Keep, b"outside 0"),
    (
        b"x=$(a \"$y\" >f)b",
        Nul::Keep,
        b"x=<$(<'a'><$y>1><'f'> )'b'> ;",
    ),
    (b"x=$(: # c\n)\n", Nul::Keep, b"outside 0"),
    (b"x=\"$(a \"$(b)\")\"", Nul::Keep, b"outside 0"),
    (b"x=$( exit )", Nul::Keep, b"outside 0"),
    (b"x=$(\"exit\" 3)", Nul::Keep, b"x=<$(<'exit'><'3'>)> ;"),
    // redirections
    (b": >>f\n", Nul::Keep, b"outside 0"),
    (
        b": 2>a <b 1<> c >&2 2>& 1",
        Nul::Keep,
        b"<':'>2><'a'> 0<<'b'> 1<><'c'> 1>&2 2>&1 ;",
    ),
    (b": 3>a", Nul::Keep, b"outside 0"),
    (b": 10>a", Nul::Keep, b"outside 0"),
    (b": >&1>f", Nul::Keep, b"outside 0"),
    (b": >&12", Nul::Keep, b"outside 0"),
    (b": >1>f", Nul::Keep, b"outside 0"),
    // here-documents
    (
        b": <<'E'\nEx\nE\nexit 7\n)",
        Nul::Keep,
        b"<':'>0<<'Ex\n' ;<'exit'><'7'>;",
    ),
    (
        b": <<'E' 'a\nb'\nx\nE\nexit 3\n",
        Nul::Keep,
        b"<':'><'a\nb'>0<<'x\n' ;<'exit'><'3'>;",
    ),
    (b": <<'E'\nx\nE", Nul::Keep, b"<':'>0<<'x\n' ;"),
    (b": <<'E'x\nE\n", Nul::Keep, b"outside 0"),
    (b":\n: <<'E'\nEx\n", Nul::Keep, b"outside 2"),
    (
        b"a; b <<'E'; c <<'F' # d\nE\n1\nF\nd\n)",
        Nul::Keep,
        b"outside 32",
    ),
    (b"a; b <<'E'; c; )\nE\n", Nul::Keep, b"outside 3"),
    // stopping commands
    (b"exit 7 # c\n)", Nul::Keep, b"<'exit'><'7'>;"),
    (b"exec \"$@\"\n|", Nul::Keep, b"outside 10"),
    (
        b"x=1 exec \"$@\" a;)",
        Nul::Keep,
        b"x=<'1'> <'exec'><@><'a'>;",
    ),
    (b"\"exit\" 3\n)", Nul::Keep, b"outside 9"),
];

fn answer(alloc: Global, text: &[u8], nul: Nul) -> Result<Vec<u8>, AllocError> {
    match parse(alloc, text, nul) {
        Ok(script) => show(alloc, &script),
        Err(ShellFault::Outside { at }) => {
            let line = format!(in alloc; "outside {at}")?;
            Vec::from_slice(alloc, line.as_bytes())
        }
        Err(ShellFault::NoMemory) => Vec::from_slice(alloc, b"no memory"),
    }
}

/// The script of a linked file, with a body that holds NUL, and what it is with NUL kept and dropped.
const LINKED: &[u8] =
    b"jartsr='\n' <<'apelink00000001'\n\0'`$(\"\napelink0000\00000\0\napelink00000001\n\
    if command -v ape >/dev/null 2>&1; then\nexec ape \"$0\" \"$@\"\nfi\n\
    m=$(uname -m)\ns=$(uname -s)\nt=\"${TMPDIR:-/tmp}/ape.$$\"\n\
    if [ \"$s\" = Linux ] || [ \"$s\" = FreeBSD ]; then\n\
    if [ \"$m\" = x86_64 ]; then\ncp \"$0\" \"$t\" || exit 121\n\
    printf '\\177ELF' 1<>\"$t\" || exit 124\nexec \"$t\" \"$@\"\nfi\nfi\nexit 126\n\0\0)";

const LINKED_KEPT: &[u8] = b"jartsr=<'\n'> 0<<'\0'`$(\"\napelink0000\00000\0\n' ;";

const LINKED_DROPPED: &[u8] = b"jartsr=<'\n'> 0<<''`$(\"\napelink00000000\n' ;";

const LINKED_REST: &[u8] =
    b"if <'command'><'-v'><'ape'>1><'/dev/null'> 2>&1 ;then <'exec'><'ape'><$0><@>;else fi;\
    m=<$(<'uname'><'-m'>)> ;s=<$(<'uname'><'-s'>)> ;t=<${TMPDIR:-/tmp}'/ape.'$$> ;\
    if <'['><$s><'='><'Linux'><']'>||<'['><$s><'='><'FreeBSD'><']'>;then \
    if <'['><$m><'='><'x86_64'><']'>;then <'cp'><$0><$t>||<'exit'><'121'>;\
    <'printf'><'\\177ELF'>1<><$t> ||<'exit'><'124'>;<'exec'><$t><@>;else fi;else fi;<'exit'><'126'>;";

fn joined(alloc: Global, first: &[u8], second: &[u8]) -> Result<Vec<u8>, AllocError> {
    let mut both = Vec::from_slice(alloc, first)?;
    both.extend_from_slice(second)?;
    Ok(both)
}

/// `if` within `if`, so many deep.
fn nested(alloc: Global, depth: u32) -> Result<Vec<u8>, AllocError> {
    let mut text = Vec::new(alloc);
    for _level in 0..depth {
        text.extend_from_slice(b"if true; then\n")?;
    }
    text.extend_from_slice(b"exit 7\n")?;
    for _level in 0..depth {
        text.extend_from_slice(b"fi\n")?;
    }
    Ok(text)
}

#[test]
fn texts_are_scripts(rt: HostRuntime) -> Result<(), Fail> {
    for row in ROWS.as_slice() {
        let found = answer(rt.alloc(), row.0, row.1)?;
        assert!(rt; found.as_slice() == row.2, "{row:?}");
    }
    Ok(())
}

#[test]
fn linked_files_are_scripts_in_both_readings(rt: HostRuntime) -> Result<(), Fail> {
    let kept = answer(rt.alloc(), LINKED, Nul::Keep)?;
    let dropped = answer(rt.alloc(), LINKED, Nul::Drop)?;
    let wanted = joined(rt.alloc(), LINKED_KEPT, LINKED_REST)?;
    assert!(rt; kept.as_slice() == wanted.as_slice(), "{kept:?}");
    let wanted = joined(rt.alloc(), LINKED_DROPPED, LINKED_REST)?;
    assert!(rt; dropped.as_slice() == wanted.as_slice(), "{dropped:?}");
    Ok(())
}

#[test]
fn if_nests_64_deep(rt: HostRuntime) -> Result<(), Fail> {
    let deep = nested(rt.alloc(), 64)?;
    assert!(rt; parse(rt.alloc(), deep.as_slice(), Nul::Keep).is_ok());
    let deep = nested(rt.alloc(), 65)?;
    let found = answer(rt.alloc(), deep.as_slice(), Nul::Keep)?;
    assert!(rt; found.as_slice() == b"outside 0".as_slice());
    Ok(())
}
