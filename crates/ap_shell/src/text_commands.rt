// The commands that print or compare texts. Each error is want of memory.
ghost use Rattle.std.specs.Prelude.{◌≡◌, IfOk};
ghost use Rattle.ap_octal.specs.OctalReading.{octal_bytes_of};
ghost use Rattle.ap_shell.specs.Ends as ends;
ghost use Rattle.ap_shell.specs.TextCommands as spec;

use crate::copies::copy;
use crate::done::{Done, plain, printing};
use crate::names::is_command;
use crate::types::Env;
use ap_octal::next_byte;
use sqlite_items::Items;
use std::alloc::{AllocError, Global};

/// `uname -m` and `uname -s`.
#[tactic(auto, unfolding(crate::specs::TextCommands::uname))]
pub fn uname(alloc: Global, env: &Env, words: &[Items<u8>]) -> Result<Done, AllocError>
    ensures { IfOk result (λ d. d ≡ spec.uname env.now words.now) }
{
    let [word] = words else {
        return Ok(plain(alloc, 1));
    };
    if word.as_slice() == b"-m".as_slice() {
        return line(alloc, env.machine.as_slice());
    }
    if word.as_slice() == b"-s".as_slice() {
        return line(alloc, env.system.as_slice());
    }
    Ok(plain(alloc, 1))
}

/// `printf T`.
#[tactic(auto, unfolding(crate::specs::TextCommands::printf))]
pub fn printf(alloc: Global, words: &[Items<u8>]) -> Result<Done, AllocError>
    ensures { IfOk result (λ d. d ≡ spec.printf words.now) }
{
    let [text] = words else {
        return Ok(plain(alloc, 1));
    };
    match octal_bytes(alloc, text.as_slice())? {
        Some(bytes) => Ok(printing(bytes)),
        None => Ok(plain(alloc, 1)),
    }
}

/// `command -v N`.
#[tactic(auto, unfolding(crate::specs::TextCommands::command_v))]
pub fn command_v(
    alloc: Global,
    inside: bool,
    ape: bool,
    words: &[Items<u8>],
) -> Result<Done, AllocError>
    ensures { IfOk result (λ d. d ≡ spec.command_v inside ape words.now) }
{
    let [option, name] = words else {
        return Ok(plain(alloc, 1));
    };
    if option.as_slice() == b"-v".as_slice() && is_command(inside, ape, name.as_slice()) {
        return line(alloc, name.as_slice());
    }
    Ok(plain(alloc, 1))
}

/// The status of `[` with these words.
#[tactic(auto, unfolding(crate::specs::TextCommands::test_status))]
pub fn test_status(words: &[Items<u8>]) -> u8
    ensures { result ≡ spec.test_status words.now }
{
    match words {
        [a, op, b, end] => {
            let status = compared(a.as_slice(), op.as_slice(), b.as_slice());
            closed(end.as_slice(), status)
        }
        [op, a, end] => {
            let status = measured(op.as_slice(), a.as_slice());
            closed(end.as_slice(), status)
        }
        _ => 2,
    }
}

fn closed(end: &[u8], status: u8) -> u8
    ensures { result ≡ spec.closed end.now status }
{
    if end == b"]".as_slice() { status } else { 2 }
}

fn compared(a: &[u8], op: &[u8], b: &[u8]) -> u8
    ensures { result ≡ spec.compared a.now op.now b.now }
{
    if op == b"=".as_slice() {
        holding(a == b)
    } else if op == b"!=".as_slice() {
        holding(a != b)
    } else {
        2
    }
}

fn measured(op: &[u8], a: &[u8]) -> u8
    ensures { result ≡ spec.measured op.now a.now }
{
    if op == b"-n".as_slice() {
        holding(!a.is_empty())
    } else if op == b"-z".as_slice() {
        holding(a.is_empty())
    } else {
        2
    }
}

fn holding(holds: bool) -> u8
    ensures { result ≡ ends.holding holds }
{
    if holds { 0 } else { 1 }
}

// Prints a text and a newline.
fn line(alloc: Global, text: &[u8]) -> Result<Done, AllocError>
    ensures { IfOk result (λ d. d ≡ spec.line text.now) }
{
    let mut printed = copy(alloc, text)?;
    printed.push(b'\n')?;
    Ok(printing(printed))
}

// The bytes that a text stands for as octal text, if it is one.
fn octal_bytes(alloc: Global, text: &[u8]) -> Result<Option<Items<u8>>, AllocError>
    ensures { IfOk result (λ o. o ≡ octal_bytes_of text.now) }
{
    let mut bytes = Items::new(alloc);
    let mut rest = text;
    while !rest.is_empty() {
        let Some((byte, width)) = next_byte(rest) else {
            return Ok(None);
        };
        bytes.push(byte)?;
        rest = &rest[width..];
    }
    Ok(Some(bytes))
}
