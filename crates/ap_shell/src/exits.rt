// `exit` and `exec`. Each error is want of memory.
ghost use Rattle.std.specs.Prelude.{◌≡◌, IfOk, option_map, Option};
ghost use Rattle.ap_octal.specs.DdPlace.{is_digit};
ghost use Rattle.ap_shell.specs.EndCommands as spec;
ghost use Rattle.ap_shell.specs.declared.map.HostFile.{HostFile};
ghost use Rattle.ap_shell.specs.declared.types.Outcome.TheVariants.{Execs};

use crate::copies::{copy, copy_words};
use crate::done::{Done, plain, stopping};
use crate::map::Files;
use crate::places::mode_at;
use crate::types::Outcome;
use sqlite_items::Items;
use std::alloc::{AllocError, Global};

/// `exit` after a command with this status.
#[tactic(auto, unfolding(crate::specs::EndCommands::exit))]
pub fn exit(alloc: Global, words: &[Items<u8>], last: u8) -> Done
    ensures { result ≡ spec.exit words.now last }
{
    match words {
        [] => stopping(alloc, Outcome::Exits { status: last }),
        [number] => {
            let status = status_of(number.as_slice()).unwrap_or(2);
            stopping(alloc, Outcome::Exits { status })
        }
        _ => stopping(alloc, Outcome::Exits { status: 2 }),
    }
}

/// `exec` with these words.
#[tactic(auto, unfolding(crate::specs::EndCommands::exec))]
pub fn exec(
    alloc: Global,
    ape: bool,
    words: &[Items<u8>],
    files: &Files,
) -> Result<Done, AllocError>
    ensures { IfOk result (λ d. d ≡ spec.exec ape words.now files.now) }
{
    let [name, more @ ..] = words else {
        return Ok(plain(alloc, 0));
    };
    let outcome = started(alloc, ape, name.as_slice(), more, files)?;
    Ok(stopping(alloc, outcome))
}

fn started(
    alloc: Global,
    ape: bool,
    name: &[u8],
    words: &[Items<u8>],
    files: &Files,
) -> Result<Outcome, AllocError>
    ensures { IfOk result (λ o. o ≡ spec.started ape name.now words.now files.now) }
{
    if has_slash(name) {
        return started_file(alloc, mode_at(name, files), name, words);
    }
    if ape && name == b"ape".as_slice() {
        return execs(alloc, name, words);
    }
    Ok(Outcome::Exits { status: 127 })
}

fn started_file(
    alloc: Global,
    mode: Option<u16>,
    name: &[u8],
    words: &[Items<u8>],
) -> Result<Outcome, AllocError>
    ensures { (file : Option HostFile) → mode ≡ option_map (λ f. f.mode) file
        → IfOk result (λ o. o ≡ spec.started_file file name.now words.now) }
{
    match mode {
        None => Ok(Outcome::Exits { status: 127 }),
        Some(mode) => {
            if mode / 64 % 2 == 1 {
                execs(alloc, name, words)
            } else {
                Ok(Outcome::Exits { status: 126 })
            }
        }
    }
}

fn execs(alloc: Global, name: &[u8], words: &[Items<u8>]) -> Result<Outcome, AllocError>
    ensures { IfOk result (λ o. o ≡ Execs name.now words.now) }
{
    let path = copy(alloc, name)?;
    let words = copy_words(alloc, words)?;
    Ok(Outcome::Execs { path, words })
}

fn has_slash(name: &[u8]) -> bool
    ensures { result ≡ spec.has_slash name.now }
{
    name.iter().any(|b| *b == b'/')
}

// The status that a number from 0 to 255 in decimal spells.
fn status_of(text: &[u8]) -> Option<u8>
    ensures { result ≡ spec.status_of text.now }
{
    if text.is_empty() {
        return None;
    }
    let mut status = 0;
    for digit in text {
        if !is_digit(*digit) {
            return None;
        }
        status = status * 10 + (*digit - b'0') as u16;
        if status > 255 {
            return None;
        }
    }
    Some(status as u8)
}

fn is_digit(byte: u8) -> bool
    ensures { result ≡ is_digit byte }
{
    b'0' <= byte && byte <= b'9'
}
