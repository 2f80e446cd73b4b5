// `cp` and `chmod`. Each error is want of memory.
ghost use Rattle.std.specs.Prelude.{◌≡◌, IfOk, Some};
ghost use Rattle.ap_octal.specs.OctalReading.{is_octal_digit};
ghost use Rattle.ap_shell.specs.Places.{file_at, host_file};
ghost use Rattle.ap_shell.specs.FileCommands as spec;

use crate::done::{Done, plain};
use crate::map::{Files, HostFile};
use crate::places::{file_at, host_file, mode_at, with_file};
use sqlite_items::Items;
use std::alloc::{AllocError, Global};

/// `cp A B`.
#[tactic(auto, unfolding(crate::specs::FileCommands::cp))]
pub fn cp(alloc: Global, words: &[Items<u8>], files: &mut Files) -> Result<Done, AllocError>
    ensures { IfOk result (λ d. (d, files.new) ≡ spec.cp words.now files.old) }
{
    let [a, b] = words else {
        return Ok(plain(alloc, 1));
    };
    if is_refused(a.as_slice(), b.as_slice()) {
        return Ok(plain(alloc, 1));
    }
    put_copy(alloc, a.as_slice(), b.as_slice(), files)
}

/// `chmod DDD F`.
#[tactic(auto, unfolding(crate::specs::FileCommands::chmod))]
pub fn chmod(alloc: Global, words: &[Items<u8>], files: &mut Files) -> Result<Done, AllocError>
    ensures { IfOk result (λ d. (d, files.new) ≡ spec.chmod words.now files.old) }
{
    let [mode, name] = words else {
        return Ok(plain(alloc, 1));
    };
    match mode_of(mode.as_slice()) {
        None => Ok(plain(alloc, 1)),
        Some(mode) => set_mode(alloc, mode, name.as_slice(), files),
    }
}

// A name that begins with `-`, or the same name twice.
fn is_refused(a: &[u8], b: &[u8]) -> bool
    ensures { result ≡ spec.refused a.now b.now }
{
    begins_with(b'-', a) || begins_with(b'-', b) || a == b
}

fn begins_with(byte: u8, text: &[u8]) -> bool
    ensures { result ≡ spec.begins_with byte text.now }
{
    match text.first() {
        Some(first) => *first == byte,
        None => false,
    }
}

fn put_copy(alloc: Global, a: &[u8], b: &[u8], files: &mut Files) -> Result<Done, AllocError>
    ensures { IfOk result (λ d. (d, files.new)
        ≡ spec.copied (file_at a.now files.old) b.now files.old) }
{
    let Some(from) = file_at(alloc, a, files)? else {
        return Ok(plain(alloc, 1));
    };
    let mode = mode_at(b, files).unwrap_or(from.mode);
    let copy = HostFile {
        bytes: from.bytes,
        mode,
    };
    with_file(alloc, b, copy, files)?;
    Ok(plain(alloc, 0))
}

fn set_mode(alloc: Global, mode: u16, name: &[u8], files: &mut Files) -> Result<Done, AllocError>
    ensures { IfOk result (λ d. (d, files.new)
        ≡ spec.set_mode (Some mode) (host_file name.now files.old) name.now files.old) }
{
    let Some(file) = host_file(alloc, name, files)? else {
        return Ok(plain(alloc, 1));
    };
    let bytes = file.bytes;
    with_file(alloc, name, HostFile { bytes, mode }, files)?;
    Ok(plain(alloc, 0))
}

// The mode that three octal digits spell.
fn mode_of(text: &[u8]) -> Option<u16>
    ensures { result ≡ spec.mode_of text.now }
{
    let [a, b, c] = text else {
        return None;
    };
    if is_octal_digit(*a) && is_octal_digit(*b) && is_octal_digit(*c) {
        Some(((*a - b'0') as u16 * 8 + (*b - b'0') as u16) * 8 + (*c - b'0') as u16)
    } else {
        None
    }
}

fn is_octal_digit(byte: u8) -> bool
    ensures { result ≡ is_octal_digit byte }
{
    b'0' <= byte && byte <= b'7'
}
