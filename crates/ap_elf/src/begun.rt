// Whether the name of any symbol begins with a text, so that no name that begins so is looked for where none does.
ghost use Rattle.std.specs.Prelude.{◌≡◌, ◌*◌, ◌≤◌, ◌<◌, length, false};
ghost use Rattle.ap_files.specs.Files.{HasRange};
ghost use Rattle.ap_files.specs.Reads.{Reads};
ghost use Rattle.ap_elf.specs.Symbols.{strings_of, stands_at, symbols_from, HasTables};
ghost use Rattle.ap_elf.specs.Begun.{BeginsNot, NoneBegins, IsMarkedFor};

use crate::compare::piece_agrees_in;
use crate::constants::{SHN_UNDEF, SYM_SIZE};
use crate::lookup::{MARKS, SYMBOLS_AT_ONCE};
use crate::marks::{mark_in, may_stand};
use crate::read::symbol_from;
use crate::seen::ROOM;
use crate::types::{Symbol, Tables};
use ap_files::{Failed, Files};

/// Whether the name of a defined symbol begins with a text of 1 to 256 bytes: false only where none does. The strings are
/// read once, and so are the symbols.
///
/// `Failed`: a read failed.
pub fn any_begins_in<F: Files>(
    files: &mut F,
    name: &str,
    t: &Tables,
    text: &[u8],
) -> Result<bool, Failed>
    requires text { 0 < length text.now }
    requires short { length text.now ≤ ROOM }
    requires tables { HasTables (F.state files.old).kept name.now t.now }
    ensures { Reads (F.state files.old) (F.state files.new) name.now
        (λ b r. r ≡ false → NoneBegins (strings_of b t.now) text.now
        (symbols_from b t.now.at t.now.count)) result }
{
    let mut marks = [false; MARKS];
    mark_in(files, name, t, text, &mut marks)?;
    any_in(files, name, t, text, &marks)
}

// The same where the places of the text are marked.
fn any_in<F: Files>(
    files: &mut F,
    name: &str,
    t: &Tables,
    text: &[u8],
    marks: &[bool],
) -> Result<bool, Failed>
    requires short { length text.now ≤ ROOM }
    requires tables { HasTables (F.state files.old).kept name.now t.now }
    requires marks { IsMarkedFor (F.state files.old).kept name.now t.now text.now marks.now }
    ensures { Reads (F.state files.old) (F.state files.new) name.now
        (λ b r. r ≡ false → NoneBegins (strings_of b t.now) text.now
        (symbols_from b t.now.at t.now.count)) result }
{
    let mut done = 0;
    while done < t.count {
        let count = (t.count - done).min(SYMBOLS_AT_ONCE as u64);
        let at = t.at + SYM_SIZE as u64 * done;
        if block_begins_in(files, name, t, text, marks, at, count as usize)? {
            return Ok(true);
        }
        done += count;
    }
    Ok(false)
}

// Whether that of one of the `count` symbols from a place of the file on does.
fn block_begins_in<F: Files>(
    files: &mut F,
    name: &str,
    t: &Tables,
    text: &[u8],
    marks: &[bool],
    at: u64,
    count: usize,
) -> Result<bool, Failed>
    requires block { count ≤ SYMBOLS_AT_ONCE }
    requires range { HasRange (F.state files.old).kept name.now at (SYM_SIZE * count) }
    requires short { length text.now ≤ ROOM }
    requires tables { HasTables (F.state files.old).kept name.now t.now }
    requires marks { IsMarkedFor (F.state files.old).kept name.now t.now text.now marks.now }
    ensures { Reads (F.state files.old) (F.state files.new) name.now
        (λ b r. r ≡ false → NoneBegins (strings_of b t.now) text.now (symbols_from b at count))
        result }
{
    let mut room = [0; SYM_SIZE * SYMBOLS_AT_ONCE];
    let part = &mut room[..SYM_SIZE * count];
    files.read_at(name, at, part)?;
    part_begins_in(files, name, t, text, marks, part, count)
}

// Whether that of one of `count` symbols that were read does.
fn part_begins_in<F: Files>(
    files: &mut F,
    name: &str,
    t: &Tables,
    text: &[u8],
    marks: &[bool],
    part: &[u8],
    count: usize,
) -> Result<bool, Failed>
    requires part { SYM_SIZE * count ≤ length part.now }
    requires short { length text.now ≤ ROOM }
    requires tables { HasTables (F.state files.old).kept name.now t.now }
    requires marks { IsMarkedFor (F.state files.old).kept name.now t.now text.now marks.now }
    ensures { Reads (F.state files.old) (F.state files.new) name.now
        (λ b r. r ≡ false → NoneBegins (strings_of b t.now) text.now
        (symbols_from part.now 0 count)) result }
{
    for i in 0..count {
        let s = symbol_from(part, SYM_SIZE * i);
        if begins_in(files, name, t, text, marks, &s)? {
            return Ok(true);
        }
    }
    Ok(false)
}

// Whether that of a symbol does, which is read only where the marks leave it open.
fn begins_in<F: Files>(
    files: &mut F,
    name: &str,
    t: &Tables,
    text: &[u8],
    marks: &[bool],
    s: &Symbol,
) -> Result<bool, Failed>
    requires short { length text.now ≤ ROOM }
    requires tables { HasTables (F.state files.old).kept name.now t.now }
    requires marks { IsMarkedFor (F.state files.old).kept name.now t.now text.now marks.now }
    ensures { Reads (F.state files.old) (F.state files.new) name.now
        (λ b r. r ≡ false → BeginsNot (strings_of b t.now) text.now s.now) result }
{
    if s.section == SHN_UNDEF || !may_stand(marks, s.name as u64) {
        return Ok(false);
    }
    text_in(files, name, t, text, s.name as u64)
}

// Whether a text stands among the strings from a place on.
fn text_in<F: Files>(
    files: &mut F,
    name: &str,
    t: &Tables,
    text: &[u8],
    at: u64,
) -> Result<bool, Failed>
    requires short { length text.now ≤ ROOM }
    requires tables { HasTables (F.state files.old).kept name.now t.now }
    ensures { Reads (F.state files.old) (F.state files.new) name.now
        (λ b r. r ≡ stands_at (strings_of b t.now) text.now at) result }
{
    if at > t.length || text.len() as u64 > t.length - at {
        return Ok(false);
    }
    piece_agrees_in(files, name, t.strings + at, text)
}
