// Marks of the places at which a name stands among the strings, so that a symbol's name needn't be read where it
// can't be the one that is looked for.
ghost use Rattle.std.specs.Prelude.{◌≡◌, ◌+◌, ◌%◌, ◌^◌, ◌≤◌, ◌<◌, ℕ, length, take, drop, true};
ghost use Rattle.ap_files.specs.Reads.{Reads};
ghost use Rattle.ap_elf.specs.Symbols.{strings_of, stands_at, with_nul, HasTables};
ghost use Rattle.ap_elf.specs.Seen.{may_stand, IsMarked, KeepsMarks};

use crate::seen::{ROOM, put_name};
use crate::strings::PIECE;
use crate::types::Tables;
use ap_files::{Failed, Files};
use memchr::memmem::Finder;

/// Whether the marks leave open that a name stands at a place. No marks leave it open everywhere.
pub(crate) fn may_stand(marks: &[bool], at: u64) -> bool
    ensures { result ≡ may_stand marks.now at }
{
    if marks.is_empty() {
        return true;
    }
    marks[place_of(marks, at)]
}

// The mark of a place. Places that lie a multiple of the marks' number apart share one.
fn place_of(marks: &[bool], at: u64) -> usize
    requires { 0 < length marks.now }
    ensures below { result < length marks.now }
    ensures value { result ≡ at % length marks.now }
{
    (at % marks.len() as u64) as usize
}

/// Marks the places at which a short name stands among the strings of a file.
///
/// `Failed`: a read failed.
pub(crate) fn mark_name_in<F: Files>(
    files: &mut F,
    name: &str,
    t: &Tables,
    wanted: &[u8],
    marks: &mut [bool],
) -> Result<(), Failed>
    requires short { length wanted.now < ROOM }
    requires some { 0 < length marks.old }
    requires tables { HasTables (F.state files.old).kept name.now t.now }
    ensures { Reads (F.state files.old) (F.state files.new) name.now
        (λ b _. IsMarked (strings_of b t.now) (with_nul wanted.now) marks.new) result }
{
    let mut room = [0; ROOM];
    put_name(&mut room, wanted);
    mark_in(files, name, t, &room[..wanted.len() + 1], marks)
}

// Marks the places at which a text that isn't empty stands among the strings, piece by piece.
pub(crate) fn mark_in<F: Files>(
    files: &mut F,
    name: &str,
    t: &Tables,
    text: &[u8],
    marks: &mut [bool],
) -> Result<(), Failed>
    requires text { 0 < length text.now }
    requires short { length text.now ≤ ROOM }
    requires some { 0 < length marks.old }
    requires tables { HasTables (F.state files.old).kept name.now t.now }
    ensures { Reads (F.state files.old) (F.state files.new) name.now
        (λ b _. IsMarked (strings_of b t.now) text.now marks.new) result }
{
    let mut at = 0;
    while at + text.len() as u64 <= t.length {
        let count = (t.length - at).min(PIECE as u64);
        mark_piece_in(files, name, t, text, at, count as usize, marks)?;
        at += count - text.len() as u64 + 1;
    }
    Ok(())
}

// Marks the places at which a text stands among the `count` bytes of the strings from `at` on.
fn mark_piece_in<F: Files>(
    files: &mut F,
    name: &str,
    t: &Tables,
    text: &[u8],
    at: u64,
    count: usize,
    marks: &mut [bool],
) -> Result<(), Failed>
    requires piece { count ≤ PIECE }
    requires inside { at + count ≤ t.now.length }
    requires text { 0 < length text.now }
    requires some { 0 < length marks.old }
    requires tables { HasTables (F.state files.old).kept name.now t.now }
    ensures marked { Reads (F.state files.old) (F.state files.new) name.now
        (λ b _. (k : ℕ) → stands_at (take count (drop at (strings_of b t.now))) text.now k ≡ true
        → may_stand marks.new (at + k) ≡ true) result }
    ensures kept { KeepsMarks marks.old marks.new }
{
    let mut room = [0; PIECE];
    let part = &mut room[..count];
    files.read_at(name, t.strings + at, part)?;
    mark_part(part, text, at, marks);
    Ok(())
}

// Marks the places at which a text stands in a part of the strings, which begins at `at`.
fn mark_part(part: &[u8], text: &[u8], at: u64, marks: &mut [bool])
    requires small { at + length part.now ≤ 2 ^ 63 }
    requires text { 0 < length text.now }
    requires some { 0 < length marks.old }
    ensures marked { (k : ℕ) → stands_at part.now text.now k ≡ true → may_stand marks.new (at + k) ≡ true }
    ensures kept { KeepsMarks marks.old marks.new }
{
    let finder = Finder::new(text);
    let mut from = 0;
    while from < part.len() {
        match finder.find(&part[from..]) {
            Some(place) => {
                mark(marks, at + (from + place) as u64);
                from += place + 1;
            }
            None => return,
        }
    }
}

/// Marks a place.
pub(crate) fn mark(marks: &mut [bool], at: u64)
    requires { 0 < length marks.old }
    ensures marked { may_stand marks.new at ≡ true }
    ensures kept { KeepsMarks marks.old marks.new }
{
    let place = place_of(marks, at);
    marks[place] = true;
}
