// Marks of the places that the symbols of a file name, made in one pass, so that the symbols needn't be read for a
// name that none of them has.
ghost use Rattle.std.specs.Prelude.{◌≡◌, ◌*◌, ◌≤◌, ◌<◌, length, false};
ghost use Rattle.ap_files.specs.Files.{HasRange};
ghost use Rattle.ap_files.specs.Reads.{Reads};
ghost use Rattle.ap_elf.specs.Symbols.{symbols_from, HasTables};
ghost use Rattle.ap_elf.specs.Seen.{KeepsMarks, IsNamedBy, AreNamed, ShareNone};

use crate::constants::{SHN_UNDEF, SYM_SIZE};
use crate::lookup::SYMBOLS_AT_ONCE;
use crate::marks::mark;
use crate::read::symbol_from;
use crate::types::{Symbol, Tables};
use ap_files::{Failed, Files};

/// Marks the places among the strings that the defined symbols of a file name.
///
/// `Failed`: a read failed.
pub fn mark_named_in<F: Files>(
    files: &mut F,
    name: &str,
    t: &Tables,
    marks: &mut [bool],
) -> Result<(), Failed>
    requires some { 0 < length marks.old }
    requires tables { HasTables (F.state files.old).kept name.now t.now }
    ensures { Reads (F.state files.old) (F.state files.new) name.now
        (λ b _. AreNamed marks.new (symbols_from b t.now.at t.now.count)) result }
{
    let mut done = 0;
    while done < t.count {
        let count = (t.count - done).min(SYMBOLS_AT_ONCE as u64);
        let at = t.at + SYM_SIZE as u64 * done;
        mark_block_in(files, name, at, count as usize, marks)?;
        done += count;
    }
    Ok(())
}

// Marks those of the `count` symbols from a place of the file on.
fn mark_block_in<F: Files>(
    files: &mut F,
    name: &str,
    at: u64,
    count: usize,
    marks: &mut [bool],
) -> Result<(), Failed>
    requires block { count ≤ SYMBOLS_AT_ONCE }
    requires some { 0 < length marks.old }
    requires range { HasRange (F.state files.old).kept name.now at (SYM_SIZE * count) }
    ensures marked { Reads (F.state files.old) (F.state files.new) name.now
        (λ b _. AreNamed marks.new (symbols_from b at count)) result }
    ensures kept { KeepsMarks marks.old marks.new }
{
    let mut room = [0; SYM_SIZE * SYMBOLS_AT_ONCE];
    let part = &mut room[..SYM_SIZE * count];
    files.read_at(name, at, part)?;
    mark_symbols(part, count, marks);
    Ok(())
}

// Marks those of `count` symbols that were read.
fn mark_symbols(part: &[u8], count: usize, marks: &mut [bool])
    requires part { SYM_SIZE * count ≤ length part.now }
    requires some { 0 < length marks.old }
    ensures marked { AreNamed marks.new (symbols_from part.now 0 count) }
    ensures kept { KeepsMarks marks.old marks.new }
{
    for i in 0..count {
        let s = symbol_from(part, SYM_SIZE * i);
        mark_symbol(&s, marks);
    }
}

// Marks the place that a symbol names, where it is defined.
fn mark_symbol(s: &Symbol, marks: &mut [bool])
    requires { 0 < length marks.old }
    ensures marked { IsNamedBy marks.new s.now }
    ensures kept { KeepsMarks marks.old marks.new }
{
    if s.section != SHN_UNDEF {
        mark(marks, s.name as u64);
    }
}

/// Whether two lists of marks leave the same place open, as far as this is told.
pub(crate) fn may_share(a: &[bool], b: &[bool]) -> bool
    ensures { result ≡ false → ShareNone a.now b.now }
{
    if a.is_empty() || a.len() != b.len() {
        return true;
    }
    for i in 0..a.len() {
        if a[i] && b[i] {
            return true;
        }
    }
    false
}
