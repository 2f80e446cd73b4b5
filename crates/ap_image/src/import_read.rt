// What is read of an import directory, byte by byte.
ghost use Rattle.std.specs.Prelude.{◌≡◌, ◌+◌, ◌≤◌, ◌^◌, length};
ghost use Rattle.ap_image.specs.ImportWalk as spec;
ghost use Rattle.ap_image.specs.ImportWalk.{bytes_from, name_at, name_of};
ghost use Rattle.ap_image.specs.WalkSteps.{IsNear, Fetches, passed};

use crate::by_address::Cells;
use crate::import_place::{DirectoryEntry, ENTRY_SIZE, HINT_SIZE, MOST_NAME, WORD_SIZE};
use crate::import_step::{Step, WalkCause, WalkEnd, WalkFault, What};
use ap_fields::{le32, le64};

/// The entry at an address.
pub(crate) fn entry_at<C: Cells>(cells: &mut C, at: u64) -> Result<DirectoryEntry, WalkEnd>
    requires { at ≤ 2 ^ 62 }
    ensures { Fetches (C.state cells.old) (C.state cells.new) (λ memory. spec.entry_at memory at) result }
{
    let bytes = bytes_at::<ENTRY_SIZE, C>(cells, at)?;
    Ok(entry_of(&bytes))
}

#[tactic(auto, unfolding(crate::specs::ImportWalk::entry_of))]
fn entry_of(b: &[u8]) -> DirectoryEntry
    requires { 20 ≤ length b.now }
    ensures { result ≡ spec.entry_of b.now }
{
    DirectoryEntry {
        lookup: le32(b, 0),
        name: le32(b, 12),
        iat: le32(b, 16),
    }
}

/// The word at an address.
pub(crate) fn word_at<C: Cells>(cells: &mut C, at: u64) -> Result<u64, WalkEnd>
    requires { at ≤ 2 ^ 62 }
    ensures { Fetches (C.state cells.old) (C.state cells.new) (λ memory. spec.word_at memory at) result }
{
    let bytes = bytes_at::<WORD_SIZE, C>(cells, at)?;
    Ok(le64(&bytes, 0))
}

// The bytes from an address on.
fn bytes_at<const N: usize, C: Cells>(cells: &mut C, at: u64) -> Result<[u8; N], WalkEnd>
    requires { at + N ≤ 2 ^ 63 }
    ensures { Fetches (C.state cells.old) (C.state cells.new) (λ memory. bytes_from memory at N)
        result }
{
    let mut bytes = [0; N];
    for i in 0..N {
        bytes[i] = byte_at(cells, at + i as u64)?;
    }
    Ok(bytes)
}

/// The byte at an address.
pub(crate) fn byte_at<C: Cells>(cells: &mut C, a: u64) -> Result<u8, WalkEnd>
    ensures { Fetches (C.state cells.old) (C.state cells.new) (λ memory. spec.byte_at memory a) result }
{
    match cells.byte(a) {
        Ok(Some(byte)) => Ok(byte),
        Ok(None) => Err(WalkEnd::Fault(WalkFault {
            cause: WalkCause::NoCell,
            at: a,
        })),
        Err(_) => Err(WalkEnd::ReadFault),
    }
}

/// Reads the name of an item, up to its first NUL, and before it the hint of a word.
pub(crate) fn check_name<C: Cells>(cells: &mut C, step: &Step) -> Result<(), WalkEnd>
    requires { IsNear step.now }
    ensures { Fetches (C.state cells.old) (C.state cells.new)
        (λ memory. passed (name_of memory step.now)) result }
{
    match *step {
        Step::Entry { dll } => skip_name(cells, dll),
        Step::Word {
            what: What::Name { at },
            ..
        } => {
            bytes_at::<HINT_SIZE, C>(cells, at - HINT_SIZE as u64)?;
            skip_name(cells, at)
        }
        _ => Ok(()),
    }
}

// Reads a name.
fn skip_name<C: Cells>(cells: &mut C, start: u64) -> Result<(), WalkEnd>
    requires { start ≤ 2 ^ 62 }
    ensures { Fetches (C.state cells.old) (C.state cells.new) (λ memory. passed (name_at memory start))
        result }
{
    for i in 0..MOST_NAME + 1 {
        if byte_at(cells, start + i)? == 0 {
            return Ok(());
        }
    }
    Err(WalkEnd::Fault(WalkFault {
        cause: WalkCause::Long,
        at: start,
    }))
}
