// The operands of `dd`. Each error is want of memory.
ghost use Rattle.std.specs.Prelude.{◌≡◌, ◌≤◌, IfOk, IsTrue, length};
ghost use Rattle.ap_shell.specs.DdCommand as spec;

use crate::copies::copy;
use ap_octal::short_number;
use sqlite_items::Items;
use std::alloc::{AllocError, Global};

/// The blocks of a `dd`: the bytes of each, how many are skipped, and how many are copied.
#[derive(Clone, Copy, Drop)]
pub struct Blocks {
    pub size: u32,
    pub skip: u32,
    pub count: u32,
}

/// Whether the value of `conv=` is the one that is taken.
pub fn is_notrunc(value: Option<Items<u8>>) -> bool
    ensures { result ≡ spec.is_notrunc value }
{
    match value {
        Some(value) => value.as_slice() == b"notrunc".as_slice(),
        None => false,
    }
}

/// The blocks that the operands name, if they name some.
pub fn blocks_of(alloc: Global, words: &[Items<u8>]) -> Result<Option<Blocks>, AllocError>
    ensures { IfOk result (λ o. o ≡ spec.blocks_of words.now) }
{
    let size = only_number(alloc, b"bs=", words)?;
    let skip = only_number(alloc, b"skip=", words)?;
    let count = only_number(alloc, b"count=", words)?;
    Ok(blocks_with(size, skip, count))
}

/// The value of an operand that stands once.
pub fn only_value(
    alloc: Global,
    name: &[u8],
    words: &[Items<u8>],
) -> Result<Option<Items<u8>>, AllocError>
    ensures { IfOk result (λ o. o ≡ spec.only_value name.now words.now) }
{
    let found = values(alloc, name, words)?;
    match found.as_slice() {
        [value] => Ok(Some(copy(alloc, value.as_slice())?)),
        _ => Ok(None),
    }
}

fn blocks_with(size: Option<u32>, skip: Option<u32>, count: Option<u32>) -> Option<Blocks>
    ensures { result ≡ spec.blocks_with size skip count }
{
    let size = size?;
    let skip = skip?;
    let count = count?;
    if size >= 1 {
        Some(Blocks { size, skip, count })
    } else {
        None
    }
}

fn only_number(alloc: Global, name: &[u8], words: &[Items<u8>]) -> Result<Option<u32>, AllocError>
    ensures { IfOk result (λ o. o ≡ spec.only_number name.now words.now) }
{
    match only_value(alloc, name, words)? {
        Some(value) => Ok(short_number(value.as_slice())),
        None => Ok(None),
    }
}

// What stands behind a name, in the words that begin with it.
fn values(alloc: Global, name: &[u8], words: &[Items<u8>]) -> Result<Items<Items<u8>>, AllocError>
    ensures { IfOk result (λ v. v ≡ spec.values name.now words.now) }
{
    let mut found = Items::new(alloc);
    for word in words {
        if is_front(name, word.as_slice()) {
            found.push(copy(alloc, &word.as_slice()[name.len()..])?)?;
        }
    }
    Ok(found)
}

// Whether the word begins with the name.
fn is_front(name: &[u8], word: &[u8]) -> bool
    ensures fits { IsTrue result → length name.now ≤ length word.now }
    ensures value { result ≡ spec.is_front name.now word.now }
{
    name.len() <= word.len() && &word[..name.len()] == name
}
