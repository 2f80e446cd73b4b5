// The blocks that `dd` copies. Each error is want of memory.
ghost use Rattle.std.specs.Prelude.{◌≡◌, ◌≤◌, ◌<◌, ◌+◌, ◌^◌, IfOk, OnOk, length, take, drop, if◌then◌else◌};
ghost use Rattle.ap_fields.specs.Fields.{patched};
ghost use Rattle.ap_octal.specs.DdEffect.{dd_effect};

use crate::operands::Blocks;
use sqlite_items::Items;
use std::alloc::{AllocError, Global};

/// What `dd` makes of the output's bytes.
#[tactic(auto, unfolding(ap_octal::specs::DdEffect::dd_effect))]
pub fn copied(
    alloc: Global,
    onto_itself: bool,
    blocks: Blocks,
    input: &[u8],
    output: &[u8],
) -> Result<Items<u8>, AllocError>
    ensures { IfOk result (λ b. b
        ≡ dd_effect onto_itself blocks.size blocks.skip blocks.count input.now output.now) }
{
    let size = blocks.size as usize;
    let mut bytes = Vec::from_slice(alloc, output)?;
    let mut from = blocks.skip as usize * size;
    for i in 0..blocks.count {
        let block = next_block(alloc, onto_itself, input, bytes.as_slice(), from, size)?;
        if block.is_empty() {
            return Ok(Items::from_vec(bytes));
        }
        put_block(&mut bytes, i as usize * size, block.as_slice())?;
        from += size;
    }
    Ok(Items::from_vec(bytes))
}

// At most `size` bytes of the input from a place on, as it stands then.
fn next_block(
    alloc: Global,
    onto_itself: bool,
    input: &[u8],
    output: &[u8],
    from: usize,
    size: usize,
) -> Result<Vec<u8>, AllocError>
    requires { size < 2 ^ 32 }
    ensures bytes { IfOk result (λ b. b.items
        ≡ take size (drop from (if onto_itself then output.now else input.now))) }
    ensures there { IfOk result (λ b. 0 < length b.items → from + size < 2 ^ 64) }
{
    if onto_itself {
        block_at(alloc, output, from, size)
    } else {
        block_at(alloc, input, from, size)
    }
}

// At most `size` bytes of a file from a place on.
fn block_at(alloc: Global, file: &[u8], from: usize, size: usize) -> Result<Vec<u8>, AllocError>
    requires { size < 2 ^ 32 }
    ensures bytes { IfOk result (λ b. b.items ≡ take size (drop from file.now)) }
    ensures there { IfOk result (λ b. 0 < length b.items → from + size < 2 ^ 64) }
{
    if from >= file.len() {
        return Ok(Vec::new(alloc));
    }
    let end = file.len().min(from + size);
    Vec::from_slice(alloc, &file[from..end])
}

// Writes a block at a place, over what stands there.
fn put_block(bytes: &mut Vec<u8>, at: usize, block: &[u8]) -> Result<(), AllocError>
    requires { at + length block.now < 2 ^ 64 }
    ensures { OnOk result (bytes.new.items ≡ patched bytes.old.items at block.now) }
{
    let end = at + block.len();
    if end <= bytes.len() {
        put_within(bytes.as_mut_slice(), at, block);
        return Ok(());
    }
    bytes.truncate(at);
    bytes.extend_from_slice(block)
}

// The same, where no byte stands past the end.
fn put_within(bytes: &mut [u8], at: usize, block: &[u8])
    requires { at + length block.now ≤ length bytes.old }
    ensures { bytes.new ≡ patched bytes.old at block.now }
{
    bytes[at..at + block.len()].copy_from_slice(block);
}
