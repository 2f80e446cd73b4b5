// `dd`. Each error is want of memory.
ghost use Rattle.std.specs.Prelude.{◌≡◌, IfOk};
ghost use Rattle.ap_shell.specs.Places.{file_at};
ghost use Rattle.ap_shell.specs.DdCommand as spec;

use crate::copying::copied;
use crate::done::{Done, plain};
use crate::map::{Files, HostFile};
use crate::operands::{Blocks, blocks_of, is_notrunc, only_value};
use crate::places::{NEW_MODE, file_at, with_file};
use sqlite_items::Items;
use std::alloc::{AllocError, Global};

/// `dd` with its six operands.
#[tactic(auto, unfolding(crate::specs::DdCommand::dd))]
pub fn dd(alloc: Global, words: &[Items<u8>], files: &mut Files) -> Result<Done, AllocError>
    ensures { IfOk result (λ d. (d, files.new) ≡ spec.dd words.now files.old) }
{
    if words.len() != 6 || !is_notrunc(only_value(alloc, b"conv=", words)?) {
        return Ok(plain(alloc, 1));
    }
    let blocks = blocks_of(alloc, words)?;
    let input = only_value(alloc, b"if=", words)?;
    let output = only_value(alloc, b"of=", words)?;
    dd_with(alloc, blocks, input, output, files)
}

fn dd_with(
    alloc: Global,
    blocks: Option<Blocks>,
    input: Option<Items<u8>>,
    output: Option<Items<u8>>,
    files: &mut Files,
) -> Result<Done, AllocError>
    ensures { IfOk result (λ d. (d, files.new) ≡ spec.dd_with blocks input output files.old) }
{
    let Some(blocks) = blocks else {
        return Ok(plain(alloc, 1));
    };
    let Some(input) = input else {
        return Ok(plain(alloc, 1));
    };
    let Some(output) = output else {
        return Ok(plain(alloc, 1));
    };
    dd_on(alloc, blocks, input.as_slice(), output.as_slice(), files)
}

fn dd_on(
    alloc: Global,
    blocks: Blocks,
    input: &[u8],
    output: &[u8],
    files: &mut Files,
) -> Result<Done, AllocError>
    ensures { IfOk result (λ d. (d, files.new)
        ≡ spec.dd_on (file_at input.now files.old) blocks input.now output.now files.old) }
{
    let Some(from) = file_at(alloc, input, files)? else {
        return Ok(plain(alloc, 1));
    };
    let (old, mode) = match file_at(alloc, output, files)? {
        Some(file) => (file.bytes, file.mode),
        None => (Items::new(alloc), NEW_MODE),
    };
    let bytes = copied(
        alloc,
        input == output,
        blocks,
        from.bytes.as_slice(),
        old.as_slice(),
    )?;
    with_file(alloc, output, HostFile { bytes, mode }, files)?;
    Ok(plain(alloc, 0))
}
