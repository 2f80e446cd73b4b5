// Files that are read and written whole.
ghost use Rattle.std.specs.Prelude.{◌≡◌, ◌<◌, ◌^◌, IfOk, length};
ghost use Rattle.ap_files.specs.Reads.{HasSize, ReadsAll};
ghost use Rattle.ap_files.specs.Appends.{Makes, write_failure};

use crate::failure::Failed;
use crate::files::Files;
use crate::piece::append;
use std::alloc::Global;

/// How many bytes are read at once. A read straight into the new memory would want it filled first, which takes longer.
const PIECE: usize = 1 << 16;

/// Why the bytes of a file aren't answered.
#[derive(Clone, Copy, Debug, PartialEq, Eq)]
pub enum ReadAllFault {
    /// A read failed.
    Read,
    /// No memory is left for them.
    NoMemory,
}

/// All bytes of a file, where `size` is its length.
pub fn read_all<F: Files>(
    alloc: Global,
    files: &mut F,
    name: &str,
    size: usize,
) -> Result<Vec<u8>, ReadAllFault>
    requires size { HasSize (F.state files.old).kept name.now size }
    ensures bytes { ReadsAll (F.state files.old) (F.state files.new) name.now result }
    ensures length { IfOk result (λ bytes. length bytes.items ≡ size) }
{
    let Ok(mut bytes) = Vec::with_capacity(alloc, size) else {
        return Err(ReadAllFault::NoMemory);
    };
    let mut buffer = [0; PIECE];
    let mut done = 0;
    while done < size {
        let count = (size - done).min(PIECE);
        let part = &mut buffer[..count];
        if let Err(_) = files.read_at(name, done as u64, part) {
            return Err(ReadAllFault::Read);
        }
        if let Err(_) = bytes.extend_from_slice(part) {
            return Err(ReadAllFault::NoMemory);
        }
        done += count;
    }
    Ok(bytes)
}

/// Makes a file of these bytes.
///
/// `Failed`: a write failed; the file was not started, or it has the first of the bytes and is unfinished.
pub fn write_all<F: Files>(files: &mut F, name: &str, bytes: &[u8]) -> Result<(), Failed>
    ensures { Makes (F.state files.old) (F.state files.new) name.now bytes.now
        (write_failure result) }
{
    files.start(name)?;
    append(files, name, bytes)?;
    files.finish(name)
}
