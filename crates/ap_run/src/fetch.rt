// Files that are read whole, and their lengths.
ghost use Rattle.ap_run.specs.Fetches.{Fetches, Measured};

use crate::end::{Cause, ReadingFault};
use ap_files::{Files, ReadAllFault, read_all};
use std::alloc::Global;

/// The most bytes of a file that is read: 2^30.
pub const MOST: u64 = 1 << 30;

/// The length of a file, of which there may be 2^30 bytes, or why it isn't read.
pub fn measure<F: Files>(files: &mut F, name: &str) -> Result<u64, Cause>
    ensures { Measured (F.state files.old) (F.state files.new) name.now result }
{
    let size = match files.size(name) {
        Ok(size) => size,
        Err(_) => return Err(Cause::ReadFault),
    };
    if size > MOST {
        return Err(Cause::Unread(ReadingFault::Large { size }));
    }
    Ok(size)
}

/// The bytes of a file, of which there may be 2^30, or why it isn't read.
pub fn fetch<F: Files>(alloc: Global, files: &mut F, name: &str) -> Result<Vec<u8>, Cause>
    ensures { Fetches (F.state files.old) (F.state files.new) name.now result }
{
    let size = match measure(files, name) {
        Ok(size) => size,
        Err(cause) => return Err(cause),
    };
    match read_all(alloc, files, name, size as usize) {
        Ok(file) => Ok(file),
        Err(ReadAllFault::NoMemory) => Err(Cause::NoMemory),
        Err(ReadAllFault::Read) => Err(Cause::ReadFault),
    }
}
