// The header and the commands of a file by its name: its first 32 bytes, and of each command the bytes of its fields, are read
// alone.
ghost use Rattle.std.specs.Prelude.{◌≡◌, ◌≤◌, take, IfOk};
ghost use Rattle.ap_files.specs.Reads.{HasSize, Reads};
ghost use Rattle.ap_mach.specs.Format.{parts_at};
ghost use Rattle.ap_mach.specs.Stages.{IsTaken, header_result};

use crate::check::refusal;
use crate::constants::{HEADER_SIZE, THREAD_SIZE};
use crate::fault::{MachCause, MachFault};
use crate::read::{header, parts};
use crate::rules::check_header;
use crate::types::{CommandParts, MachHeader};
use ap_files::{Failed, Files};

/// The header of a file by its name, where `size` is its length, or the first refusal of it. Its first 32 bytes are read, and
/// of a shorter file nothing.
///
/// `Failed`: a read failed.
pub fn header_in<F: Files>(
    files: &mut F,
    name: &str,
    size: u64,
) -> Result<Result<MachHeader, MachFault>, Failed>
    requires { HasSize (F.state files.old).kept name.now size }
    ensures read { Reads (F.state files.old) (F.state files.new) name.now
        (λ b h. h ≡ header_result b) result }
    ensures taken { IfOk result (λ r. IfOk r (λ h. IsTaken size h)) }
{
    if size < HEADER_SIZE as u64 {
        return Ok(Err(refusal(MachCause::Short, 0, size)));
    }
    let mut part = [0; HEADER_SIZE];
    files.read_at(name, 0, &mut part)?;
    let h = header(&part);
    if let Err(fault) = check_header(size, &h) {
        return Ok(Err(fault));
    }
    Ok(Ok(h))
}

/// The command at the place `at` of a file in which the commands end at `end`, with its fields, as far as these lie in the
/// commands. At most 184 bytes are read, and none behind the commands.
///
/// `Failed`: a read failed.
pub fn parts_in<F: Files>(
    files: &mut F,
    name: &str,
    size: u64,
    at: u64,
    end: u64,
) -> Result<CommandParts, Failed>
    requires size { HasSize (F.state files.old).kept name.now size }
    requires from { at ≤ end }
    requires end { end ≤ size }
    ensures read { Reads (F.state files.old) (F.state files.new) name.now
        (λ b found. found ≡ parts_at (take end b) at) result }
    ensures place { IfOk result (λ found. found.front.at ≡ at) }
{
    let mut room = [0; THREAD_SIZE];
    let count = (end - at).min(THREAD_SIZE as u64) as usize;
    files.read_at(name, at, &mut room[..count])?;
    Ok(parts(at, &room))
}
