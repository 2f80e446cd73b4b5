// The command that stands at a place.
ghost use Rattle.std.specs.Prelude.{◌≡◌, ◌≤◌, length};
ghost use Rattle.ap_mach.specs.MachReading.{is_whole};
ghost use Rattle.ap_mach.specs.Stages.{command_result};

use crate::constants::{COMMAND_ALIGNMENT, COMMAND_SIZE};
use crate::read::front;
use crate::types::Command;

/// The command that stands at `at` in a file whose commands end at `end`: its kind, its place and its size (loader.h,
/// `load_command`).
///
/// `None` comes exactly where 8 bytes don't lie before `end`, or the size is below 8, isn't a multiple of 8, or passes `end`.
#[tactic(auto, unfolding(crate::specs::Format::command_by))]
pub fn command(file: &[u8], at: u64, end: u64) -> Option<Command>
    requires from { at ≤ end }
    requires end { end ≤ length file.now }
    ensures { result ≡ command_result file.now at end }
{
    if end - at < COMMAND_SIZE as u64 {
        return None;
    }
    let found = front(at, file, at as usize);
    if is_whole(end, &found) {
        Some(found)
    } else {
        None
    }
}

/// Whether a command may have its size, where the commands end at `end`.
pub fn is_whole(end: u64, c: &Command) -> bool
    requires { c.now.at ≤ end }
    ensures { result ≡ is_whole end c.now }
{
    let room = end - c.at;
    let size = c.size as u64;
    room >= COMMAND_SIZE as u64
        && size >= COMMAND_SIZE as u64
        && size % COMMAND_ALIGNMENT as u64 == 0
        && size <= room
}
