// The structures read from bytes.
ghost use Rattle.std.specs.Prelude.{◌≡◌, ◌+◌, ◌≤◌, length};
ghost use Rattle.ap_mach.specs.declared.constants.TheConstants.{HEADER_SIZE, COMMAND_SIZE, SEGMENT_SIZE, THREAD_SIZE};
ghost use Rattle.ap_mach.specs.Format.{header_of, command_by, segment_at, thread_at, parts_by};

use crate::types::{Command, CommandParts, MachHeader, SegmentCommand, ThreadCommand};
use ap_fields::{le32, le64};

/// The header that bytes begin with.
#[tactic(auto, unfolding(crate::specs::Format::header_of))]
pub fn header(b: &[u8]) -> MachHeader
    requires { HEADER_SIZE ≤ length b.now }
    ensures { result ≡ header_of b.now }
{
    MachHeader {
        magic: le32(b, 0),
        cpu: le32(b, 4),
        kind: le32(b, 12),
        count: le32(b, 16),
        size: le32(b, 20),
    }
}

/// The command at the place `at` of a file, whose bytes stand from `from` on.
#[tactic(auto, unfolding(crate::specs::Format::command_by))]
pub fn front(at: u64, b: &[u8], from: usize) -> Command
    requires { from + COMMAND_SIZE ≤ length b.now }
    ensures is { result ≡ command_by at b.now from }
    ensures place { result.at ≡ at }
{
    Command {
        kind: le32(b, from),
        at,
        size: le32(b, from + 4),
    }
}

// The fields of a segment command that bytes begin with.
#[tactic(auto, unfolding(crate::specs::Format::segment_at))]
fn segment(b: &[u8]) -> SegmentCommand
    requires { SEGMENT_SIZE ≤ length b.now }
    ensures { result ≡ segment_at b.now 0 }
{
    SegmentCommand {
        vmaddr: le64(b, 24),
        vmsize: le64(b, 32),
        fileoff: le64(b, 40),
        filesize: le64(b, 48),
        initprot: le32(b, 60),
    }
}

// The fields of a thread command that bytes begin with.
#[tactic(auto, unfolding(crate::specs::Format::thread_at))]
fn thread(b: &[u8]) -> ThreadCommand
    requires { THREAD_SIZE ≤ length b.now }
    ensures { result ≡ thread_at b.now 0 }
{
    ThreadCommand {
        flavor: le32(b, 8),
        count: le32(b, 12),
        start: le64(b, 144),
    }
}

/// The command at the place `at` of a file, whose bytes these begin with, with its fields.
#[tactic(auto, unfolding(crate::specs::Format::parts_by))]
pub fn parts(at: u64, b: &[u8]) -> CommandParts
    requires { THREAD_SIZE ≤ length b.now }
    ensures is { result ≡ parts_by at b.now 0 }
    ensures place { result.front.at ≡ at }
{
    CommandParts {
        front: front(at, b, 0),
        segment: segment(b),
        thread: thread(b),
    }
}
