// What is asked of header and commands.
ghost use Rattle.std.specs.Prelude.{◌≡◌, ◌+◌, ◌≤◌, OnOk};
ghost use Rattle.ap_mach.specs.MachReading as spec;
ghost use Rattle.ap_mach.specs.MachReading.{Checks, header_rules, front_rules, segment_rules, thread_rules};
ghost use Rattle.ap_mach.specs.Stages.{IsTaken};

use crate::check::{check_rules, refusal};
use crate::commands::is_whole;
use crate::constants::{
    CPU_TYPE_X86_64, HEADER_SIZE, LC_LOAD_DYLINKER, LC_MAIN, MH_EXECUTE, MH_MAGIC_64,
    MOST_COMMANDS, SEGMENT_ALIGNMENT, SEGMENT_SIZE, THREAD_SIZE, VM_PROT_ALL, X86_THREAD_STATE64,
    X86_THREAD_STATE64_COUNT,
};
use crate::fault::MachCause::{
    Aligned, CommandRange, CommandSize, Count, Cpu, Dynamic, FileType, Magic, Many, Order, Range,
    SegmentSize, Short, Sizes, Thread, Top,
};
use crate::fault::MachFault;
use crate::types::{Command, MachHeader, SegmentCommand, ThreadCommand};
use ap_elf::constants::ADDRESS_TOP;
use ap_image::MOST_REGIONS;

/// The rules of the header of a file of `size` bytes.
pub fn check_header(size: u64, h: &MachHeader) -> Result<(), MachFault>
    ensures rules { Checks result (header_rules size h.now) }
    ensures taken { OnOk result (IsTaken size h.now) }
{
    let end = HEADER_SIZE as u64 + h.size as u64;
    check_rules(&[
        (size >= HEADER_SIZE as u64, refusal(Short, 0, size)),
        (h.magic == MH_MAGIC_64, refusal(Magic, 0, h.magic as u64)),
        (h.cpu == CPU_TYPE_X86_64, refusal(Cpu, 0, h.cpu as u64)),
        (h.kind == MH_EXECUTE, refusal(FileType, 0, h.kind as u64)),
        (
            h.count <= MOST_COMMANDS as u32,
            refusal(Count, 0, h.count as u64),
        ),
        (end <= size, refusal(CommandRange, 0, h.size as u64)),
    ])
}

/// The rules of the command number `k`, whatever its kind, where the commands end at `end`.
pub fn check_command(end: u64, k: u16, c: &Command) -> Result<(), MachFault>
    requires { c.now.at ≤ end }
    ensures rules { Checks result (front_rules end k c.now) }
    ensures fits { OnOk result (c.now.at + c.now.size ≤ end) }
{
    let dynamic = c.kind == LC_MAIN || c.kind == LC_LOAD_DYLINKER;
    check_rules(&[
        (is_whole(end, c), refusal(CommandSize, k, c.at)),
        (!dynamic, refusal(Dynamic, k, c.kind as u64)),
    ])
}

/// The rules of the segment command number `k`, which has `size` bytes, in a file of `len` bytes, where `count` segments
/// before it map something, the last of them up to `low`.
pub fn check_segment(
    len: u64,
    k: u16,
    low: u64,
    count: usize,
    size: u32,
    s: &SegmentCommand,
) -> Result<(), MachFault>
    ensures { Checks result (segment_rules len k low count size s.now) }
{
    let bare = !maps(s);
    let within = s.filesize <= len && s.fileoff <= len - s.filesize;
    let below = s.vmsize <= ADDRESS_TOP && s.vmaddr <= ADDRESS_TOP - s.vmsize;
    check_rules(&[
        (
            size >= SEGMENT_SIZE as u32,
            refusal(SegmentSize, k, size as u64),
        ),
        (is_aligned(s), refusal(Aligned, k, s.vmaddr)),
        (s.filesize <= s.vmsize, refusal(Sizes, k, s.filesize)),
        (within, refusal(Range, k, s.fileoff)),
        (below, refusal(Top, k, s.vmaddr)),
        (bare || low <= s.vmaddr, refusal(Order, k, s.vmaddr)),
        (
            bare || count < MOST_REGIONS,
            refusal(Many, k, MOST_REGIONS as u64),
        ),
    ])
}

/// Whether a segment maps something.
pub fn maps(s: &SegmentCommand) -> bool
    ensures { result ≡ spec.maps s.now }
{
    s.initprot & VM_PROT_ALL != 0 && s.vmsize != 0
}

fn is_aligned(s: &SegmentCommand) -> bool
    ensures { result ≡ spec.is_aligned s.now }
{
    s.vmaddr % SEGMENT_ALIGNMENT == 0
        && s.vmsize % SEGMENT_ALIGNMENT == 0
        && s.fileoff % SEGMENT_ALIGNMENT == 0
}

/// The rules of the thread command number `k`, which has `size` bytes, where there was one before or not.
pub fn check_thread(k: u16, before: bool, size: u32, t: &ThreadCommand) -> Result<(), MachFault>
    ensures { Checks result (thread_rules k before size t.now) }
{
    let first = has_registers(size, t) && !before;
    check_rules(&[(first, refusal(Thread, k, size as u64))])
}

fn has_registers(size: u32, t: &ThreadCommand) -> bool
    ensures { result ≡ spec.has_registers size t.now }
{
    size >= THREAD_SIZE as u32
        && t.flavor == X86_THREAD_STATE64
        && t.count == X86_THREAD_STATE64_COUNT
}
