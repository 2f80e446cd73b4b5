// The headers as bytes.
ghost use Rattle.std.specs.Prelude.{◌≡◌, ◌+◌, ◌*◌, ◌≤◌, ◌++◌, length};
ghost use Rattle.ap_fields.specs.declared.sizes.TheConstants.{MOST_LOADS};
ghost use Rattle.ap_mach.specs.declared.constants.TheConstants.{MOST_HEADERS, SEGMENT_SIZE};
ghost use Rattle.ap_mach.specs.Segments as segments_spec;
ghost use Rattle.ap_mach.specs.Segments.{load_segments, segment_table};
ghost use Rattle.ap_mach.specs.Written as spec;
ghost use Rattle.ap_mach.specs.Written.{IsProgram};

use crate::constants::{
    CPU_SUBTYPE_X86_64_ALL, CPU_TYPE_X86_64, HEADER_SIZE, LC_SEGMENT_64, LC_UNIXTHREAD, MH_EXECUTE,
    MH_MAGIC_64, MH_NOUNDEFS, MOST_HEADERS, SEGMENT_SIZE, THREAD_SIZE, VM_PROT_ALL,
    X86_THREAD_STATE64, X86_THREAD_STATE64_COUNT, ZERO_NAME,
};
use crate::segments::{load_name, load_segment, zero_segment};
use crate::types::SegmentCommand;
use ap_check::Load;
use ap_fields::{put32, put64};
use ap_layout::Area;
use arrayvec::ArrayVec;

pub(crate) type Bytes = ArrayVec<u8, MOST_HEADERS>;

/// The Mach-O headers of a program that starts at `start` and whose loads have these areas of the linked file: the header, a
/// segment command for what stands in front of the first load, one for each load, and a thread command.
pub fn mach_headers(start: u64, loads: &[Load], areas: &[Area]) -> ArrayVec<u8, MOST_HEADERS>
    requires { IsProgram loads.now areas.now }
    ensures { result.items ≡ spec.mach_headers start loads.now areas.now }
{
    let zero = zero_segment(loads);
    let mut bytes = ArrayVec::new();
    push_bytes(&mut bytes, &header(loads.len() as u32));
    push_bytes(&mut bytes, &segment_command(ZERO_NAME, 0, &zero));
    push_loads(&mut bytes, loads, areas);
    push_bytes(&mut bytes, &thread_command(start));
    bytes
}

// Appends bytes, for which there is room.
fn push_bytes(out: &mut Bytes, piece: &[u8])
    requires { length out.old.items + length piece.now ≤ MOST_HEADERS }
    ensures { out.new.items ≡ out.old.items ++ piece.now }
{
    for byte in piece {
        out.push(*byte);
    }
}

// Appends the segment commands of loads.
#[tactic(auto, using(crate::proofs::SegmentTables::table_steps))]
fn push_loads(out: &mut Bytes, loads: &[Load], areas: &[Area])
    requires room { length out.old.items + SEGMENT_SIZE * length loads.now ≤ MOST_HEADERS }
    requires program { IsProgram loads.now areas.now }
    ensures items { out.new.items
        ≡ out.old.items ++ segment_table 1 (load_segments loads.now areas.now) }
    ensures long { length out.new.items
        ≡ length out.old.items + SEGMENT_SIZE * length loads.now }
{
    let mut k = 1;
    for i in 0..loads.len() {
        let segment = load_segment(&loads[i], &areas[i]);
        push_bytes(out, &segment_command(load_name(k), VM_PROT_ALL, &segment));
        k += 1;
    }
}

// The header of a program of so many loads.
fn header(loads: u32) -> [u8; HEADER_SIZE]
    requires { loads ≤ MOST_LOADS }
    ensures { result ≡ spec.header loads }
{
    let mut bytes = [0; HEADER_SIZE];
    put32(&mut bytes, 0, MH_MAGIC_64);
    put32(&mut bytes, 4, CPU_TYPE_X86_64);
    put32(&mut bytes, 8, CPU_SUBTYPE_X86_64_ALL);
    put32(&mut bytes, 12, MH_EXECUTE);
    put32(&mut bytes, 16, loads + 2);
    put32(&mut bytes, 20, written_size(loads));
    put32(&mut bytes, 24, MH_NOUNDEFS);
    bytes
}

// How many bytes the commands of a program of so many loads have.
fn written_size(loads: u32) -> u32
    requires { loads ≤ MOST_LOADS }
    ensures { result ≡ spec.written_size loads }
{
    SEGMENT_SIZE as u32 * (loads + 1) + THREAD_SIZE as u32
}

// A segment command, with a name and the most that may be done with the memory.
fn segment_command(name: u64, most: u32, s: &SegmentCommand) -> [u8; SEGMENT_SIZE]
    ensures { result ≡ segments_spec.segment_command name most s.now }
{
    let mut bytes = [0; SEGMENT_SIZE];
    put32(&mut bytes, 0, LC_SEGMENT_64);
    put32(&mut bytes, 4, SEGMENT_SIZE as u32);
    put64(&mut bytes, 8, name);
    put64(&mut bytes, 24, s.vmaddr);
    put64(&mut bytes, 32, s.vmsize);
    put64(&mut bytes, 40, s.fileoff);
    put64(&mut bytes, 48, s.filesize);
    put32(&mut bytes, 56, most);
    put32(&mut bytes, 60, s.initprot);
    bytes
}

// The thread command of a program that starts at an address.
fn thread_command(start: u64) -> [u8; THREAD_SIZE]
    ensures { result ≡ spec.thread_command start }
{
    let mut bytes = [0; THREAD_SIZE];
    put32(&mut bytes, 0, LC_UNIXTHREAD);
    put32(&mut bytes, 4, THREAD_SIZE as u32);
    put32(&mut bytes, 8, X86_THREAD_STATE64);
    put32(&mut bytes, 12, X86_THREAD_STATE64_COUNT);
    put64(&mut bytes, 144, start);
    bytes
}
