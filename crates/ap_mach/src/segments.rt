// The segments of a program in a linked file.
ghost use Rattle.std.specs.Prelude.{◌≡◌, ◌+◌, ◌<◌, ◌≤◌};
ghost use Rattle.ap_elf.specs.declared.constants.TheConstants.{ADDRESS_TOP};
ghost use Rattle.ap_mach.specs.Segments as spec;

use crate::constants::{
    LOAD_NAME, SEGMENT_ALIGNMENT, VM_PROT_EXECUTE, VM_PROT_READ, VM_PROT_WRITE,
};
use crate::types::SegmentCommand;
use ap_check::Load;
use ap_elf::constants::{PF_R, PF_W, PF_X};
use ap_fields::{Perms, ceil_to, floor_to};
use ap_layout::Area;
use bitflags::Flags;

/// The segment that keeps free what stands in front of the first load.
#[tactic(auto, using(ap_fields::proofs::Granules::powers), unfolding(crate::specs::Segments::zero_segment))]
pub(crate) fn zero_segment(loads: &[Load]) -> SegmentCommand
    ensures { result ≡ spec.zero_segment loads.now }
{
    let vmsize = match loads {
        [] => 0,
        [first, ..] => floor_to(first.vaddr, SEGMENT_ALIGNMENT),
    };
    SegmentCommand {
        vmsize,
        ..SegmentCommand::default()
    }
}

/// The segment of a load that has an area.
#[tactic(auto, using(ap_fields::proofs::Granules::powers), unfolding(crate::specs::Segments::load_segment))]
pub(crate) fn load_segment(p: &Load, area: &Area) -> SegmentCommand
    requires { p.now.vaddr + p.now.memsz ≤ ADDRESS_TOP }
    ensures { result ≡ spec.load_segment p.now area.now }
{
    let start = floor_to(p.vaddr, SEGMENT_ALIGNMENT);
    SegmentCommand {
        vmaddr: start,
        vmsize: ceil_to(p.vaddr + p.memsz, SEGMENT_ALIGNMENT) - start,
        fileoff: area.file,
        filesize: area.len,
        initprot: protection(p.perms),
    }
}

// What may be done with the memory of a load.
fn protection(perms: Perms) -> u32
    ensures { result ≡ spec.protection_of perms.0 }
{
    let bits = u32::from(perms.bits());
    let read = if bits & PF_R == 0 { 0 } else { VM_PROT_READ };
    let write = if bits & PF_W == 0 { 0 } else { VM_PROT_WRITE };
    let execute = if bits & PF_X == 0 { 0 } else { VM_PROT_EXECUTE };
    read + write + execute
}

/// The name of the segment of the load number `k`, as a number.
pub(crate) fn load_name(k: u8) -> u64
    requires { k < 100 }
    ensures { result ≡ spec.load_name k }
{
    let digits = 48 + u64::from(k / 10) + 256 * (48 + u64::from(k % 10));
    LOAD_NAME + (1 << 40) * digits
}
