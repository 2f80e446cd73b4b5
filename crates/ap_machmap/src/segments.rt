// The region of a segment.
ghost use Rattle.std.specs.Prelude.{◌≡◌, ◌≤◌};
ghost use Rattle.ap_mach.specs.MachReading as reading;
ghost use Rattle.ap_mach.specs.MachReading.{permissions_of};
ghost use Rattle.ap_machmap.specs.MachPlans.{region_of};

use ap_fields::Perms;
use ap_image::Region;
use ap_mach::SegmentCommand;
use ap_mach::constants::{VM_PROT_EXECUTE, VM_PROT_READ, VM_PROT_WRITE};
use bitflags::Flags;

/// The region of a segment.
#[tactic(auto, unfolding(crate::specs::MachPlans::region_of))]
pub fn region(s: &SegmentCommand) -> Region
    ensures { result ≡ region_of s.now }
{
    Region {
        start: s.vmaddr,
        span: s.vmsize,
        backed: s.filesize,
        at: if s.filesize == 0 { 0 } else { s.fileoff },
        perms: perms(s),
    }
}

// What may be done with the memory of a segment.
fn perms(s: &SegmentCommand) -> Perms
    ensures { result ≡ record { 0 = permissions_of s.now } }
{
    let execute = bit_if(s.initprot, VM_PROT_EXECUTE, 1);
    let write = bit_if(s.initprot, VM_PROT_WRITE, 2);
    let read = bit_if(s.initprot, VM_PROT_READ, 4);
    Perms::from_bits_retain(execute + write + read)
}

// A number where a bit of the flags is set.
fn bit_if(flags: u32, bit: u32, x: u8) -> u8
    requires { x ≤ 4 }
    ensures is { result ≡ reading.bit_if flags bit x }
    ensures most { result ≤ x }
{
    if flags & bit == 0 { 0 } else { x }
}
