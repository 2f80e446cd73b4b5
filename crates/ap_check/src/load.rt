// The loads of an input.
ghost use Rattle.std.specs.Prelude.{◌≡◌, ◌≤◌, length, map};
ghost use Rattle.ap_fields.specs.declared.sizes.TheConstants.{MOST_LOADS};
ghost use Rattle.ap_check.specs.Inputs as spec;
ghost use Rattle.ap_check.specs.Inputs.{load_of};

use ap_elf::{Entry, load_perms};
use ap_fields::{MOST_LOADS, Perms};
use arrayvec::ArrayVec;

/// A part of an input that is loaded into memory: an entry of type `PT_LOAD` that has bytes there (System V gABI, "Program
/// Loading").
#[derive(Clone, Copy, Debug, Default, PartialEq, Eq)]
pub struct Load {
    /// The place of its first byte in the file.
    pub offset: u64,
    /// The address of its first byte in memory.
    pub vaddr: u64,
    /// How many of its bytes stand in the file.
    pub filesz: u64,
    /// How many bytes it has in memory, not 0; those past `filesz` are 0.
    pub memsz: u64,
    /// What may be done with the memory.
    pub perms: Perms,
}

/// The loads of some program headers of which each is one.
pub fn taken_loads(entries: &[Entry]) -> ArrayVec<Load, MOST_LOADS>
    requires { length entries.now ≤ MOST_LOADS }
    ensures { result.items ≡ map load_of entries.now }
{
    let mut loads = ArrayVec::new();
    for p in entries {
        loads.push(load_from(p));
    }
    loads
}

fn load_from(p: &Entry) -> Load
    ensures { result ≡ spec.load_of p.now }
{
    Load {
        offset: p.offset,
        vaddr: p.vaddr,
        filesz: p.filesz,
        memsz: p.memsz,
        perms: load_perms(p),
    }
}
