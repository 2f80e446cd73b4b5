// What kind of entry a program header is, and what a load says of memory.
ghost use Rattle.std.specs.Prelude.{◌≡◌, ◌+◌, ◌≤◌, length};
ghost use Rattle.ap_fields.specs.Granules.{IsGranule, ceil_of};
ghost use Rattle.ap_elf.specs.Fields as fields;
ghost use Rattle.ap_elf.specs.Fields.{loads_in};
ghost use Rattle.ap_elf.specs.ElfReading as reading;
ghost use Rattle.ap_elf.specs.InputCell.{permissions_of};

use crate::constants::{ADDRESS_TOP, MOST_PHDRS, PF_R, PF_W, PF_X, PT_DYNAMIC, PT_INTERP, PT_LOAD};
use crate::types::Entry;
use ap_fields::{Perms, ceil_to};
use arrayvec::ArrayVec;
use bitflags::Flags;

/// Whether an entry is for a dynamic linker: it names an interpreter (`PT_INTERP`) or tables (`PT_DYNAMIC`).
pub fn is_dynamic(p: &Entry) -> bool
    ensures { result ≡ reading.is_dynamic p.now }
{
    p.kind == PT_INTERP || p.kind == PT_DYNAMIC
}

/// The loads among program headers, in their order: the entries of type `PT_LOAD` that have bytes in memory.
pub fn loads(entries: &[Entry]) -> ArrayVec<Entry, MOST_PHDRS>
    requires { length entries.now ≤ MOST_PHDRS }
    ensures { result.items ≡ loads_in entries.now }
{
    let mut found = ArrayVec::new();
    for p in entries {
        if is_load(p) {
            found.push(*p);
        }
    }
    found
}

fn is_load(p: &Entry) -> bool
    ensures { result ≡ fields.is_load p.now }
{
    p.kind == PT_LOAD && p.memsz != 0
}

/// The address at which the granules of a load end.
#[tactic(auto, using(ap_fields::proofs::Granules::powers))]
pub fn load_end(p: &Entry, granule: u64) -> u64
    requires granule { IsGranule granule }
    requires top { p.now.vaddr + p.now.memsz ≤ ADDRESS_TOP }
    ensures { result ≡ ceil_of (p.now.vaddr + p.now.memsz) granule }
{
    ceil_to(p.vaddr + p.memsz, granule)
}

/// What may be done with the memory of a load.
pub fn load_perms(p: &Entry) -> Perms
    ensures { result ≡ record { 0 = permissions_of p.now } }
{
    Perms::from_bits_retain((p.flags & (PF_R | PF_W | PF_X)) as u8)
}
