// The sections of a program.
ghost use Rattle.std.specs.Prelude.{◌≡◌, ◌+◌, ◌-◌, ◌^◌, ◌<◌, ◌≤◌, ◌++◌, [], length, All};
ghost use Rattle.ap_fields.specs.Granules.{floor_of, ceil_of};
ghost use Rattle.ap_fields.specs.declared.sizes.TheConstants.{PE_SPAN, MOST_LOADS};
ghost use Rattle.ap_elf.specs.declared.constants.TheConstants.{ADDRESS_TOP};
ghost use Rattle.ap_layout.specs.declared.sizes.TheConstants.{FILE_TOP};
ghost use Rattle.ap_pe.specs.declared.constants.TheConstants.{SECTION_ALIGNMENT, MOST_WRITTEN};
ghost use Rattle.ap_pe.specs.Sections as spec;
ghost use Rattle.ap_pe.specs.Sections.{Fit};
ghost use Rattle.ap_pe.specs.Written.{sections_of, end_of};

use crate::constants::{
    FILE_ALIGNMENT, FILLER_LETTER, IMAGE_SCN_CNT_CODE, IMAGE_SCN_CNT_INITIALIZED_DATA,
    IMAGE_SCN_CNT_UNINITIALIZED_DATA, IMAGE_SCN_MEM_EXECUTE, IMAGE_SCN_MEM_READ,
    IMAGE_SCN_MEM_WRITE, LOAD_LETTER, MOST_WRITTEN, SECTION_ALIGNMENT,
};
use crate::types::PeSection;
use ap_check::Load;
use ap_elf::constants::{PF_W, PF_X};
use ap_fields::{PE_SPAN, Perms, ceil_to, floor_to};
use ap_layout::Area;
use arrayvec::ArrayVec;
use bitflags::Flags;

/// A section as written: the letter in its name, and its numbers.
pub(crate) type Named = (u8, PeSection);

pub(crate) type Sections = ArrayVec<Named, MOST_WRITTEN>;

/// Makes the sections of loads that have these areas, with those of the gaps before them, behind the headers of a program at an
/// image base. Answers the address at which the last section ends.
#[tactic(auto, using(ap_fields::proofs::Granules::powers, crate::proofs::Fitting::fit_steps))]
pub(crate) fn push_sections(
    sections: &mut Sections,
    base: u64,
    loads: &[Load],
    areas: &[Area],
) -> u64
    requires empty { sections.old.items ≡ [] }
    requires few { length loads.now ≤ MOST_LOADS }
    requires same { length areas.now ≡ length loads.now }
    requires base { base < ADDRESS_TOP }
    requires fit { Fit base (base + PE_SPAN) loads.now }
    requires places { All (λ x. x.file < FILE_TOP) areas.now }
    ensures items { sections.new.items ≡ sections_of base loads.now areas.now }
    ensures few { length sections.new.items ≤ MOST_WRITTEN }
    ensures end { result ≡ end_of base loads.now }
{
    let mut end = base + PE_SPAN as u64;
    for i in 0..loads.len() {
        let load = &loads[i];
        let start = floor_to(load.vaddr, SECTION_ALIGNMENT);
        if end < start {
            sections.push((FILLER_LETTER, filler_section(base, end, start)));
        }
        sections.push((LOAD_LETTER, load_section(base, load, &areas[i])));
        end = ceil_to(load.vaddr + load.memsz, SECTION_ALIGNMENT);
    }
    end
}

// The section of a gap between two addresses.
#[tactic(auto, unfolding(crate::specs::Sections::filler_section))]
fn filler_section(base: u64, from: u64, to: u64) -> PeSection
    requires base { base ≤ from }
    requires from { from ≤ to }
    requires to { to ≤ base + 2 ^ 31 }
    ensures { result ≡ spec.filler_section base from to }
{
    PeSection {
        vsize: (to - from) as u32,
        vaddr: (from - base) as u32,
        raw: 0,
        at: 0,
        flags: IMAGE_SCN_MEM_READ + IMAGE_SCN_CNT_UNINITIALIZED_DATA,
    }
}

// The section of a load that has an area.
#[tactic(auto, using(ap_fields::proofs::Granules::powers), unfolding(crate::specs::Sections::load_section))]
fn load_section(base: u64, p: &Load, area: &Area) -> PeSection
    requires base { base ≤ floor_of p.now.vaddr SECTION_ALIGNMENT }
    requires sizes { p.now.filesz ≤ p.now.memsz }
    requires top { p.now.vaddr + p.now.memsz ≤ base + 2 ^ 31 }
    requires end { base < ADDRESS_TOP }
    requires place { area.now.file < FILE_TOP }
    ensures { result ≡ spec.load_section base p.now area.now }
{
    let start = floor_to(p.vaddr, SECTION_ALIGNMENT);
    let raw = raw_size(p);
    PeSection {
        vsize: (p.vaddr + p.memsz - start) as u32,
        vaddr: (start - base) as u32,
        raw,
        at: area.file as u32,
        flags: flags(p.perms, raw),
    }
}

// How many bytes of its area the section of a load shows.
#[tactic(auto, using(crate::proofs::Fitting::powers))]
fn raw_size(p: &Load) -> u32
    requires { p.now.filesz < 2 ^ 31 + 1 }
    ensures { result ≡ spec.raw_of p.now }
{
    if p.filesz == 0 {
        0
    } else {
        ceil_to(p.vaddr % SECTION_ALIGNMENT + p.filesz, FILE_ALIGNMENT) as u32
    }
}

// What may be done with the section of a load, and whether it has bytes in the file.
fn flags(perms: Perms, raw: u32) -> u32
    ensures { result ≡ spec.flags_of perms.0 raw }
{
    let bits = u32::from(perms.bits());
    let execute = if bits & PF_X == 0 {
        0
    } else {
        IMAGE_SCN_MEM_EXECUTE + IMAGE_SCN_CNT_CODE
    };
    let write = if bits & PF_W == 0 {
        0
    } else {
        IMAGE_SCN_MEM_WRITE
    };
    let kind = if raw == 0 {
        IMAGE_SCN_CNT_UNINITIALIZED_DATA
    } else {
        IMAGE_SCN_CNT_INITIALIZED_DATA
    };
    IMAGE_SCN_MEM_READ + execute + write + kind
}
