// The sections: what is asked of them, and their regions.
ghost use Rattle.std.specs.Prelude.{◌≡◌, ◌≤◌, ◌<◌, ◌+◌, ◌^◌, ◌++◌, ◌||◌, ◌==◌, nat_le, length, map, IfOk, OnOk};
ghost use Rattle.ap_elf.specs.declared.constants.TheConstants.{ADDRESS_TOP};
ghost use Rattle.ap_pe.specs.declared.constants.TheConstants.{MOST_SECTIONS};
ghost use Rattle.ap_pe.specs.PeReading.{Checks, section_rules, sections_rules, end_behind, extent_of, headers_extent, permissions_of};
ghost use Rattle.ap_pe.specs.PeReading as reading;
ghost use Rattle.ap_pemap.specs.PePlans as spec;
ghost use Rattle.ap_pemap.specs.PePlans.{region_of};

use crate::extents::{extent, headers_extent};
use ap_fields::Perms;
use ap_image::{MOST_REGIONS, Region};
use ap_pe::PeCause::{Adjacent, Empty, RawAlign, RawRange, SectionEnd};
use ap_pe::constants::{IMAGE_SCN_MEM_EXECUTE, IMAGE_SCN_MEM_READ, IMAGE_SCN_MEM_WRITE};
use ap_pe::{PeFault, PeHeaders, PeSection, check_rules, refusal};
use arrayvec::ArrayVec;
use bitflags::Flags;

/// Appends the regions of sections of a file of `size` bytes, and answers where the last one ends, from the image base on; or
/// the first rule that a section breaks, section by section.
#[tactic(auto, using(ap_fields::proofs::FirstFaults::join_steps, std::proofs::Common::append_assoc))]
pub fn push_sections(
    regions: &mut ArrayVec<Region, MOST_REGIONS>,
    h: &PeHeaders,
    sections: &[PeSection],
    size: u64,
) -> Result<u64, PeFault>
    requires one { length regions.old.items ≡ 1 }
    requires few { length sections.now ≤ MOST_SECTIONS }
    requires base { h.now.base < ADDRESS_TOP }
    requires align { 0 < h.now.section_align }
    ensures rules { Checks result
        (sections_rules size h.now.section_align 1 (headers_extent h.now) sections.now) }
    ensures regions { OnOk result (regions.new.items ≡ regions.old.items
        ++ map (region_of h.now.base h.now.section_align) sections.now) }
    ensures end { IfOk result (λ end.
        end ≡ end_behind h.now.section_align (headers_extent h.now) sections.now) }
    ensures small { IfOk result (λ end. end < 2 ^ 34) }
{
    let mut end = headers_extent(h);
    let mut k = 1;
    for s in sections {
        check_section(s, k, end, size, h.section_align)?;
        regions.push(region(h.base, h.section_align, s));
        end += extent(h.section_align, s);
        k += 1;
    }
    Ok(end)
}

// The rules of the section number `k`, where what is in front of it ends at `end`.
fn check_section(s: &PeSection, k: u16, end: u64, size: u64, align: u32) -> Result<(), PeFault>
    requires end { end < 2 ^ 34 }
    requires align { 0 < align }
    ensures rules { Checks result (section_rules size align k end s.now) }
    ensures top { OnOk result (end + extent_of align s.now ≤ 2 ^ 32) }
{
    let bare = s.raw == 0;
    let aligned = bare || s.at % 512 == 0;
    let within = bare || lies_in(s, size);
    let top = end + extent(align, s);
    check_rules(&[
        (!(s.vsize == 0 && bare), refusal(Empty, k, 0)),
        (s.vaddr as u64 == end, refusal(Adjacent, k, s.vaddr as u64)),
        (aligned, refusal(RawAlign, k, s.at as u64)),
        (within, refusal(RawRange, k, s.at as u64)),
        (top <= 1 << 32, refusal(SectionEnd, k, s.vaddr as u64)),
    ])
}

fn lies_in(s: &PeSection, size: u64) -> bool
    ensures { result ≡ nat_le (s.now.at + s.now.raw) size }
{
    s.at as u64 + s.raw as u64 <= size
}

// The region of a section.
#[tactic(auto, unfolding(crate::specs::PePlans::region_of))]
fn region(base: u64, align: u32, s: &PeSection) -> Region
    requires base { base < ADDRESS_TOP }
    requires align { 0 < align }
    ensures { result ≡ spec.region_of base align s.now }
{
    Region {
        start: base + s.vaddr as u64,
        span: extent(align, s),
        backed: backed(align, s),
        at: if s.raw == 0 { 0 } else { s.at as u64 },
        perms: perms(s),
    }
}

// How many addresses of a section show the file's bytes.
fn backed(align: u32, s: &PeSection) -> u64
    requires { 0 < align }
    ensures { result ≡ spec.backed_of align s.now }
{
    if s.at == 0 {
        0
    } else {
        (s.raw as u64).min(extent(align, s))
    }
}

// What may be done with the memory of a section.
fn perms(s: &PeSection) -> Perms
    ensures { result ≡ record { 0 = permissions_of s.now } }
{
    let execute = bit_if(s.flags, IMAGE_SCN_MEM_EXECUTE, 1);
    let write = bit_if(s.flags, IMAGE_SCN_MEM_WRITE, 2);
    let read = bit_if(s.flags, IMAGE_SCN_MEM_READ, 4);
    Perms::from_bits_retain(execute + write + read)
}

// A number where a bit of the flags is set.
fn bit_if(flags: u32, bit: u32, x: u8) -> u8
    requires { x ≤ 4 }
    ensures is { result ≡ reading.bit_if flags bit x }
    ensures most { result ≤ x }
{
    if flags & bit == 0 { 0 } else { x }
}
