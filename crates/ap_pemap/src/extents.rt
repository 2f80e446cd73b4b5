// How far headers and sections reach in memory.
ghost use Rattle.std.specs.Prelude.{◌≡◌, ◌^◌, ◌<◌, ◌≤◌};
ghost use Rattle.ap_fields.specs.Granules.{ceil_of};
ghost use Rattle.ap_pe.specs.PeReading as spec;

use ap_pe::{PeHeaders, PeSection};

/// The least multiple of an alignment that is at least `a`.
pub fn rounded(a: u32, align: u32) -> u64
    requires { 0 < align }
    ensures { result ≡ ceil_of a align }
{
    let align = align as u64;
    (a as u64 + align - 1) / align * align
}

/// How many addresses the headers have.
pub fn headers_extent(h: &PeHeaders) -> u64
    requires { 0 < h.now.section_align }
    ensures { result ≡ spec.headers_extent h.now }
{
    rounded(h.headers, h.section_align)
}

/// How many addresses a section has: its size in memory, or in the file where it says none, in whole alignments.
pub fn extent(align: u32, s: &PeSection) -> u64
    requires { 0 < align }
    ensures { result ≡ spec.extent_of align s.now }
{
    rounded(if s.vsize == 0 { s.raw } else { s.vsize }, align)
}
