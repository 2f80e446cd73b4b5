// The structures read from bytes.
ghost use Rattle.std.specs.Prelude.{◌≡◌, ◌+◌, ◌*◌, ◌≤◌, length};
ghost use Rattle.ap_pe.specs.declared.constants.TheConstants.{FILE_HEADER_SIZE, OPTIONAL_LEAST, SECTION_SIZE, MOST_SECTIONS};
ghost use Rattle.ap_pe.specs.Format.{file_header_at, headers_by, section_at, sections_from};

use crate::constants::{MOST_SECTIONS, SECTION_SIZE};
use crate::types::{FileHeader, PeHeaders, PeSection};
use ap_fields::{le16, le32, le64};
use arrayvec::ArrayVec;

/// The signature and the COFF file header that bytes begin with.
#[tactic(auto, unfolding(crate::specs::Format::file_header_at))]
pub fn file_header(part: &[u8]) -> FileHeader
    requires { FILE_HEADER_SIZE ≤ length part.now }
    ensures { result ≡ file_header_at part.now 0 }
{
    FileHeader {
        signature: le32(part, 0),
        machine: le16(part, 4),
        count: le16(part, 6),
        optional: le16(part, 20),
    }
}

/// The headers whose signature stands at `at`, by their COFF file header and the bytes of their optional header.
#[tactic(auto, unfolding(crate::specs::Format::headers_by))]
pub fn headers(at: u64, file: &FileHeader, optional: &[u8]) -> PeHeaders
    requires { OPTIONAL_LEAST ≤ length optional.now }
    ensures { result ≡ headers_by at file.now optional.now 0 }
{
    PeHeaders {
        at,
        machine: file.machine,
        count: file.count,
        optional: file.optional,
        entry: le32(optional, 16),
        base: le64(optional, 24),
        section_align: le32(optional, 32),
        file_align: le32(optional, 36),
        image: le32(optional, 56),
        headers: le32(optional, 60),
        directories: le32(optional, 108),
    }
}

/// The section header that stands at a place.
#[tactic(auto, unfolding(crate::specs::Format::section_at))]
pub fn section_from(b: &[u8], at: usize) -> PeSection
    requires { at + SECTION_SIZE ≤ length b.now }
    ensures { result ≡ section_at b.now at }
{
    PeSection {
        vsize: le32(b, at + 8),
        vaddr: le32(b, at + 12),
        raw: le32(b, at + 16),
        at: le32(b, at + 20),
        flags: le32(b, at + 36),
    }
}

/// The `count` section headers that bytes begin with, one behind the other.
#[tactic(auto, using(crate::proofs::SectionTables::table_steps))]
pub fn sections(b: &[u8], count: u16) -> ArrayVec<PeSection, MOST_SECTIONS>
    requires table { SECTION_SIZE * count ≤ length b.now }
    requires few { count ≤ MOST_SECTIONS }
    ensures { result.items ≡ sections_from b.now 0 count }
{
    let mut found = ArrayVec::new();
    for i in 0..count {
        found.push(section_from(b, SECTION_SIZE * i as usize));
    }
    found
}
