// The headers of a file whose bytes are in memory.
ghost use Rattle.std.specs.Prelude.{◌≡◌, ◌+◌, ◌*◌, ◌<◌, ◌≤◌, length, Ok};
ghost use Rattle.ap_pe.specs.declared.constants.TheConstants.{SECTION_SIZE};
ghost use Rattle.ap_pe.specs.Format.{section_at, table_place};
ghost use Rattle.ap_pe.specs.PeReading.{headers_result};

use crate::constants::{FILE_HEADER_SIZE, SECTION_SIZE};
use crate::fault::PeFault;
use crate::file::read_pe_in;
use crate::read::section_from;
use crate::types::{PeHeaders, PeSection};
use ap_files::SliceFiles;

/// The headers of a PE32+ file for x86-64, or the first refusal of them, in the order of the first ten causes of
/// [`PeCause`](crate::PeCause).
#[tactic(auto, using(ap_files::proofs::SliceLemmas::slice_steps))]
pub fn read_pe(file: &[u8]) -> Result<PeHeaders, PeFault>
    ensures { result ≡ headers_result file.now }
{
    let mut files = SliceFiles { bytes: file };
    match read_pe_in(&mut files, "", file.len() as u64) {
        Ok(headers) => headers,
        Err(_) => unreachable!(),
    }
}

/// The section header number `i` of a file, counted from 0, where `h` are its headers.
pub fn section(file: &[u8], h: &PeHeaders, i: u16) -> PeSection
    requires headers { headers_result file.now ≡ Ok h.now }
    requires number { i < h.now.count }
    ensures { result ≡ section_at file.now (table_place h.now + SECTION_SIZE * i) }
{
    let table = h.at as usize + FILE_HEADER_SIZE + h.optional as usize;
    section_from(file, table + SECTION_SIZE * i as usize)
}
