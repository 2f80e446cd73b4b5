// The headers of a file by its name: its first 64 bytes, the COFF file header, the optional header's fields and the section
// headers are read alone.
ghost use Rattle.std.specs.Prelude.{◌≡◌, ◌+◌, ◌*◌, ◌^◌, ◌<◌, ◌≤◌, length, take, drop, IfOk};
ghost use Rattle.ap_files.specs.Reads.{HasSize, Reads};
ghost use Rattle.ap_pe.specs.declared.constants.TheConstants.{DOS_SIZE, FILE_HEADER_SIZE, OPTIONAL_LEAST, SECTION_SIZE, MOST_SECTIONS};
ghost use Rattle.ap_pe.specs.Format.{file_header_at, table_place, sections_in};
ghost use Rattle.ap_pe.specs.PeReading.{headers_result};
ghost use Rattle.ap_pe.specs.Stages.{AreTaken, result_at, optional_result};

use crate::check::refusal;
use crate::constants::{DOS_SIZE, FILE_HEADER_SIZE, MOST_SECTIONS, OPTIONAL_LEAST, SECTION_SIZE};
use crate::fault::{PeCause, PeFault};
use crate::read::{file_header, headers, sections};
use crate::rules::{check_dos, check_file_header, check_optional};
use crate::types::{FileHeader, PeHeaders, PeSection};
use ap_fields::{le16, le32};
use ap_files::{Failed, Files};
use arrayvec::ArrayVec;

/// The headers of a file by its name, where `size` is its length, or the first refusal of them, as [`crate::read_pe`] has
/// it. Its first 64 bytes, the COFF file header and the front of the optional header alone are read, each where the rules
/// before it hold.
///
/// `Failed`: a read failed.
pub fn read_pe_in<F: Files>(
    files: &mut F,
    name: &str,
    size: u64,
) -> Result<Result<PeHeaders, PeFault>, Failed>
    requires { HasSize (F.state files.old).kept name.now size }
    ensures read { Reads (F.state files.old) (F.state files.new) name.now
        (λ b h. h ≡ headers_result b) result }
    ensures taken { IfOk result (λ r. IfOk r (λ h. AreTaken size h)) }
{
    if size < DOS_SIZE as u64 {
        return Ok(Err(refusal(PeCause::Mz, 0, size)));
    }
    let mut dos = [0; DOS_SIZE];
    files.read_at(name, 0, &mut dos)?;
    if let Err(fault) = check_dos(size, le16(&dos, 0)) {
        return Ok(Err(fault));
    }
    headers_at_in(files, name, size, le32(&dos, 60) as u64)
}

// The headers whose signature is to stand at `at`.
fn headers_at_in<F: Files>(
    files: &mut F,
    name: &str,
    size: u64,
    at: u64,
) -> Result<Result<PeHeaders, PeFault>, Failed>
    requires size { HasSize (F.state files.old).kept name.now size }
    requires place { at < 2 ^ 32 }
    ensures read { Reads (F.state files.old) (F.state files.new) name.now
        (λ b h. h ≡ result_at b at) result }
    ensures taken { IfOk result (λ r. IfOk r (λ h. AreTaken size h)) }
{
    if at + FILE_HEADER_SIZE as u64 > size {
        return Ok(Err(refusal(PeCause::Signature, 0, at)));
    }
    let mut part = [0; FILE_HEADER_SIZE];
    files.read_at(name, at, &mut part)?;
    let f = file_header(&part);
    if let Err(fault) = check_file_header(size, at, &f) {
        return Ok(Err(fault));
    }
    optional_in(files, name, size, at, &f)
}

// The headers whose signature stands at `at`, by their COFF file header.
fn optional_in<F: Files>(
    files: &mut F,
    name: &str,
    size: u64,
    at: u64,
    f: &FileHeader,
) -> Result<Result<PeHeaders, PeFault>, Failed>
    requires size { HasSize (F.state files.old).kept name.now size }
    requires place { at < 2 ^ 32 }
    requires fits { at + FILE_HEADER_SIZE + OPTIONAL_LEAST ≤ size }
    requires few { f.now.count ≤ MOST_SECTIONS }
    ensures read { Reads (F.state files.old) (F.state files.new) name.now
        (λ b h. h ≡ optional_result b at f.now) result }
    ensures taken { IfOk result (λ r. IfOk r (λ h. AreTaken size h)) }
{
    let mut part = [0; OPTIONAL_LEAST];
    files.read_at(name, at + FILE_HEADER_SIZE as u64, &mut part)?;
    let h = headers(at, f, &part);
    if let Err(fault) = check_optional(size, le16(&part, 0), &h) {
        return Ok(Err(fault));
    }
    Ok(Ok(h))
}

/// The section headers of a file in which they lie, read at once.
///
/// `Failed`: a read failed.
pub fn sections_in<F: Files>(
    files: &mut F,
    name: &str,
    size: u64,
    h: &PeHeaders,
) -> Result<ArrayVec<PeSection, MOST_SECTIONS>, Failed>
    requires size { HasSize (F.state files.old).kept name.now size }
    requires taken { AreTaken size h.now }
    ensures { Reads (F.state files.old) (F.state files.new) name.now
        (λ b found. found.items ≡ sections_in b h.now) result }
{
    let at = h.at + FILE_HEADER_SIZE as u64 + h.optional as u64;
    let mut room = [0; SECTION_SIZE * MOST_SECTIONS];
    let part = &mut room[..SECTION_SIZE * h.count as usize];
    files.read_at(name, at, part)?;
    Ok(sections(part, h.count))
}
