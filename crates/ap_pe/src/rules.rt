// What is asked of the headers.
ghost use Rattle.std.specs.Prelude.{◌≡◌, ◌+◌, ◌*◌, ◌%◌, ◌^◌, ◌<◌, ◌≤◌, ◌==◌, ◌&&◌, nat_le, nat_lt, min, OnOk};
ghost use Rattle.ap_elf.specs.declared.constants.TheConstants.{ADDRESS_TOP};
ghost use Rattle.ap_pe.specs.declared.constants.TheConstants.{IMAGE_NT_SIGNATURE, DOS_SIZE, FILE_HEADER_SIZE, OPTIONAL_LEAST, DIRECTORY_SIZE, IMAGE_NUMBEROF_DIRECTORY_ENTRIES, SECTION_SIZE, MOST_SECTIONS};
ghost use Rattle.ap_pe.specs.Format.{table_place};
ghost use Rattle.ap_pe.specs.Stages.{AreTaken};
ghost use Rattle.ap_pe.specs.PeReading.{Checks, dos_rules, file_rules, optional_rules, are_alignments};

use crate::check::{check_rules, refusal};
use crate::constants::{
    DIRECTORY_SIZE, DOS_SIZE, FILE_HEADER_SIZE, IMAGE_DOS_SIGNATURE, IMAGE_FILE_MACHINE_AMD64,
    IMAGE_NT_OPTIONAL_HDR64_MAGIC, IMAGE_NT_SIGNATURE, IMAGE_NUMBEROF_DIRECTORY_ENTRIES,
    MOST_SECTIONS, OPTIONAL_LEAST, SECTION_SIZE,
};
use crate::fault::PeCause::{
    Alignment, Base, Directories, Machine, Mz, OptionalMagic, OptionalSize, SectionTable, Sections,
    Signature,
};
use crate::fault::PeFault;
use crate::types::{FileHeader, PeHeaders};
use ap_elf::constants::ADDRESS_TOP;

/// The rules of the start of a file of `size` bytes.
pub fn check_dos(size: u64, mark: u16) -> Result<(), PeFault>
    ensures { Checks result (dos_rules size mark) }
{
    check_rules(&[
        (size >= DOS_SIZE as u64, refusal(Mz, 0, size)),
        (mark == IMAGE_DOS_SIGNATURE, refusal(Mz, 0, mark as u64)),
    ])
}

/// The rules of the signature and of the COFF file header, which stand at `at` in a file of `size` bytes.
pub fn check_file_header(size: u64, at: u64, f: &FileHeader) -> Result<(), PeFault>
    requires { at < 2 ^ 32 }
    ensures rules { Checks result (file_rules size at f.now) }
    ensures least { OnOk result (OPTIONAL_LEAST ≤ f.now.optional) }
    ensures fits { OnOk result (at + FILE_HEADER_SIZE + f.now.optional ≤ size) }
    ensures few { OnOk result (f.now.count ≤ MOST_SECTIONS) }
{
    let signed = has_signature(size, at, f.signature);
    let room = has_room(size, at, f.optional);
    check_rules(&[
        (signed, refusal(Signature, 0, at)),
        (
            f.machine == IMAGE_FILE_MACHINE_AMD64,
            refusal(Machine, 0, f.machine as u64),
        ),
        (
            f.count <= MOST_SECTIONS as u16,
            refusal(Sections, 0, f.count as u64),
        ),
        (room, refusal(OptionalSize, 0, f.optional as u64)),
    ])
}

fn has_signature(size: u64, at: u64, signature: u32) -> bool
    requires { at < 2 ^ 32 }
    ensures { result ≡ (nat_le (at + FILE_HEADER_SIZE) size && signature == IMAGE_NT_SIGNATURE) }
{
    at + FILE_HEADER_SIZE as u64 <= size && signature == IMAGE_NT_SIGNATURE
}

fn has_room(size: u64, at: u64, optional: u16) -> bool
    requires { at < 2 ^ 32 }
    ensures { result ≡ (nat_le OPTIONAL_LEAST optional
        && nat_le (at + FILE_HEADER_SIZE + optional) size) }
{
    optional >= OPTIONAL_LEAST as u16 && at + FILE_HEADER_SIZE as u64 + optional as u64 <= size
}

/// The rules of the optional header, and of the place of the section headers, in a file of `size` bytes.
pub fn check_optional(size: u64, magic: u16, h: &PeHeaders) -> Result<(), PeFault>
    requires place { h.now.at < 2 ^ 32 }
    requires few { h.now.count ≤ MOST_SECTIONS }
    ensures rules { Checks result (optional_rules size magic h.now) }
    ensures taken { OnOk result (AreTaken size h.now) }
{
    let table = h.at + FILE_HEADER_SIZE as u64 + h.optional as u64;
    check_rules(&[
        (
            magic == IMAGE_NT_OPTIONAL_HDR64_MAGIC,
            refusal(OptionalMagic, 0, magic as u64),
        ),
        (is_base(h.base), refusal(Base, 0, h.base)),
        (
            are_alignments(h.section_align, h.file_align),
            refusal(Alignment, 0, h.section_align as u64),
        ),
        (
            have_room(h.directories, h.optional),
            refusal(Directories, 0, h.directories as u64),
        ),
        (
            holds_table(size, table, h.count),
            refusal(SectionTable, 0, table),
        ),
    ])
}

fn is_base(base: u64) -> bool
    ensures { result ≡ (base % 65536 == 0 && nat_lt base ADDRESS_TOP) }
{
    base % 65536 == 0 && base < ADDRESS_TOP
}

fn are_alignments(sections: u32, file: u32) -> bool
    ensures { result ≡ are_alignments sections file }
{
    sections.is_power_of_two()
        && sections >= 4096
        && file.is_power_of_two()
        && file >= 512
        && file <= 65536
        && file <= sections
}

fn have_room(directories: u32, optional: u16) -> bool
    ensures { result ≡ nat_le (OPTIONAL_LEAST
        + DIRECTORY_SIZE * min directories IMAGE_NUMBEROF_DIRECTORY_ENTRIES) optional }
{
    let count = directories.min(IMAGE_NUMBEROF_DIRECTORY_ENTRIES as u32) as usize;
    OPTIONAL_LEAST + DIRECTORY_SIZE * count <= optional as usize
}

fn holds_table(size: u64, table: u64, count: u16) -> bool
    ensures { result ≡ nat_le (table + SECTION_SIZE * count) size }
{
    let length = SECTION_SIZE as u64 * count as u64;
    length <= size && table <= size - length
}
