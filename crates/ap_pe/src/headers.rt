// The headers as bytes.
ghost use Rattle.std.specs.Prelude.{◌≡◌, ◌-◌, ◌+◌, ◌*◌, ◌^◌, ◌<◌, ◌≤◌, ◌++◌, length};
ghost use Rattle.ap_pe.specs.declared.constants.TheConstants.{MOST_WRITTEN, MOST_HEADERS, SECTION_SIZE, FILE_HEADER_SIZE, OPTIONAL_SIZE};
ghost use Rattle.ap_pe.specs.Sections as sections_spec;
ghost use Rattle.ap_pe.specs.Written as spec;
ghost use Rattle.ap_pe.specs.Written.{IsProgram, is_code, is_data};

use crate::constants::{
    FILE_ALIGNMENT, FILE_HEADER_SIZE, IMAGE_DLLCHARACTERISTICS_NX_COMPAT, IMAGE_FILE_FIXED,
    IMAGE_FILE_MACHINE_AMD64, IMAGE_NT_OPTIONAL_HDR64_MAGIC, IMAGE_NT_SIGNATURE,
    IMAGE_NUMBEROF_DIRECTORY_ENTRIES, IMAGE_SCN_MEM_EXECUTE, IMAGE_SUBSYSTEM_WINDOWS_CUI,
    MOST_HEADERS, OPTIONAL_SIZE, SECTION_ALIGNMENT, SECTION_SIZE, SYSTEM_VERSION, USUAL_COMMIT,
    USUAL_HEAP, USUAL_STACK,
};
use crate::program::Program;
use crate::sections::{Named, push_sections};
use crate::types::PeSection;
use ap_check::Load;
use ap_fields::{PE_SPAN, put16, put32, put64};
use ap_layout::Area;
use arrayvec::ArrayVec;

pub(crate) type Bytes = ArrayVec<u8, MOST_HEADERS>;

/// The PE headers of a program for Windows whose loads have these areas of the linked file: the signature, the COFF file
/// header, the optional header, and a section header for each load and for each gap before one.
pub fn pe_headers(p: &Program, loads: &[Load], areas: &[Area]) -> ArrayVec<u8, MOST_HEADERS>
    requires { IsProgram p.now loads.now areas.now }
    ensures { result.items ≡ spec.pe_headers p.now loads.now areas.now }
{
    let mut sections = ArrayVec::new();
    let end = push_sections(&mut sections, p.base, loads, areas);
    let mut bytes = ArrayVec::new();
    push_bytes(&mut bytes, &file_header(sections.len() as u16));
    push_bytes(&mut bytes, &optional_header(p, end, &sections));
    push_table(&mut bytes, &sections);
    bytes
}

// Appends bytes, for which there is room.
fn push_bytes(out: &mut Bytes, piece: &[u8])
    requires { length out.old.items + length piece.now ≤ MOST_HEADERS }
    ensures { out.new.items ≡ out.old.items ++ piece.now }
{
    for byte in piece {
        out.push(*byte);
    }
}

// Appends the headers of sections.
fn push_table(out: &mut Bytes, sections: &[Named])
    requires room { length out.old.items + SECTION_SIZE * length sections.now ≤ MOST_HEADERS }
    requires few { length sections.now ≤ MOST_WRITTEN }
    ensures { out.new.items ≡ out.old.items ++ sections_spec.section_table 1 sections.now }
{
    let mut k = 1;
    for (letter, s) in sections {
        push_bytes(out, &section_header(k, *letter, s));
        k += 1;
    }
}

// The header of the section number `k`, whose name has this letter.
fn section_header(k: u8, letter: u8, s: &PeSection) -> [u8; SECTION_SIZE]
    requires { k < 100 }
    ensures { result ≡ sections_spec.section_header k (letter, s.now) }
{
    let mut bytes = [0; SECTION_SIZE];
    put64(&mut bytes, 0, name(k, letter));
    put32(&mut bytes, 8, s.vsize);
    put32(&mut bytes, 12, s.vaddr);
    put32(&mut bytes, 16, s.raw);
    put32(&mut bytes, 20, s.at);
    put32(&mut bytes, 36, s.flags);
    bytes
}

// A section's name as a number.
fn name(k: u8, letter: u8) -> u64
    requires { k < 100 }
    ensures { result ≡ sections_spec.name_of letter k }
{
    let digits = 48 + u64::from(k / 10) + 256 * (48 + u64::from(k % 10));
    46 + 256 * (u64::from(letter) + 256 * digits)
}

// The signature and the COFF file header of a file with so many sections.
fn file_header(count: u16) -> [u8; FILE_HEADER_SIZE]
    ensures { result ≡ spec.file_header count }
{
    let mut bytes = [0; FILE_HEADER_SIZE];
    put32(&mut bytes, 0, IMAGE_NT_SIGNATURE);
    put16(&mut bytes, 4, IMAGE_FILE_MACHINE_AMD64);
    put16(&mut bytes, 6, count);
    put16(&mut bytes, 20, OPTIONAL_SIZE as u16);
    put16(&mut bytes, 22, IMAGE_FILE_FIXED);
    bytes
}

// The optional header of a program whose last section ends at `end`.
fn optional_header(p: &Program, end: u64, sections: &[Named]) -> [u8; OPTIONAL_SIZE]
    requires from { p.now.base ≤ p.now.entry }
    requires to { p.now.entry < end }
    requires end { end ≤ p.now.base + 2 ^ 31 }
    requires code { spec.raw_sum is_code sections.now ≤ 2 ^ 31 }
    requires data_bytes { spec.raw_sum is_data sections.now ≤ 2 ^ 31 }
    ensures { result ≡ spec.optional_header p.now end sections.now }
{
    let mut bytes = [0; OPTIONAL_SIZE];
    put16(&mut bytes, 0, IMAGE_NT_OPTIONAL_HDR64_MAGIC);
    put32(&mut bytes, 4, code_bytes(sections));
    put32(&mut bytes, 8, data_bytes(sections));
    put32(&mut bytes, 16, (p.entry - p.base) as u32);
    put32(&mut bytes, 20, first_code(sections));
    put64(&mut bytes, 24, p.base);
    put32(&mut bytes, 32, SECTION_ALIGNMENT as u32);
    put32(&mut bytes, 36, FILE_ALIGNMENT as u32);
    put16(&mut bytes, 40, SYSTEM_VERSION);
    put16(&mut bytes, 48, SYSTEM_VERSION);
    put32(&mut bytes, 56, (end - p.base) as u32);
    put32(&mut bytes, 60, PE_SPAN as u32);
    put16(&mut bytes, 68, IMAGE_SUBSYSTEM_WINDOWS_CUI);
    put16(&mut bytes, 70, IMAGE_DLLCHARACTERISTICS_NX_COMPAT);
    put64(&mut bytes, 72, stack_reserve(p));
    put64(&mut bytes, 80, USUAL_COMMIT);
    put64(&mut bytes, 88, USUAL_HEAP);
    put64(&mut bytes, 96, USUAL_COMMIT);
    put32(&mut bytes, 108, IMAGE_NUMBEROF_DIRECTORY_ENTRIES as u32);
    put32(&mut bytes, 120, p.imports.rva);
    put32(&mut bytes, 124, p.imports.length);
    put32(&mut bytes, 208, p.slots.rva);
    put32(&mut bytes, 212, p.slots.length);
    bytes
}

// How much of a stack is reserved.
fn stack_reserve(p: &Program) -> u64
    ensures { result ≡ spec.stack_of p.now }
{
    if p.stack == 0 { USUAL_STACK } else { p.stack }
}

// How many bytes in the file the sections have that may be executed.
fn code_bytes(sections: &[Named]) -> u32
    requires { spec.raw_sum is_code sections.now ≤ 2 ^ 31 }
    ensures { result ≡ spec.raw_sum is_code sections.now }
{
    let mut sum = 0;
    for s in sections {
        if is_executed(s) {
            sum += s.1.raw;
        }
    }
    sum
}

// How many bytes the others have.
fn data_bytes(sections: &[Named]) -> u32
    requires { spec.raw_sum is_data sections.now ≤ 2 ^ 31 }
    ensures { result ≡ spec.raw_sum is_data sections.now }
{
    let mut sum = 0;
    for s in sections {
        if !is_executed(s) {
            sum += s.1.raw;
        }
    }
    sum
}

// The address of the first section that may be executed.
fn first_code(sections: &[Named]) -> u32
    ensures { result ≡ spec.first_code sections.now }
{
    for s in sections {
        if is_executed(s) {
            return s.1.vaddr;
        }
    }
    0
}

fn is_executed(s: &Named) -> bool
    ensures { result ≡ is_code s.now }
{
    s.1.flags & IMAGE_SCN_MEM_EXECUTE != 0
}
