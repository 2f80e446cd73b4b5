// The structures read from bytes.
ghost use Rattle.std.specs.Prelude.{◌≡◌, ◌+◌, ◌*◌, ◌≤◌, ◌<◌, length, take};
ghost use Rattle.ap_elf.specs.Fields.{header_of, entry_at, entries_from};
ghost use Rattle.ap_elf.specs.Symbols.{section_at, symbol_at};

use crate::constants::{EHDR_SIZE, EI_NIDENT, MOST_PHDRS, PHDR_SIZE, SHDR_SIZE, SYM_SIZE};
use crate::types::{Entry, Header, Section, Symbol};
use ap_fields::{le16, le32, le64};
use arrayvec::ArrayVec;

/// The ELF header of a file that has room for one.
#[tactic(auto, unfolding(crate::specs::Fields::header_of))]
pub fn header(b: &[u8]) -> Header
    requires { EHDR_SIZE ≤ length b.now }
    ensures { result ≡ header_of b.now }
{
    Header {
        ident: ident(b),
        e_type: le16(b, 16),
        e_machine: le16(b, 18),
        e_version: le32(b, 20),
        e_entry: le64(b, 24),
        e_phoff: le64(b, 32),
        e_shoff: le64(b, 40),
        e_flags: le32(b, 48),
        e_ehsize: le16(b, 52),
        e_phentsize: le16(b, 54),
        e_phnum: le16(b, 56),
        e_shentsize: le16(b, 58),
        e_shnum: le16(b, 60),
        e_shstrndx: le16(b, 62),
    }
}

/// The program header number `i` of a file, counted from 0, where the table lies in the file.
pub fn entry(b: &[u8], h: &Header, i: u16) -> Entry
    requires number { i < h.now.e_phnum }
    requires table { h.now.e_phoff + PHDR_SIZE * h.now.e_phnum ≤ length b.now }
    ensures { result ≡ entry_at b.now (h.now.e_phoff + PHDR_SIZE * i) }
{
    entry_from(b, h.e_phoff as usize + PHDR_SIZE * i as usize)
}

/// The `count` program headers that follow each other from the place `at` on.
#[tactic(auto, using(crate::proofs::EntryTables::table_steps))]
pub fn entries(b: &[u8], at: usize, count: u16) -> ArrayVec<Entry, MOST_PHDRS>
    requires table { at + PHDR_SIZE * count ≤ length b.now }
    requires few { count ≤ MOST_PHDRS }
    ensures { result.items ≡ entries_from b.now at count }
{
    let mut found = ArrayVec::new();
    for i in 0..count {
        found.push(entry_from(b, at + PHDR_SIZE * i as usize));
    }
    found
}

fn ident(b: &[u8]) -> [u8; EI_NIDENT]
    requires { EHDR_SIZE ≤ length b.now }
    ensures { result ≡ take EI_NIDENT b.now }
{
    let mut ident = [0; EI_NIDENT];
    ident.copy_from_slice(&b[..EI_NIDENT]);
    ident
}

#[tactic(auto, unfolding(crate::specs::Fields::entry_at))]
fn entry_from(b: &[u8], at: usize) -> Entry
    requires { at + PHDR_SIZE ≤ length b.now }
    ensures { result ≡ entry_at b.now at }
{
    Entry {
        kind: le32(b, at),
        flags: le32(b, at + 4),
        offset: le64(b, at + 8),
        vaddr: le64(b, at + 16),
        paddr: le64(b, at + 24),
        filesz: le64(b, at + 32),
        memsz: le64(b, at + 40),
        align: le64(b, at + 48),
    }
}

#[tactic(auto, unfolding(crate::specs::Symbols::section_at))]
pub(crate) fn section_from(b: &[u8], at: usize) -> Section
    requires { at + SHDR_SIZE ≤ length b.now }
    ensures { result ≡ section_at b.now at }
{
    Section {
        kind: le32(b, at + 4),
        offset: le64(b, at + 24),
        size: le64(b, at + 32),
        link: le32(b, at + 40),
        entsize: le64(b, at + 56),
    }
}

#[tactic(auto, unfolding(crate::specs::Symbols::symbol_at))]
pub(crate) fn symbol_from(b: &[u8], at: usize) -> Symbol
    requires { at + SYM_SIZE ≤ length b.now }
    ensures { result ≡ symbol_at b.now at }
{
    Symbol {
        name: le32(b, at),
        section: le16(b, at + 6),
        value: le64(b, at + 8),
    }
}
