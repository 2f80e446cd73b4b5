// The structures as bytes, and that they are read back.
ghost use Rattle.std.specs.Prelude.{◌≡◌, ℕ, List};
ghost use Rattle.ap_fields.specs.Bytes.{Holds};
ghost use Rattle.ap_elf.specs.Fields.{header_of, entry_at};
ghost use Rattle.ap_elf.specs.Written as spec;
ghost use Rattle.ap_elf.specs.Written.{TablesAreReadBack};

use crate::constants::{EHDR_SIZE, EI_NIDENT, PHDR_SIZE};
use crate::types::{Entry, Header};
use ap_fields::{put16, put32, put64};

/// The bytes of an ELF header (System V gABI, "ELF Header"). A file that has them at its start has this header.
pub fn header_bytes(h: &Header) -> [u8; EHDR_SIZE]
    ensures bytes { result ≡ spec.header_bytes h.now }
    ensures back { (w : List ℕ) → Holds w 0 result → header_of w ≡ h.now }
{
    let mut bytes = [0; EHDR_SIZE];
    bytes[..EI_NIDENT].copy_from_slice(&h.ident);
    put16(&mut bytes, 16, h.e_type);
    put16(&mut bytes, 18, h.e_machine);
    put32(&mut bytes, 20, h.e_version);
    put64(&mut bytes, 24, h.e_entry);
    put64(&mut bytes, 32, h.e_phoff);
    put64(&mut bytes, 40, h.e_shoff);
    put32(&mut bytes, 48, h.e_flags);
    put16(&mut bytes, 52, h.e_ehsize);
    put16(&mut bytes, 54, h.e_phentsize);
    put16(&mut bytes, 56, h.e_phnum);
    put16(&mut bytes, 58, h.e_shentsize);
    put16(&mut bytes, 60, h.e_shnum);
    put16(&mut bytes, 62, h.e_shstrndx);
    bytes
}

/// The bytes of a program header (System V gABI, "Program Header"). A file that has them at a place has this program
/// header there.
pub fn entry_bytes(p: &Entry) -> [u8; PHDR_SIZE]
    ensures bytes { result ≡ spec.entry_bytes p.now }
    ensures back { (w : List ℕ) (at : ℕ) → Holds w at result → entry_at w at ≡ p.now }
{
    let mut bytes = [0; PHDR_SIZE];
    put32(&mut bytes, 0, p.kind);
    put32(&mut bytes, 4, p.flags);
    put64(&mut bytes, 8, p.offset);
    put64(&mut bytes, 16, p.vaddr);
    put64(&mut bytes, 24, p.paddr);
    put64(&mut bytes, 32, p.filesz);
    put64(&mut bytes, 40, p.memsz);
    put64(&mut bytes, 48, p.align);
    bytes
}

/// A file that has the bytes of a program header table at a place has these program headers there.
pub fn tables_are_read_back()
    ensures { TablesAreReadBack }
{}
