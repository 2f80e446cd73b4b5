// The rules on the sections of the symbols.
ghost use Rattle.std.specs.Prelude.{◌≡◌, ◌+◌, ◌*◌, ◌≤◌, nat_le, IfNone};
ghost use Rattle.ap_fields.specs.FirstFault.{first_fault};
ghost use Rattle.ap_elf.specs.Symbols as symbols;
ghost use Rattle.ap_elf.specs.Symbols.{place_rules, table_rules, string_rules, tables_at, found_unless, FoundBelow};

use crate::constants::{SHDR_SIZE, SHT_STRTAB, SHT_SYMTAB, SYM_SIZE};
use crate::types::{Header, Located, Section, Tables};

/// Whether a section is a symbol table.
pub(crate) fn is_symbol_table(s: &Section) -> bool
    ensures { result ≡ symbols.is_symbol_table s.now }
{
    s.kind == SHT_SYMTAB
}

/// The first part that fails of the section headers of a file of `size` bytes.
pub(crate) fn place_fault(size: u64, h: &Header) -> Option<u8>
    ensures first { result ≡ first_fault (place_rules size h.now) }
    ensures fits { IfNone result (h.now.e_shoff + SHDR_SIZE * h.now.e_shnum ≤ size) }
{
    if h.e_shentsize != SHDR_SIZE as u16 {
        return Some(1);
    }
    if !fits(h.e_shoff, SHDR_SIZE as u64 * h.e_shnum as u64, size) {
        return Some(2);
    }
    None
}

/// The first part that fails of a symbol table.
pub(crate) fn table_fault(size: u64, t: &Section) -> Option<u8>
    ensures first { result ≡ first_fault (table_rules size t.now) }
    ensures fits { IfNone result (t.now.offset + t.now.size ≤ size) }
{
    if t.entsize != SYM_SIZE as u64 {
        return Some(3);
    }
    if !fits(t.offset, t.size, size) {
        return Some(4);
    }
    if t.size % SYM_SIZE as u64 != 0 {
        return Some(5);
    }
    None
}

/// The tables, once both of their sections are known.
pub(crate) fn found(size: u64, t: &Section, strings: Option<Section>) -> Located
    requires { t.now.offset + t.now.size ≤ size }
    ensures is { result ≡ found_unless (first_fault (string_rules size strings))
        (tables_at t.now strings) }
    ensures ends { FoundBelow size result }
{
    let Some(s) = strings else {
        return Located::Part { part: 6 };
    };
    if s.kind != SHT_STRTAB {
        return Located::Part { part: 6 };
    }
    if !fits(s.offset, s.size, size) {
        return Located::Part { part: 7 };
    }
    Located::At(Tables {
        at: t.offset,
        count: t.size / SYM_SIZE as u64,
        strings: s.offset,
        length: s.size,
    })
}

// Whether `length` bytes from `at` on lie in a file of `size` bytes.
fn fits(at: u64, length: u64, size: u64) -> bool
    ensures { result ≡ nat_le (at + length) size }
{
    length <= size && at <= size - length
}
