// The symbols of a file whose bytes are in memory.
ghost use Rattle.std.specs.Prelude.{◌≡◌, length};
ghost use Rattle.ap_elf.specs.Symbols.{located, symbol_of, symbols_part_of, FoundBelow};

use crate::located::locate_in;
use crate::lookup::symbol_in;
use crate::types::{Header, Located};
use ap_files::SliceFiles;

/// Where the symbols of a file are, by the section headers that an ELF header tells of.
#[tactic(auto, using(ap_files::proofs::SliceLemmas::slice_steps))]
pub fn locate(b: &[u8], h: &Header) -> Located
    ensures is { result ≡ located (length b.now) b.now h.now }
    ensures ends { FoundBelow (length b.now) result }
{
    let mut files = SliceFiles { bytes: b };
    match locate_in(&mut files, "", b.len() as u64, h) {
        Ok(located) => located,
        Err(_) => unreachable!(),
    }
}

/// The first part that fails of the sections and tables that a file's symbols need, or 0 (`Located::Part`). No part
/// fails where there is no section, and 3 to 7 don't fail where there is no symbol table.
pub fn symbols_part(b: &[u8], h: &Header) -> u8
    ensures { result ≡ symbols_part_of b.now h.now }
{
    match locate(b, h) {
        Located::Part { part } => part,
        Located::Missing => 0,
        Located::At(_) => 0,
    }
}

/// The value of the first defined symbol of a file that has the name. None exactly where no defined symbol has it.
#[tactic(auto, using(ap_files::proofs::SliceLemmas::slice_steps))]
pub fn symbol(b: &[u8], h: &Header, name: &[u8]) -> Option<u64>
    requires { symbols_part_of b.now h.now ≡ 0 }
    ensures { result ≡ symbol_of b.now h.now name.now }
{
    let Located::At(t) = locate(b, h) else {
        return None;
    };
    let mut files = SliceFiles { bytes: b };
    match symbol_in(&mut files, "", &t, name, &[]) {
        Ok(value) => value,
        Err(_) => unreachable!(),
    }
}
