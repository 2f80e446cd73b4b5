// The symbols and the sections of an input.
ghost use Rattle.std.specs.Prelude.{◌≡◌, ◌<◌, ◌+◌, ◌++◌, ◌^◌, OnOk};
ghost use Rattle.ap_fields.specs.Structures.{structure};
ghost use Rattle.ap_trial.specs.TrialInputs.{names_text, symbols_text, sections_text, symbol_rows, symbols_rows, strings_rows};

use crate::places::FIRST;
use crate::push::push_zeros;
use ap_elf::constants::{SHT_STRTAB, SHT_SYMTAB, SYM_SIZE};
use ap_fields::{put16, put32, put64};
use std::alloc::AllocError;

// The section number of a symbol whose value is absolute (`st_shndx`).
const SHN_ABS: u16 = 0xfff1;

pub(crate) fn push_symbols(out: &mut Vec<u8>) -> Result<(), AllocError>
    ensures { OnOk result (out.new.items ≡ out.old.items ++ symbols_text) }
{
    push_zeros(out, 24)?;
    push_symbol(out)?;
    push_names(out)
}

fn push_names(out: &mut Vec<u8>) -> Result<(), AllocError>
    ensures { OnOk result (out.new.items ≡ out.old.items ++ names_text) }
{
    out.extend_from_slice(b"\0ape_pe_entry\0\0\0")
}

fn push_symbol(out: &mut Vec<u8>) -> Result<(), AllocError>
    ensures { OnOk result (out.new.items ≡ out.old.items ++ structure 24 0 symbol_rows) }
{
    out.extend_from_slice(&symbol())
}

fn symbol() -> [u8; 24]
    ensures { result ≡ structure 24 0 symbol_rows }
{
    let mut bytes = [0; 24];
    put32(&mut bytes, 0, 1);
    put16(&mut bytes, 6, SHN_ABS);
    put64(&mut bytes, 8, FIRST + 16);
    bytes
}

#[tactic(auto, using(std::proofs::Common::append_assoc), unfolding(crate::specs::TrialInputs::sections_text))]
pub(crate) fn push_sections(out: &mut Vec<u8>, at: u64) -> Result<(), AllocError>
    requires { at < 2 ^ 28 }
    ensures { OnOk result (out.new.items ≡ out.old.items ++ sections_text at) }
{
    push_zeros(out, 64)?;
    push_symbol_section(out, at)?;
    push_name_section(out, at + 48)
}

fn push_symbol_section(out: &mut Vec<u8>, at: u64) -> Result<(), AllocError>
    ensures { OnOk result (out.new.items ≡ out.old.items ++ structure 64 0 (symbols_rows at)) }
{
    out.extend_from_slice(&symbol_section(at))
}

fn push_name_section(out: &mut Vec<u8>, at: u64) -> Result<(), AllocError>
    ensures { OnOk result (out.new.items ≡ out.old.items ++ structure 64 0 (strings_rows at)) }
{
    out.extend_from_slice(&name_section(at))
}

fn symbol_section(at: u64) -> [u8; 64]
    ensures { result ≡ structure 64 0 (symbols_rows at) }
{
    let mut bytes = [0; 64];
    put32(&mut bytes, 4, SHT_SYMTAB);
    put64(&mut bytes, 24, at);
    put64(&mut bytes, 32, 48);
    put32(&mut bytes, 40, 2);
    put64(&mut bytes, 56, SYM_SIZE as u64);
    bytes
}

fn name_section(at: u64) -> [u8; 64]
    ensures { result ≡ structure 64 0 (strings_rows at) }
{
    let mut bytes = [0; 64];
    put32(&mut bytes, 4, SHT_STRTAB);
    put64(&mut bytes, 24, at);
    put64(&mut bytes, 32, 14);
    bytes
}
