// Headers that a file embeds.
ghost use Rattle.std.specs.Prelude.{◌≡◌, take};
ghost use Rattle.ap_octal.specs.Embedded.{Opens};
ghost use Rattle.ap_elf.specs.Machines.{number_of};
ghost use Rattle.ap_loader.specs.Embedded as spec;
ghost use Rattle.ap_loader.specs.Embedded.{taken};

use ap_elf::Machine;
use ap_elf::constants::EHDR_SIZE;
use ap_fields::{WINDOW, le16};
use ap_octal::{decode_at, statements};

/// The first statement in the file's first 8192 bytes whose octal text stands for at least 64 bytes that begin as an ELF
/// header for the machine: its place, and the first 64 of these bytes. None exactly where the file doesn't begin with
/// `MZqFpD='`, `jartsr='` or `APEDBG='`, or there is no such statement.
pub fn embedded(file: &[u8], machine: Machine) -> Option<(usize, [u8; EHDR_SIZE])>
    ensures { result ≡ taken (number_of machine) file.now }
{
    if !has_magic(file) {
        return None;
    }
    let mut from = 0;
    while let Some(at) = statements(file, from) {
        if let Some(header) = header_at(file, at, machine) {
            return Some((at, header));
        }
        from = at + 1;
    }
    None
}

// The header that the statement at a place prints, where it is one for the machine.
fn header_at(file: &[u8], at: usize, machine: Machine) -> Option<[u8; EHDR_SIZE]>
    requires { Opens file.now at }
    ensures { result ≡ spec.header_at (number_of machine) (take WINDOW file.now) at }
{
    let decoded = decode_at(file, at)?;
    if is_header_for(&decoded.first, machine) {
        Some(decoded.first)
    } else {
        None
    }
}

// Whether bytes begin as an ELF header of 64 bits, little endian, for the machine.
fn is_header_for(bytes: &[u8; EHDR_SIZE], machine: Machine) -> bool
    ensures { result ≡ spec.begins_header (number_of machine) bytes.now }
{
    bytes.starts_with(b"\x7fELF\x02\x01") && le16(bytes, 18) == machine.number()
}

/// Whether the file begins with one of the format's texts: `MZqFpD='`, `jartsr='` or `APEDBG='`.
pub fn has_magic(file: &[u8]) -> bool
    ensures { result ≡ spec.has_magic file.now }
{
    file.starts_with(b"MZqFpD='") || file.starts_with(b"jartsr='") || file.starts_with(b"APEDBG='")
}
