// The structures read from a file by its name, alone, without the rest of the file.
ghost use Rattle.std.specs.Prelude.{◌≡◌, ◌*◌, ◌≤◌, IfOk, length};
ghost use Rattle.ap_files.specs.Files.{HasRange};
ghost use Rattle.ap_files.specs.Reads.{Reads};
ghost use Rattle.ap_elf.specs.Fields.{header_of, entries_from};

use crate::constants::{EHDR_SIZE, MOST_PHDRS, PHDR_SIZE};
use crate::read::{entries, header};
use crate::types::{Entry, Header};
use ap_files::{Failed, Files};
use arrayvec::ArrayVec;

/// The ELF header of a file that has room for one.
///
/// `Failed`: a read failed.
pub fn header_in<F: Files>(files: &mut F, name: &str) -> Result<Header, Failed>
    requires { HasRange (F.state files.old).kept name.now 0 EHDR_SIZE }
    ensures { Reads (F.state files.old) (F.state files.new) name.now (λ b h. h ≡ header_of b)
        result }
{
    let mut part = [0; EHDR_SIZE];
    files.read_at(name, 0, &mut part)?;
    Ok(header(&part))
}

/// The program header table of a file in which it lies, read at once.
///
/// `Failed`: a read failed.
pub fn entries_in<F: Files>(
    files: &mut F,
    name: &str,
    h: &Header,
) -> Result<ArrayVec<Entry, MOST_PHDRS>, Failed>
    requires few { h.now.e_phnum ≤ MOST_PHDRS }
    requires range { HasRange (F.state files.old).kept name.now h.now.e_phoff
        (PHDR_SIZE * h.now.e_phnum) }
    ensures read { Reads (F.state files.old) (F.state files.new) name.now
        (λ b v. v.items ≡ entries_from b h.now.e_phoff h.now.e_phnum) result }
    ensures count { IfOk result (λ v. length v.items ≡ h.now.e_phnum) }
{
    let mut room = [0; PHDR_SIZE * MOST_PHDRS];
    let part = &mut room[..PHDR_SIZE * h.e_phnum as usize];
    files.read_at(name, h.e_phoff, part)?;
    Ok(entries(part, 0, h.e_phnum))
}
