// The reading of ELF files by their names.
ghost use Rattle.std.specs.Prelude.{◌≡◌, ◌+◌, ◌*◌, ◌≤◌, ◌<◌, length, IfOk};
ghost use Rattle.ap_files.specs.Reads.{HasSize, Reads};
ghost use Rattle.ap_fields.specs.Bytes.{over};
ghost use Rattle.ap_elf.specs.declared.constants.TheConstants.{EHDR_SIZE, PHDR_SIZE, MOST_PHDRS};
ghost use Rattle.ap_elf.specs.Fields.{header_of, entries_from, entries_of};
ghost use Rattle.ap_elf.specs.Machines.{number_of, IsPage};
ghost use Rattle.ap_image.specs.Plans.{AreBacked};
ghost use Rattle.ap_elfmap.specs.ElfPlans.{elf_plan, elf_plan_by};

use crate::fault::fault;
use crate::header::check_header;
use crate::plan::plan_by;
use crate::reading::ElfReading;
use ap_elf::constants::{EHDR_SIZE, MOST_PHDRS, PHDR_SIZE};
use ap_elf::{ElfCause, ElfFault, Entry, Header, Machine, entries, entries_in};
use ap_files::{Failed, Files};
use ap_image::Plan;
use arrayvec::ArrayVec;

/// The bytes that a header and a program header table take at most, where the table begins in the header.
const FRONT: usize = EHDR_SIZE + PHDR_SIZE * MOST_PHDRS;

impl ElfReading {
    /// The reading of a file by its name, where `size` is its length. Its first 64 bytes and its program header table
    /// alone are read, and of a file of fewer than 64 bytes nothing.
    ///
    /// `Failed`: a read failed.
    pub fn read_in<F: Files>(
        &self,
        files: &mut F,
        name: &str,
        size: u64,
    ) -> Result<Result<Plan, ElfFault>, Failed>
        requires page { IsPage self.now.machine self.now.page }
        requires size { HasSize (F.state files.old).kept name.now size }
        ensures read { Reads (F.state files.old) (F.state files.new) name.now
            (λ b plan. plan ≡ elf_plan (number_of self.now.machine) self.now.page b) result }
        ensures backed { IfOk result (λ plan. IfOk plan (λ p. AreBacked p.regions size)) }
    {
        if size < EHDR_SIZE as u64 {
            return Ok(Err(fault(ElfCause::Short, 0, size)));
        }
        let mut header = [0; EHDR_SIZE];
        files.read_at(name, 0, &mut header)?;
        read_with_in(self.machine, self.page, &header, files, name, size)
    }
}

/// The reading of a file by its name, where `size` is its length and its first 64 bytes are replaced by `header`, as
/// [`crate::read_with`] has it. Where the header meets its rules the program header table is read, and else nothing.
///
/// `Failed`: a read failed.
pub fn read_with_in<F: Files>(
    machine: Machine,
    page: u64,
    header: &[u8; EHDR_SIZE],
    files: &mut F,
    name: &str,
    size: u64,
) -> Result<Result<Plan, ElfFault>, Failed>
    requires page { IsPage machine page }
    requires size { HasSize (F.state files.old).kept name.now size }
    ensures read { Reads (F.state files.old) (F.state files.new) name.now
        (λ b plan. plan ≡ elf_plan_by (number_of machine) page (length b)
        (header_of (over b header.now)) (entries_of (over b header.now))) result }
    ensures backed { IfOk result (λ plan. IfOk plan (λ p. AreBacked p.regions size)) }
{
    let h = ap_elf::header(header);
    if let Err(fault) = check_header(&h, size, machine.number()) {
        return Ok(Err(fault));
    }
    let entries = entries_over_in(header, &h, files, name, size)?;
    Ok(plan_by(machine, page, size, &h, &entries))
}

// The program headers by `h` of a file whose first 64 bytes are replaced by `header`.
fn entries_over_in<F: Files>(
    header: &[u8; EHDR_SIZE],
    h: &Header,
    files: &mut F,
    name: &str,
    size: u64,
) -> Result<ArrayVec<Entry, MOST_PHDRS>, Failed>
    requires size { HasSize (F.state files.old).kept name.now size }
    requires least { EHDR_SIZE ≤ size }
    requires table { h.now.e_phoff + PHDR_SIZE * h.now.e_phnum ≤ size }
    requires few { h.now.e_phnum ≤ MOST_PHDRS }
    ensures { Reads (F.state files.old) (F.state files.new) name.now
        (λ b found. found.items ≡ entries_from (over b header.now) h.now.e_phoff h.now.e_phnum)
        result }
{
    if h.e_phoff < EHDR_SIZE as u64 {
        front_entries_in(header, h, files, name, size)
    } else {
        entries_in(files, name, h)
    }
}

// The same, where the table begins in the bytes that are replaced.
fn front_entries_in<F: Files>(
    header: &[u8; EHDR_SIZE],
    h: &Header,
    files: &mut F,
    name: &str,
    size: u64,
) -> Result<ArrayVec<Entry, MOST_PHDRS>, Failed>
    requires size { HasSize (F.state files.old).kept name.now size }
    requires least { EHDR_SIZE ≤ size }
    requires table { h.now.e_phoff + PHDR_SIZE * h.now.e_phnum ≤ size }
    requires few { h.now.e_phnum ≤ MOST_PHDRS }
    requires front { h.now.e_phoff < EHDR_SIZE }
    ensures { Reads (F.state files.old) (F.state files.new) name.now
        (λ b found. found.items ≡ entries_from (over b header.now) h.now.e_phoff h.now.e_phnum)
        result }
{
    let mut room = [0; FRONT];
    let front = &mut room[..size.min(FRONT as u64) as usize];
    files.read_at(name, 0, front)?;
    replace(front, header);
    Ok(entries(front, h.e_phoff as usize, h.e_phnum))
}

// Replaces the first bytes.
fn replace(front: &mut [u8], header: &[u8; EHDR_SIZE])
    requires { EHDR_SIZE ≤ length front.old }
    ensures { front.new ≡ over front.old header.now }
{
    front[..EHDR_SIZE].copy_from_slice(header);
}
