// Files that become files for one system alone.
ghost use Rattle.std.specs.Prelude.{◌≡◌, false};
ghost use Rattle.ap_words.specs.Conditions.{is_pe};
ghost use Rattle.ap_assim.specs.Assimilated.{Becomes as InPlace};
ghost use Rattle.ap_run.specs.Assimilates.{Assimilated, Becomes, BecomesOr};
ghost use Rattle.ap_run.specs.Shows.{Answers};
ghost use Rattle.ap_run.specs.Whole.{MakesOf};
ghost use Rattle.ap_run.specs.Writes.{WriteEnds};

use crate::end::{Cause, ReadingFault};
use crate::fetch::fetch;
use ap_assim::{AssimFault, become_elf, become_mach};
use ap_elf::Machine;
use ap_files::{Files, write_all};
use ap_words::Form;
use std::alloc::Global;

/// Makes the file `out`: what an APE file becomes as an ELF file for the machine, or as a Mach-O file; and answers how that
/// ended. The file is read whole before `out` is started, and changed where it stands in memory.
pub fn assimilate<F: Files>(
    alloc: Global,
    files: &mut F,
    form: Form,
    machine: Machine,
    name: &str,
    out: &str,
) -> Cause
    requires { is_pe form ≡ false }
    ensures { WriteEnds (F.state files.old) (F.state files.new) (Assimilated form machine) name.now
        out.now result }
{
    match bytes_of(alloc, files, form, machine, name) {
        Ok(bytes) => match write_all(files, out, &bytes) {
            Ok(()) => Cause::Done,
            Err(_) => Cause::WriteFault,
        },
        Err(cause) => cause,
    }
}

// The bytes of the new file, or why there are none.
fn bytes_of<F: Files>(
    alloc: Global,
    files: &mut F,
    form: Form,
    machine: Machine,
    name: &str,
) -> Result<Vec<u8>, Cause>
    requires { is_pe form ≡ false }
    ensures { Answers (F.state files.old) (F.state files.new) (Assimilated form machine) name.now
        result }
{
    match fetch(alloc, files, name) {
        Ok(file) => made_of(form, machine, file),
        Err(cause) => Err(cause),
    }
}

// What the bytes of a file become.
fn made_of(form: Form, machine: Machine, file: Vec<u8>) -> Result<Vec<u8>, Cause>
    requires { is_pe form ≡ false }
    ensures { MakesOf (BecomesOr form machine) file.items result }
{
    let mut bytes = file;
    match become_of(form, machine, &mut bytes) {
        Ok(()) => Ok(bytes),
        Err(AssimFault::NotApe) => Err(Cause::Unread(ReadingFault::NotApe)),
        Err(AssimFault::NoStatement) => Err(Cause::Unread(ReadingFault::NoStatement)),
        Err(AssimFault::NoMemory) => Err(Cause::NoMemory),
    }
}

// The same where the bytes stand.
fn become_of(form: Form, machine: Machine, file: &mut [u8]) -> Result<(), AssimFault>
    requires { is_pe form ≡ false }
    ensures { InPlace (Becomes form machine file.old) file.old file.new result }
{
    match form {
        Form::Elf => become_elf(file, machine),
        Form::Mach | Form::Pe => become_mach(file),
    }
}
