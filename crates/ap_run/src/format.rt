// The formats that files are read by.
ghost use Rattle.std.specs.Prelude.{◌≡◌, IfOk};
ghost use Rattle.ap_files.specs.Reads.{HasSize, Reads};
ghost use Rattle.ap_elf.specs.Machines.{IsPage};
ghost use Rattle.ap_image.specs.Plans.{AreBacked};
ghost use Rattle.ap_run.specs.Formats as spec;
ghost use Rattle.ap_run.specs.Views as views;
ghost use Rattle.ap_run.specs.Formats.{plan_in};

use crate::end::ReadingFault;
use ap_check::Machine;
use ap_elfmap::ElfReading;
use ap_files::{Failed, Files};
use ap_image::Plan;
use ap_loader::ApeReading;
use ap_machmap::MachReading;
use ap_pemap::PeReading;

/// A form of program files.
#[derive(Clone, Copy, Debug, PartialEq, Eq)]
pub enum Form {
    /// Actually Portable Executable.
    Ape,
    /// ELF.
    Elf,
    /// PE32+ for x86-64, whose plan doesn't depend on machine and page.
    Pe,
    /// Mach-O for x86-64, whose plan doesn't depend on machine and page.
    Mach,
}

/// A form, for a machine and one of its page sizes.
#[derive(Clone, Copy, Debug, PartialEq, Eq)]
pub struct Format {
    pub form: Form,
    pub machine: Machine,
    /// The page size in bytes.
    pub page: u64,
    /// Whether what the file imports follows its plan. Then the form is PE32+.
    pub imports: bool,
}

impl Format {
    /// The plan of a file by the format's reading, by the file's name, or the reading's first refusal. `size` is the file's
    /// length.
    ///
    /// `Failed`: a read failed.
    #[tactic(auto, unfolding(crate::specs::Formats::plan_in))]
    pub fn plan_in<F: Files>(
        &self,
        files: &mut F,
        name: &str,
        size: u64,
    ) -> Result<Result<Plan, ReadingFault>, Failed>
        requires page { IsPage self.now.machine self.now.page }
        requires size { HasSize (F.state files.old).kept name.now size }
        ensures read { Reads (F.state files.old) (F.state files.new) name.now
            (λ b plan. plan ≡ plan_in self.now b) result }
        ensures backed { IfOk result (λ plan. IfOk plan (λ p. AreBacked p.regions size)) }
    {
        match self.form {
            Form::Ape => ape_plan(self.machine, self.page, files, name, size),
            Form::Elf => elf_plan(self.machine, self.page, files, name, size),
            Form::Pe => pe_plan(files, name, size),
            Form::Mach => mach_plan(files, name, size),
        }
    }
}

fn ape_plan<F: Files>(
    machine: Machine,
    page: u64,
    files: &mut F,
    name: &str,
    size: u64,
) -> Result<Result<Plan, ReadingFault>, Failed>
    requires page { IsPage machine page }
    requires size { HasSize (F.state files.old).kept name.now size }
    ensures read { Reads (F.state files.old) (F.state files.new) name.now
        (λ b plan. plan ≡ spec.ape_plan_in machine page b) result }
    ensures backed { IfOk result (λ plan. IfOk plan (λ p. AreBacked p.regions size)) }
{
    let reading = ApeReading { machine, page };
    match reading.read_in(files, name, size) {
        Ok(plan) => Ok(plan.map_err(ReadingFault::Ape)),
        Err(failed) => Err(failed),
    }
}

fn elf_plan<F: Files>(
    machine: Machine,
    page: u64,
    files: &mut F,
    name: &str,
    size: u64,
) -> Result<Result<Plan, ReadingFault>, Failed>
    requires page { IsPage machine page }
    requires size { HasSize (F.state files.old).kept name.now size }
    ensures read { Reads (F.state files.old) (F.state files.new) name.now
        (λ b plan. plan ≡ spec.elf_plan_in machine page b) result }
    ensures backed { IfOk result (λ plan. IfOk plan (λ p. AreBacked p.regions size)) }
{
    let reading = ElfReading { machine, page };
    match reading.read_in(files, name, size) {
        Ok(plan) => Ok(plan.map_err(ReadingFault::Elf)),
        Err(failed) => Err(failed),
    }
}

fn pe_plan<F: Files>(
    files: &mut F,
    name: &str,
    size: u64,
) -> Result<Result<Plan, ReadingFault>, Failed>
    requires { HasSize (F.state files.old).kept name.now size }
    ensures read { Reads (F.state files.old) (F.state files.new) name.now
        (λ b plan. plan ≡ spec.pe_plan_in b) result }
    ensures backed { IfOk result (λ plan. IfOk plan (λ p. AreBacked p.regions size)) }
{
    match PeReading.read_in(files, name, size) {
        Ok(plan) => Ok(plan.map_err(ReadingFault::Pe)),
        Err(failed) => Err(failed),
    }
}

fn mach_plan<F: Files>(
    files: &mut F,
    name: &str,
    size: u64,
) -> Result<Result<Plan, ReadingFault>, Failed>
    requires { HasSize (F.state files.old).kept name.now size }
    ensures read { Reads (F.state files.old) (F.state files.new) name.now
        (λ b plan. plan ≡ spec.mach_plan_in b) result }
    ensures backed { IfOk result (λ plan. IfOk plan (λ p. AreBacked p.regions size)) }
{
    match MachReading.read_in(files, name, size) {
        Ok(plan) => Ok(plan.map_err(ReadingFault::Mach)),
        Err(failed) => Err(failed),
    }
}

/// The form that words name.
pub fn form_of(form: ap_words::Form) -> Form
    ensures { result ≡ views.form_of form }
{
    match form {
        ap_words::Form::Pe => Form::Pe,
        ap_words::Form::Mach => Form::Mach,
        ap_words::Form::Elf => Form::Elf,
    }
}
