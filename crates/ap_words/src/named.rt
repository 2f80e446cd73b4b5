// Names of machines, pages, forms and readings of NUL.
ghost use Rattle.std.specs.Prelude.{◌≡◌};
ghost use Rattle.std.specs.Option.{option_copied};
ghost use Rattle.ap_words.specs.Names as spec;

use crate::command::Form;
use ap_check::Machine;
use ap_shparse::Nul;

/// The machine of a name, or x86-64.
pub fn machine_or_usual(name: Option<&str>) -> Option<Machine>
    ensures { result ≡ spec.machine_or_usual (option_copied name.entry) }
{
    match name {
        None => Some(Machine::X64),
        Some(name) => machine_named(name),
    }
}

fn machine_named(name: &str) -> Option<Machine>
    ensures { result ≡ spec.machine_named name.now }
{
    if name == "x86-64" {
        Some(Machine::X64)
    } else if name == "aarch64" {
        Some(Machine::A64)
    } else {
        None
    }
}

/// The page size of a name in bytes, or the greatest of the machine.
pub fn page_or_usual(machine: Machine, name: Option<&str>) -> Option<u64>
    ensures { result ≡ spec.page_or_usual machine (option_copied name.entry) }
{
    match name {
        None => Some(machine.granule()),
        Some(name) => page_named(name),
    }
}

fn page_named(name: &str) -> Option<u64>
    ensures { result ≡ spec.page_named name.now }
{
    if name == "4096" {
        Some(4096)
    } else if name == "16384" {
        Some(16384)
    } else {
        None
    }
}

/// Whether a machine has pages of so many bytes: 4096, or also 16384 for AArch64.
pub fn has_page(machine: Machine, page: u64) -> bool
    ensures { result ≡ spec.has_page machine page }
{
    match machine {
        Machine::X64 => page == 4096,
        Machine::A64 => page == 4096 || page == 16384,
    }
}

pub fn form_named(name: &str) -> Option<Form>
    ensures { result ≡ spec.form_named name.now }
{
    if name == "pe" {
        Some(Form::Pe)
    } else if name == "mach" {
        Some(Form::Mach)
    } else if name == "elf" {
        Some(Form::Elf)
    } else {
        None
    }
}

/// The reading of NUL of a name, or the one that keeps it.
pub fn nul_or_usual(name: Option<&str>) -> Option<Nul>
    ensures { result ≡ spec.nul_or_usual (option_copied name.entry) }
{
    match name {
        None => Some(Nul::Keep),
        Some(name) => nul_named(name),
    }
}

fn nul_named(name: &str) -> Option<Nul>
    ensures { result ≡ spec.nul_named name.now }
{
    if name == "keep" {
        Some(Nul::Keep)
    } else if name == "drop" {
        Some(Nul::Drop)
    } else {
        None
    }
}
