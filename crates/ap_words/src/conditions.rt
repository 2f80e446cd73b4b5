// What has to hold of a command besides.
ghost use Rattle.std.specs.Prelude.{◌≡◌};
ghost use Rattle.ap_words.specs.Conditions as spec;

use crate::command::{Command, Form};
use crate::named::has_page;
use crate::text::Text;
use ap_check::{Options, Systems};
use bitflags::Flags;

/// Whether the conditions of a command are met.
pub fn conditions_are_met(command: &Command) -> bool
    ensures { result ≡ spec.conditions_are_met command.now }
{
    match command {
        Command::Link {
            out,
            options,
            names,
        } => is_magic(*options) && fit(out.as_str(), names.as_slice()),
        Command::Load {
            machine,
            page,
            dump,
            file,
        } => has_page(*machine, *page) && is_other(file.as_str(), dump),
        Command::Map {
            form,
            machine,
            page,
            imports,
            ..
        } => has_page(*machine, *page) && (!*imports || is_pe(*form)),
        Command::Assimilate {
            form,
            out,
            file,
            ..
        } => !is_pe(*form) && out.as_str() != file.as_str(),
        Command::Trial { pages, .. } => *pages >= 1 && *pages <= 16384,
        Command::Bind { base, out, file } => *base < 1 << 63 && out.as_str() != file.as_str(),
        Command::Bundle { out, app, x64, a64 } => {
            out.as_str() != app.as_str()
                && is_other(out.as_str(), x64)
                && is_other(out.as_str(), a64)
        }
        Command::Stack {
            machine,
            page,
            out,
            file,
            ..
        } => has_page(*machine, *page) && out.as_str() != file.as_str(),
        Command::Script { .. } | Command::Inspect { .. } | Command::Audit { .. } => true,
    }
}

// Whether there is a magic for these options.
fn is_magic(options: Options) -> bool
    ensures { result ≡ spec.is_magic options }
{
    if options.debug {
        !options.systems.intersects(Systems::WINDOWS)
    } else {
        true
    }
}

// Whether there are one or two inputs, and the file to make is none of them.
fn fit(out: &str, names: &[Text]) -> bool
    ensures { result ≡ spec.fit out.now names.now }
{
    names.len() >= 1 && names.len() <= 2 && is_none_of(out, names)
}

fn is_none_of(out: &str, names: &[Text]) -> bool
    ensures { result ≡ spec.is_none_of out.now names.now }
{
    for name in names {
        if name.as_str() == out {
            return false;
        }
    }
    true
}

fn is_other(file: &str, other: &Option<Text>) -> bool
    ensures { result ≡ spec.is_other file.now other.now }
{
    match other {
        None => true,
        Some(other) => file != other.as_str(),
    }
}

fn is_pe(form: Form) -> bool
    ensures { result ≡ spec.is_pe form }
{
    match form {
        Form::Pe => true,
        Form::Mach | Form::Elf => false,
    }
}
