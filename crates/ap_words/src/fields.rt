// The fields of a command, by what `clap` gives its options and operands.
ghost use Rattle.std.specs.Prelude.{◌≡◌, Some};
ghost use Rattle.clap.specs.Words.{found_of, first_of, rows_of};
ghost use Rattle.ap_words.specs.Fields as spec;
ghost use Rattle.ap_words.specs.Meaning.{Gives};

use crate::command::{Command, Form, WordsFault};
use crate::matches::{first, given, is_set, listed, needed, optional};
use crate::named::{form_named, machine_or_usual, nul_or_usual, page_or_usual};
use crate::number::{number_in, small_in};
use crate::systems::systems_or_usual;
use crate::word::Word;
use ap_check::{Machine, Options};
use clap::ArgMatches;
use std::alloc::Global;

/// The command of a command word, or `Usage` where a name or a number isn't one.
pub fn fields_of(alloc: Global, word: Word, matches: &ArgMatches<'_>) -> Result<Command, WordsFault>
    ensures { Gives result (spec.fields_of word (rows_of (found_of matches.now))) }
{
    match word {
        Word::Link => link_of(alloc, matches),
        Word::Load => load_of(alloc, matches),
        Word::Map => map_of(alloc, matches),
        Word::Script => script_of(alloc, matches),
        Word::Assimilate => assimilate_of(alloc, matches),
        Word::Inspect => inspect_of(alloc, matches),
        Word::Trial => trial_of(matches),
        Word::Bind => bind_of(alloc, matches),
        Word::Bundle => bundle_of(alloc, matches),
        Word::Stack => stack_of(alloc, matches),
        Word::Audit => audit_of(alloc, matches),
    }
}

fn machine_of(matches: &ArgMatches<'_>) -> Option<Machine>
    ensures { result ≡ spec.machine_of (rows_of (found_of matches.now)) }
{
    machine_or_usual(first(matches, "machine"))
}

fn page_of(machine: Machine, matches: &ArgMatches<'_>) -> Option<u64>
    ensures { result ≡ spec.page_of machine (rows_of (found_of matches.now)) }
{
    page_or_usual(machine, first(matches, "page"))
}

fn form_of(matches: &ArgMatches<'_>) -> Option<Form>
    ensures { result ≡ spec.form_of (rows_of (found_of matches.now)) }
{
    form_named(given(matches, "as"))
}

fn link_of(alloc: Global, matches: &ArgMatches<'_>) -> Result<Command, WordsFault>
    ensures { Gives result (spec.link_of (rows_of (found_of matches.now))) }
{
    let Some(systems) = systems_or_usual(first(matches, "systems")) else {
        return Err(WordsFault::Usage);
    };
    let debug = is_set(matches, "debug-magic");
    let out = needed(alloc, matches, "out")?;
    let names = listed(alloc, matches, "in")?;
    let options = Options { systems, debug };
    Ok(Command::Link {
        out,
        options,
        names,
    })
}

fn load_of(alloc: Global, matches: &ArgMatches<'_>) -> Result<Command, WordsFault>
    ensures { Gives result (spec.load_of (rows_of (found_of matches.now))) }
{
    let Some(machine) = machine_of(matches) else {
        return Err(WordsFault::Usage);
    };
    let Some(page) = page_of(machine, matches) else {
        return Err(WordsFault::Usage);
    };
    let dump = optional(alloc, matches, "dump")?;
    let file = needed(alloc, matches, "file")?;
    Ok(Command::Load {
        machine,
        page,
        dump,
        file,
    })
}

fn map_of(alloc: Global, matches: &ArgMatches<'_>) -> Result<Command, WordsFault>
    ensures { Gives result (spec.map_of (rows_of (found_of matches.now))) }
{
    let Some(form) = form_of(matches) else {
        return Err(WordsFault::Usage);
    };
    let Some(machine) = machine_of(matches) else {
        return Err(WordsFault::Usage);
    };
    let Some(page) = page_of(machine, matches) else {
        return Err(WordsFault::Usage);
    };
    let imports = is_set(matches, "imports");
    let file = needed(alloc, matches, "file")?;
    Ok(Command::Map {
        form,
        machine,
        page,
        imports,
        file,
    })
}

fn script_of(alloc: Global, matches: &ArgMatches<'_>) -> Result<Command, WordsFault>
    ensures { Gives result (spec.script_of (rows_of (found_of matches.now))) }
{
    let Some(nul) = nul_or_usual(first(matches, "nul")) else {
        return Err(WordsFault::Usage);
    };
    let ape = is_set(matches, "ape");
    let system = needed(alloc, matches, "system")?;
    let machine = needed(alloc, matches, "machine")?;
    let file = needed(alloc, matches, "file")?;
    Ok(Command::Script {
        system,
        machine,
        ape,
        nul,
        file,
    })
}

fn assimilate_of(alloc: Global, matches: &ArgMatches<'_>) -> Result<Command, WordsFault>
    ensures { Gives result (spec.assimilate_of (rows_of (found_of matches.now))) }
{
    let Some(form) = form_of(matches) else {
        return Err(WordsFault::Usage);
    };
    let Some(machine) = machine_of(matches) else {
        return Err(WordsFault::Usage);
    };
    let out = needed(alloc, matches, "out")?;
    let file = needed(alloc, matches, "file")?;
    Ok(Command::Assimilate {
        form,
        machine,
        out,
        file,
    })
}

fn inspect_of(alloc: Global, matches: &ArgMatches<'_>) -> Result<Command, WordsFault>
    ensures { Gives result (spec.inspect_of (rows_of (found_of matches.now))) }
{
    let file = needed(alloc, matches, "file")?;
    Ok(Command::Inspect { file })
}

fn trial_of(matches: &ArgMatches<'_>) -> Result<Command, WordsFault>
    ensures { Gives result (spec.trial_of (rows_of (found_of matches.now))) }
{
    let Some(number) = number_in(given(matches, "number"), 20) else {
        return Err(WordsFault::Usage);
    };
    let Some(pages) = small_in(given(matches, "pages"), 20) else {
        return Err(WordsFault::Usage);
    };
    Ok(Command::Trial { number, pages })
}

fn bind_of(alloc: Global, matches: &ArgMatches<'_>) -> Result<Command, WordsFault>
    ensures { Gives result (spec.bind_of (rows_of (found_of matches.now))) }
{
    let Some(base) = number_in(given(matches, "at"), 19) else {
        return Err(WordsFault::Usage);
    };
    let out = needed(alloc, matches, "out")?;
    let file = needed(alloc, matches, "file")?;
    Ok(Command::Bind { base, out, file })
}

fn bundle_of(alloc: Global, matches: &ArgMatches<'_>) -> Result<Command, WordsFault>
    ensures { Gives result (spec.bundle_of (rows_of (found_of matches.now))) }
{
    let out = needed(alloc, matches, "out")?;
    let app = needed(alloc, matches, "app")?;
    let x64 = optional(alloc, matches, "x86-64")?;
    let a64 = optional(alloc, matches, "aarch64")?;
    Ok(Command::Bundle { out, app, x64, a64 })
}

fn stack_of(alloc: Global, matches: &ArgMatches<'_>) -> Result<Command, WordsFault>
    ensures { Gives result (spec.stack_of (rows_of (found_of matches.now))) }
{
    let Some(machine) = machine_of(matches) else {
        return Err(WordsFault::Usage);
    };
    let Some(page) = page_of(machine, matches) else {
        return Err(WordsFault::Usage);
    };
    let out = needed(alloc, matches, "out")?;
    let file = needed(alloc, matches, "file")?;
    let words = listed(alloc, matches, "word")?;
    Ok(Command::Stack {
        machine,
        page,
        out,
        file,
        words,
    })
}

fn audit_of(alloc: Global, matches: &ArgMatches<'_>) -> Result<Command, WordsFault>
    ensures { Gives result (spec.audit_of (rows_of (found_of matches.now))) }
{
    let file = needed(alloc, matches, "file")?;
    Ok(Command::Audit { file })
}
