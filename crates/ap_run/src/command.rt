// A run of the program.
ghost use Rattle.std.specs.Prelude.{◌≡◌, ℕ, List, Some, true};
ghost use Rattle.ap_elf.specs.Machines.{IsPage};
ghost use Rattle.ap_image.specs.Reading.{IsPlanOf};
ghost use Rattle.ap_words.specs.declared.command.Command.{Command as WordsCommand};
ghost use Rattle.ap_words.specs.Conditions.{conditions_are_met};
ghost use Rattle.ap_words.specs.Meaning.{command_of, texts_of};
ghost use Rattle.ap_run.specs.Ends.{CommandEnds, ViewEnds, RunEnds, IsComplete, status_of};
ghost use Rattle.ap_run.specs.Formats.{plan_in, reading_in};
ghost use Rattle.ap_run.specs.Views.{format_of};
ghost use Rattle.ap_run.specs.declared.format.Format.{Format as CodeFormat};
ghost use Rattle.ap_run.specs.Lines.{line_of};
ghost use Rattle.ap_run.specs.Prints.{Reports};

use crate::assimilate::assimilate;
use crate::dump::dump;
use crate::end::{Cause, End, end_by};
use crate::format::{Form, Format, form_of};
use crate::inspect::inspect;
use crate::link::link;
use crate::script::script;
use crate::script_run::ScriptRun;
use crate::show::show;
use crate::trial::trial;
use ap_files::{Files, Sink};
use ap_words::{Command, Text, Word, WordsFault, read_words};
use std::alloc::Global;

/// Does what the words say over these files, and answers how it ended. `words` doesn't have the program's name.
///
/// `load` and `map` print a plan on `out`, and `load --dump` writes its image file before; `script` prints how the file's script
/// ends; `inspect` prints a report, and `trial` a summary. `link` and `assimilate` make a file and print nothing.
///
/// Where the status isn't 0, `err` gains one line that says why, or a front of it where a write on it failed.
///
/// A plan has, at each address, the byte and the permissions that the format's reading gives of the file, and the entry
/// that it gives; a file is refused with the reading's own fault. This is said of each file, whatever it holds.
pub fn run<F: Files, O: Sink, E: Sink>(
    alloc: Global,
    words: &[String],
    files: &mut F,
    out: &mut O,
    err: &mut E,
) -> End
    ensures status { result.status ≡ status_of result.cause }
    ensures ends { RunEnds (F.state files.old) (F.state files.new) (O.state out.old)
        (O.state out.new) (texts_of words.now) result.cause }
    ensures complete { IsComplete (F.state files.old) (F.state files.new) (O.state out.old)
        (O.state out.new) (texts_of words.now) result.cause }
    ensures cells { (command : WordsCommand) (format : CodeFormat) (file : List ℕ)
        → command_of (texts_of words.now) ≡ Some command → format_of command ≡ Some format
        → IsPlanOf (plan_in format file) file (reading_in format file) }
    ensures err { Reports (E.state err.old) (E.state err.new) (line_of result.cause) }
{
    let cause = obey(alloc, words, files, out);
    end_by(err, cause)
}

fn obey<F: Files, O: Sink>(alloc: Global, words: &[String], files: &mut F, out: &mut O) -> Cause
    ensures { RunEnds (F.state files.old) (F.state files.new) (O.state out.old) (O.state out.new)
        (texts_of words.now) result }
{
    match read_words(alloc, words) {
        Ok(command) => perform(alloc, files, out, &command),
        Err(WordsFault::Usage) => Cause::Usage,
        Err(WordsFault::NoMemory) => Cause::NoMemory,
    }
}

// Does a command. Each of them has one arm here.
fn perform<F: Files, O: Sink>(alloc: Global, files: &mut F, out: &mut O, command: &Command) -> Cause
    requires { conditions_are_met command.now ≡ true }
    ensures { CommandEnds (F.state files.old) (F.state files.new) (O.state out.old) (O.state out.new)
        command.now result }
{
    match command {
        Command::Link {
            out: name,
            options,
            names,
        } => link(files, name.as_str(), options, names.as_slice()),
        Command::Load {
            machine,
            page,
            dump,
            file,
        } => {
            let format = Format {
                form: Form::Ape,
                machine: *machine,
                page: *page,
                imports: false,
            };
            view(alloc, files, out, &format, dump, file.as_str())
        }
        Command::Map {
            form,
            machine,
            page,
            imports,
            file,
        } => {
            let format = Format {
                form: form_of(*form),
                machine: *machine,
                page: *page,
                imports: *imports,
            };
            show(alloc, files, out, &format, file.as_str())
        }
        Command::Script {
            system,
            machine,
            ape,
            nul,
            file,
        } => {
            let run = ScriptRun {
                system: system.as_str(),
                machine: machine.as_str(),
                ape: *ape,
                nul: *nul,
                file: file.as_str(),
            };
            script(alloc, files, out, &run)
        }
        Command::Assimilate {
            form,
            machine,
            out: name,
            file,
        } => assimilate(alloc, files, *form, *machine, file.as_str(), name.as_str()),
        Command::Inspect { file } => inspect(alloc, files, out, file.as_str()),
        Command::Trial { number, pages } => trial(alloc, out, *number, *pages),
        Command::Bind { .. } => Cause::Unbuilt(Word::Bind),
        Command::Bundle { .. } => Cause::Unbuilt(Word::Bundle),
        Command::Stack { .. } => Cause::Unbuilt(Word::Stack),
        Command::Audit { .. } => Cause::Unbuilt(Word::Audit),
    }
}

// Shows a file, and makes the image file of its plan where one is named.
fn view<F: Files, O: Sink>(
    alloc: Global,
    files: &mut F,
    out: &mut O,
    format: &Format,
    image: &Option<Text>,
    name: &str,
) -> Cause
    requires { IsPage format.now.machine format.now.page }
    ensures { ViewEnds (F.state files.old) (F.state files.new) (O.state out.old) (O.state out.new)
        format.now name.now image.now result }
{
    match image {
        None => show(alloc, files, out, format, name),
        Some(image) => dump(alloc, files, out, format, name, image.as_str()),
    }
}
