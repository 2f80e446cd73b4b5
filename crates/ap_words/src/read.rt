// A list of words.
ghost use Rattle.std.specs.Prelude.{◌≡◌, IfOk, map, true};
ghost use Rattle.std.specs.String.{string_bytes};
ghost use Rattle.ap_words.specs.Conditions.{conditions_are_met as spec_met};
ghost use Rattle.ap_words.specs.Meaning.{Gives, asked, command_of, kept, texts_of};

use crate::command::{Command, WordsFault};
use crate::conditions::conditions_are_met;
use crate::fields::fields_of;
use crate::matches::matches;
use crate::table::declared;
use crate::word::{Word, word_named};
use std::alloc::Global;

/// The command of a list of words, of which the first is a command word. `words` doesn't have the program's name.
///
/// Each option and flag stands once at most, in any order and also between operands. A word that begins with `-` is no operand
/// and no value of its own, unless it is `-` alone; `--` ends the options, and a value may be joined to its option, as in
/// `-oOUT` and `--page=4096`.
///
/// `Usage`: the words are no command. `NoMemory`: no memory was left to tell.
pub fn read_words(alloc: Global, words: &[String]) -> Result<Command, WordsFault>
    ensures command { Gives result (command_of (texts_of words.now)) }
    ensures met { IfOk result (λ command. spec_met command ≡ true) }
{
    let Some(name) = words.first() else {
        return Err(WordsFault::Usage);
    };
    let Some(word) = word_named(name.as_str()) else {
        return Err(WordsFault::Usage);
    };
    match asked(alloc, word, words) {
        Ok(command) => kept(command),
        Err(fault) => Err(fault),
    }
}

fn asked(alloc: Global, word: Word, words: &[String]) -> Result<Command, WordsFault>
    ensures { Gives result (asked word (texts_of words.now)) }
{
    let command = declared(alloc, word)?;
    let matches = matches(command, words)?;
    fields_of(alloc, word, &matches)
}

fn kept(command: Command) -> Result<Command, WordsFault>
    ensures command { Gives result (kept command) }
    ensures met { IfOk result (λ c. spec_met c ≡ true) }
{
    if conditions_are_met(&command) {
        Ok(command)
    } else {
        Err(WordsFault::Usage)
    }
}
