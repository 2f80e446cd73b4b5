// What `clap` finds of the options and operands of a command.
ghost use Rattle.std.specs.Prelude.{◌≡◌, ◌≢◌, IfErr, IfOk, OnOk, [], map, option_map, true};
ghost use Rattle.std.specs.String.{string_bytes};
ghost use Rattle.clap.specs.Words.{all_of, app_of, fault_of, first_of, found_of, is_simple_and_free, matches_of, rows_of};
ghost use Rattle.ap_words.specs.Fields as spec;

use crate::command::WordsFault;
use crate::text::{Text, Texts};
use clap::ArgMatches;
use clap::error::ErrorKind;
use std::alloc::{AllocError, Global};

/// What a command's words give its options and operands, or `Usage` where they aren't taken.
pub fn matches<'a>(
    command: clap::Command<'a>,
    words: &'a [String],
) -> Result<ArgMatches<'a>, WordsFault>
    requires { is_simple_and_free (app_of command) ≡ true }
    ensures rows { IfOk result (λ m. rows_of (found_of m)
        ≡ matches_of (app_of command.entry) (map string_bytes words.entry.now)) }
    ensures taken { OnOk result (fault_of (app_of command.entry) (map string_bytes words.entry.now) ≡ []) }
    ensures usage { IfErr result (λ e. e ≡ WordsFault.Usage
        → fault_of (app_of command.entry) (map string_bytes words.entry.now) ≢ []) }
{
    match command.try_get_matches_from(words) {
        Ok(matches) => Ok(matches),
        Err(error) => {
            if error.kind() == ErrorKind::OutOfMemory {
                Err(WordsFault::NoMemory)
            } else {
                Err(WordsFault::Usage)
            }
        }
    }
}

/// The first value of an option or an operand.
pub fn first<'a>(matches: &ArgMatches<'a>, id: &str) -> Option<&'a str>
    ensures { option_map (λ s. s.now) result ≡ first_of id.now (rows_of (found_of matches.now)) }
{
    matches.get_str(id)
}

/// The value of an option or an operand that has to stand.
pub fn given<'a>(matches: &ArgMatches<'a>, id: &str) -> &'a str
    ensures { result.now ≡ spec.text_of id.now (rows_of (found_of matches.now)) }
{
    first(matches, id).unwrap_or("")
}

/// Whether a flag stands.
pub fn is_set(matches: &ArgMatches<'_>, id: &str) -> bool
    ensures { result ≡ spec.is_set id.now (rows_of (found_of matches.now)) }
{
    given(matches, id) == "true"
}

fn values<'m, 'a>(matches: &'m ArgMatches<'a>, id: &str) -> Option<&'m [&'a str]>
    ensures { option_map (λ s. map (λ v. v.now) s.now) result
        ≡ all_of id.now (rows_of (found_of matches.now)) }
{
    matches.get_strs(id)
}

/// The text of an option or an operand that has to stand.
pub fn needed(alloc: Global, matches: &ArgMatches<'_>, id: &str) -> Result<Text, AllocError>
    ensures { IfOk result (λ t. t ≡ spec.text_of id.now (rows_of (found_of matches.now))) }
{
    Text::from_str(alloc, given(matches, id))
}

/// The text of an option that may stand.
pub fn optional(
    alloc: Global,
    matches: &ArgMatches<'_>,
    id: &str,
) -> Result<Option<Text>, AllocError>
    ensures { IfOk result (λ t. t ≡ first_of id.now (rows_of (found_of matches.now))) }
{
    match first(matches, id) {
        None => Ok(None),
        Some(text) => Ok(Some(Text::from_str(alloc, text)?)),
    }
}

/// The texts of an operand.
pub fn listed(alloc: Global, matches: &ArgMatches<'_>, id: &str) -> Result<Texts, AllocError>
    ensures { IfOk result (λ t. t ≡ spec.texts_of id.now (rows_of (found_of matches.now))) }
{
    match values(matches, id) {
        None => Texts::from_strs(alloc, &[]),
        Some(texts) => Texts::from_strs(alloc, texts),
    }
}
