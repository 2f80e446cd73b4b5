// The text of how a script ends.
ghost use Rattle.std.specs.Prelude.{◌≡◌, ◌++◌, IfOk, OnOk, flat_map};
ghost use Rattle.ap_shell.specs.declared.types.Outcome.TheVariants.{Execs, Exits};
ghost use Rattle.ap_run.specs.Outcomes as spec;
ghost use Rattle.ap_run.specs.Outcomes.{word_line};

use crate::byte_text::push_bytes;
use ap_shell::Outcome;
use ap_texts::push_decimal;
use sqlite_items::Items;
use std::alloc::{AllocError, Global};

/// The text of an outcome: `execs` and the file with a line `word` for each word behind its name, or `exits` and the status.
pub fn outcome_text(alloc: Global, outcome: &Outcome) -> Result<Vec<u8>, AllocError>
    ensures { IfOk result (λ text. text.items ≡ spec.outcome_text outcome.now) }
{
    match outcome {
        Outcome::Execs { path, words } => execs_text(alloc, path.as_slice(), words.as_slice()),
        Outcome::Exits { status } => exits_text(alloc, *status),
    }
}

#[tactic(auto, using(std::proofs::Common::append_assoc))]
fn execs_text(alloc: Global, path: &[u8], words: &[Items<u8>]) -> Result<Vec<u8>, AllocError>
    ensures { IfOk result (λ text. text.items ≡ spec.outcome_text (Execs path.now words.now)) }
{
    let mut text = Vec::new(alloc);
    text.extend_from_slice(b"execs ")?;
    push_bytes(&mut text, path)?;
    text.extend_from_slice(b"\n")?;
    push_words(&mut text, words)?;
    Ok(text)
}

#[tactic(auto, using(std::proofs::Common::append_assoc))]
fn exits_text(alloc: Global, status: u8) -> Result<Vec<u8>, AllocError>
    ensures { IfOk result (λ text. text.items ≡ spec.outcome_text (Exits status)) }
{
    let mut text = Vec::new(alloc);
    text.extend_from_slice(b"exits ")?;
    push_decimal(&mut text, status as u64)?;
    text.extend_from_slice(b"\n")?;
    Ok(text)
}

#[tactic(auto, using(std::proofs::Common::append_assoc))]
fn push_words(text: &mut Vec<u8>, words: &[Items<u8>]) -> Result<(), AllocError>
    ensures { OnOk result (text.new.items ≡ text.old.items ++ flat_map word_line words.now) }
{
    for word in words {
        push_word(text, word.as_slice())?;
    }
    Ok(())
}

#[tactic(auto, using(std::proofs::Common::append_assoc), unfolding(crate::specs::Outcomes::word_line))]
fn push_word(text: &mut Vec<u8>, word: &[u8]) -> Result<(), AllocError>
    ensures { OnOk result (text.new.items ≡ text.old.items ++ word_line word.now) }
{
    text.extend_from_slice(b"word ")?;
    push_bytes(text, word)?;
    text.extend_from_slice(b"\n")
}
