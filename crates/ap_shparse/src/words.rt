//! Words and assignments.
ghost use Rattle.std.specs.Prelude.{◌≡◌, IfOk};
ghost use Rattle.ap_shparse.specs.Words as spec;
ghost use Rattle.ap_shparse.specs.Reads.{Reads};

use crate::class::{self, Class};
use crate::pieces::{self, Substitution, Words};
use crate::refusal::Refusal;
use crate::text::Text;
use crate::tree::{Assign, Part, Word};
use sqlite_items::Items;
use std::alloc::{AllocError, Global};

const NOT_FIRST: &[u8] = b"!#{}~";

const BRACKET: &[u8] = b"[";

const DIFFERS: &[u8] = b"!=";

// Whether pieces begin a word here.
#[tactic(auto, unfolding(crate::specs::Words::begins_word))]
fn begins_word(text: &Text<'_>) -> bool
    ensures { result ≡ spec.begins_word text.now }
{
    match text.first() {
        None => false,
        Some(first) => first == b'\''
            || (first == b'"' || class::is_plain(first) && !NOT_FIRST.contains(&first)),
    }
}

/// Whether an assignment begins here.
#[tactic(auto, unfolding(crate::specs::Words::is_assignment))]
pub(crate) fn is_assignment(text: &Text<'_>) -> bool
    ensures { result ≡ spec.is_assignment text.now }
{
    if !text.begins_name() {
        return false;
    }
    let mut rest = Text::new(text.as_slice());
    let _name = rest.run(Class::Name);
    rest.eat(b'=')
}

fn text_word(alloc: Global, text: &[u8]) -> Result<Word, AllocError>
    ensures { IfOk result (λ w. w ≡ spec.text_word text.now) }
{
    let bytes = Items::from_slice(alloc, text)?;
    let mut parts = Items::new(alloc);
    parts.push(Part::Text { bytes })?;
    Ok(Word::Parts { parts })
}

impl<S: Substitution> Words<S> {
    #[tactic(auto, unfolding(crate::specs::Words::pieced))]
    fn pieced(&self, text: &mut Text<'_>) -> Result<Word, Refusal>
        ensures { Reads (spec.pieced (S.reads self.now.sub) text.old) result text.new }
    {
        if !begins_word(text) {
            return Err(Refusal::Outside);
        }
        let found = self.pieces(text)?;
        if found.dollar {
            return Err(Refusal::Outside);
        }
        let parts = found.into_parts()?;
        Ok(Word::Parts { parts })
    }

    /// A word other than `"$@"`.
    #[tactic(auto, unfolding(crate::specs::Words::plain_word))]
    pub(crate) fn plain_word(&self, text: &mut Text<'_>) -> Result<Word, Refusal>
        ensures { Reads (spec.plain_word (S.reads self.now.sub) text.old) result text.new }
    {
        if text.eat_word(BRACKET) {
            return Ok(text_word(self.alloc, BRACKET)?);
        }
        if text.eat_word(DIFFERS) {
            return Ok(text_word(self.alloc, DIFFERS)?);
        }
        self.pieced(text)
    }

    #[tactic(auto, unfolding(crate::specs::Words::value))]
    fn value(&self, text: &mut Text<'_>) -> Result<Word, Refusal>
        ensures { Reads (spec.value (S.reads self.now.sub) text.old) result text.new }
    {
        let found = self.pieces(text)?;
        if found.tilde {
            return Err(Refusal::Outside);
        }
        let parts = found.into_parts()?;
        Ok(Word::Parts { parts })
    }

    #[tactic(auto, unfolding(crate::specs::Words::assignment))]
    pub(crate) fn assignment(&self, text: &mut Text<'_>) -> Result<Assign, Refusal>
        ensures { Reads (spec.assignment (S.reads self.now.sub) text.old) result text.new }
    {
        let name = pieces::name(self.alloc, text)?;
        text.expect(b'=')?;
        let value = self.value(text)?;
        Ok(Assign { name, value })
    }
}
