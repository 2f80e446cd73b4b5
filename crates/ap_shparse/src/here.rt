//! Here-documents.
ghost use Rattle.std.specs.Prelude.{◌≡◌, [], length, option_map};
ghost use Rattle.ap_shparse.specs.Bytes as bytes;
ghost use Rattle.ap_shparse.specs.Places as spec;
ghost use Rattle.ap_shparse.specs.Reads.{Eats, Lends, Reads};

use crate::class::Class;
use crate::lines::Lines;
use crate::pieces::{Substitution, Words};
use crate::refusal::Refusal;
use crate::text::{ENDERS, Text};
use sqlite_items::Items;
use std::alloc::Global;

const ARGS: &[u8] = b"\"$@\"";

/// Takes `[` or `"$@"`, where it comes next as a whole word.
pub(crate) fn eat_lone(text: &mut Text<'_>) -> bool
    ensures { Eats (spec.lone text.old) result text.old text.new }
{
    text.eat_word(b"[") || text.eat_word(ARGS)
}

fn is_delimiter(word: &[u8]) -> bool
    ensures { result ≡ spec.is_delimiter word.now }
{
    !word.is_empty() && !word.contains(&b'\n')
}

// Behind `<<`.
#[tactic(auto, unfolding(crate::specs::Places::delimiter))]
fn delimiter<'a>(text: &mut Text<'a>) -> Result<&'a [u8], Refusal>
    ensures { Lends (spec.delimiter text.old) result text.new }
{
    text.expect(b'\'')?;
    let word = text.run(Class::Quoted);
    text.expect(b'\'')?;
    if is_delimiter(word) && text.ends_word() {
        return Ok(word);
    }
    Err(Refusal::Outside)
}

// From the newline before the body to the end of its closing line.
#[tactic(auto, unfolding(crate::specs::Places::body))]
fn body(alloc: Global, text: &mut Text<'_>, delimiter: &[u8]) -> Result<Items<u8>, Refusal>
    ensures { Reads (spec.body delimiter.now text.old) result text.new }
{
    text.expect(b'\n')?;
    let turns = text.len();
    lines_before(alloc, text, delimiter, turns)
}

// The lines before the one that is the delimiter.
#[tactic(auto, unfolding(crate::specs::Places::body_from))]
fn lines_before(
    alloc: Global,
    text: &mut Text<'_>,
    delimiter: &[u8],
    turns: usize,
) -> Result<Items<u8>, Refusal>
    ensures { Reads (spec.body_from delimiter.now turns [] text.old) result text.new }
{
    let mut found = Items::new(alloc);
    for _turn in 0..turns {
        let line = text.run(Class::Comment);
        if line == delimiter {
            return Ok(found);
        }
        text.expect(b'\n')?;
        found.append(Items::from_slice(alloc, line)?)?;
        found.push(b'\n')?;
    }
    Err(Refusal::Outside)
}

impl<S: Substitution> Words<S> {
    // A byte that no word holds, or a word.
    #[tactic(auto, unfolding(crate::specs::Places::token))]
    fn token(&self, text: &mut Text<'_>) -> Result<(), Refusal>
        ensures { Reads (spec.token (S.reads self.now.sub) text.old) result text.new }
    {
        let Some(byte) = text.first() else {
            return Err(Refusal::Outside);
        };
        if ENDERS.contains(&byte) {
            let _byte = text.next();
            return Ok(());
        }
        if eat_lone(text) {
            return Ok(());
        }
        let _word = self.pieces(text)?;
        Ok(())
    }

    // Goes to the next newline that isn't part of a word.
    #[tactic(auto, unfolding(crate::specs::Places::line, crate::specs::Places::line_from))]
    fn line(&self, text: &mut Text<'_>) -> Result<(), Refusal>
        ensures { Reads (spec.line (S.reads self.now.sub) text.old) result text.new }
    {
        let turns = text.len();
        for _turn in 0..turns {
            text.gap();
            if text.sees_byte(b'\n') {
                return Ok(());
            }
            self.token(text)?;
        }
        Err(Refusal::Outside)
    }

    /// The body of a here-document, behind its operator.
    #[tactic(auto, unfolding(crate::specs::Places::here))]
    pub(crate) fn here(&self, lines: &mut Lines<'_>) -> Result<Items<u8>, Refusal>
        ensures { Reads (spec.here (S.reads self.now.sub) lines.old) result lines.new }
    {
        let delimiter = delimiter(&mut lines.text)?;
        let mut bodies = Text::new(lines.text.as_slice());
        self.to_bodies(&mut bodies, lines.bodies)?;
        let found = body(self.alloc, &mut bodies, delimiter)?;
        lines.bodies = Some(bodies.as_slice());
        Ok(found)
    }

    // Goes to the end of the bodies of the line's other here-documents.
    fn to_bodies<'a>(&self, text: &mut Text<'a>, bodies: Option<&'a [u8]>) -> Result<(), Refusal>
        ensures { Reads (spec.or_line (S.reads self.now.sub) text.old (option_map (λ b. b.now) bodies.entry)) result text.new }
    {
        match bodies {
            Some(bodies) => {
                *text = Text::new(bodies);
                Ok(())
            }
            None => self.line(text),
        }
    }
}
