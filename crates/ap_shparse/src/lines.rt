//! Where a reading stands in a text.
ghost use Rattle.std.specs.Prelude.{◌≡◌, length, Some};
ghost use Rattle.ap_shparse.specs.Bytes as bytes;
ghost use Rattle.ap_shparse.specs.Places.{at_text, newlines, next_line, past_newline, waits, Place};
ghost use Rattle.ap_shparse.specs.Commands.{alone, is_nil};
ghost use Rattle.ap_shparse.specs.Scripts.{left_at};
ghost use Rattle.ap_shparse.specs.Reads.{Eats, Goes, Reads};
ghost use Rattle.ap_shparse.specs.Lists.{ended, keyword};

use crate::class::Class;
use crate::refusal::Refusal;
use crate::text::Text;
use std::marker::Model;

/// What is left of a text, with the here-documents that wait for their bodies.
#[derive(Drop)]
pub(crate) struct Lines<'a> {
    pub(crate) text: Text<'a>,
    /// Where the bodies that were taken from below this line end.
    pub(crate) bodies: Option<&'a [u8]>,
}

impl<'a> Model for Lines<'a> {
    ghost use Rattle.std.specs.Prelude.{option_map};
    ghost use Rattle.ap_shparse.specs.Places.{Place};

    ghost Value = { Place };

    ghost view = { λ l. record { text = l.text; bodies = option_map (λ b. b.now) l.bodies } };
}

impl<'a> Lines<'a> {
    pub(crate) fn new(text: &'a [u8]) -> Lines<'a>
        ensures { result ≡ alone text.now }
    {
        Lines {
            text: Text::new(text),
            bodies: None,
        }
    }

    /// Whether a here-document waits for the next newline.
    pub(crate) fn waits(&self) -> bool
        ensures { result ≡ waits self.now }
    {
        self.bodies.is_some()
    }

    pub(crate) fn is_empty(&self) -> bool
        ensures { result ≡ is_nil self.now.text }
    {
        self.text.is_empty()
    }

    /// How many bytes are left where an item begins, unless a here-document waits there.
    pub(crate) fn left(&self, before: usize) -> usize
        ensures { result ≡ left_at before self.now }
    {
        if self.waits() {
            before
        } else {
            before.min(self.text.len())
        }
    }

    pub(crate) fn blanks(&mut self)
        ensures { self.new ≡ at_text self.old (bytes.after Class.Blank self.old.text) }
    {
        let _blanks = self.text.run(Class::Blank);
    }

    /// Takes blanks, and a comment behind them.
    pub(crate) fn gap(&mut self)
        ensures { self.new ≡ at_text self.old (bytes.gap self.old.text) }
    {
        self.text.gap();
    }

    /// Takes the newline that comes next, and the bodies behind it.
    pub(crate) fn eat_newline(&mut self) -> bool
        ensures { Eats (past_newline self.old) result self.old self.new }
    {
        if !self.text.eat(b'\n') {
            return false;
        }
        self.end_line();
        true
    }

    // Behind a newline: goes on behind the bodies.
    fn end_line(&mut self)
        ensures { self.new ≡ next_line self.old self.old.text }
    {
        if let Some(bodies) = self.bodies {
            self.text = self.text.last(bodies.len().saturating_sub(1));
            self.bodies = None;
        }
    }

    /// Takes the newline or `;` that has to come next.
    pub(crate) fn end(&mut self) -> Result<(), Refusal>
        ensures { Reads (ended self.old) result self.new }
    {
        if self.text.eat(b';') || self.eat_newline() {
            Ok(())
        } else {
            Err(Refusal::Outside)
        }
    }

    /// Takes the word that has to come next as a whole.
    pub(crate) fn keyword(&mut self, word: &[u8]) -> Result<(), Refusal>
        ensures { Reads (keyword word.now self.old) result self.new }
    {
        if self.text.eat_word(word) {
            Ok(())
        } else {
            Err(Refusal::Outside)
        }
    }

    /// Takes blanks, comments and newlines.
    #[tactic(auto, unfolding(crate::specs::Places::newlines, crate::specs::Places::newlines_from))]
    pub(crate) fn newlines(&mut self) -> bool
        ensures { Goes (newlines self.old) result self.new }
    {
        let turns = self.text.len();
        for _turn in 0..turns {
            self.gap();
            if !self.eat_newline() {
                return true;
            }
        }
        self.gap();
        !self.eat_newline()
    }
}
