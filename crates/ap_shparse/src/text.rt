//! What is left of a text.
ghost use Rattle.std.specs.Prelude.{◌≡◌, length, slice_get, option_map, [], ◌∷◌, MatchOption, IsTrue, ◌↔◌};
ghost use Rattle.std.specs.Option.{option_copied};
ghost use Rattle.ap_shparse.specs.Bytes.{begins_with, run, after, gap, ends_word, past, past_byte};
ghost use Rattle.ap_shparse.specs.Reads.{Eats, Reads};
ghost use Rattle.ap_shparse.specs.Places.{last};
ghost use Rattle.ap_shparse.specs.Commands.{sees};
ghost use Rattle.ap_shparse.specs.Lists.{past_twice};
ghost use Rattle.ap_shparse.specs.Pieces.{begins_name, expect};

use crate::class::{self, Class};
use crate::refusal::Refusal;
use std::marker::Model;

#[derive(Drop)]
pub(crate) struct Text<'a> {
    rest: &'a [u8],
}

impl<'a> Model for Text<'a> {
    ghost use Rattle.std.specs.Prelude.{List, ℕ};

    ghost Value = { List ℕ };

    ghost view = { λ t. t.rest.now };
}

/// What may stand behind a word.
pub(crate) const ENDERS: &[u8] = b"\t\n &();<>|";

impl<'a> Text<'a> {
    pub(crate) fn new(text: &'a [u8]) -> Text<'a>
        ensures { result ≡ text.now }
    {
        Text { rest: text }
    }

    pub(crate) fn as_slice(&self) -> &'a [u8]
        ensures { result.now ≡ self.now }
    {
        self.rest
    }

    pub(crate) fn len(&self) -> usize
        ensures { result ≡ length self.now }
    {
        self.rest.len()
    }

    pub(crate) fn is_empty(&self) -> bool
        ensures { IsTrue result ↔ (self.now ≡ []) }
    {
        self.rest.is_empty()
    }

    /// So many of the last bytes.
    pub(crate) fn last(&self, count: usize) -> Text<'a>
        ensures { result ≡ last count self.now }
    {
        Text {
            rest: &self.rest[self.rest.len().saturating_sub(count)..],
        }
    }

    /// Takes the byte that comes next.
    pub(crate) fn next(&mut self) -> Option<u8>
        ensures { MatchOption result ((self.old ≡ []) × (self.new ≡ [])) (λ c. self.old ≡ c ∷ self.new) }
    {
        match self.rest {
            [] => None,
            [byte, rest @ ..] => {
                self.rest = rest;
                Some(*byte)
            }
        }
    }

    /// The byte that comes next.
    pub(crate) fn first(&self) -> Option<u8>
        ensures { result ≡ slice_get self.now 0 }
    {
        self.rest.first().copied()
    }

    /// Takes this byte, which has to come next.
    pub(crate) fn expect(&mut self, byte: u8) -> Result<(), Refusal>
        ensures { Reads (expect byte self.old) result self.new }
    {
        if self.eat(byte) {
            Ok(())
        } else {
            Err(Refusal::Outside)
        }
    }

    /// Whether a name comes next.
    pub(crate) fn begins_name(&self) -> bool
        ensures { result ≡ begins_name self.now }
    {
        match self.rest {
            [] => false,
            [first, ..] => class::is_letter(*first),
        }
    }

    /// Takes this byte, where it comes next.
    pub(crate) fn eat(&mut self, byte: u8) -> bool
        ensures { Eats (past_byte byte self.old) result self.old self.new }
    {
        match self.rest {
            [first, rest @ ..] if *first == byte => {
                self.rest = rest;
                true
            }
            _ => false,
        }
    }

    /// Whether this byte comes next.
    pub(crate) fn sees_byte(&self, byte: u8) -> bool
        ensures { result ≡ begins_with byte self.now }
    {
        match self.rest {
            [first, ..] => *first == byte,
            [] => false,
        }
    }

    /// Takes this byte twice, where it comes next twice.
    pub(crate) fn eat_twice(&mut self, byte: u8) -> bool
        ensures { Eats (past_twice byte self.old) result self.old self.new }
    {
        match self.rest {
            [first, second, rest @ ..] if *first == byte && *second == byte => {
                self.rest = rest;
                true
            }
            _ => false,
        }
    }

    /// Whether this word comes next as a whole.
    pub(crate) fn sees(&self, word: &[u8]) -> bool
        ensures { result ≡ sees word.now self.now }
    {
        let mut rest = Text { rest: self.rest };
        rest.eat_word(word)
    }

    /// Takes the longest run of bytes of a class.
    pub(crate) fn run(&mut self, class: Class) -> &'a [u8]
        ensures run { result.now ≡ run class self.old }
        ensures after { self.new ≡ after class self.old }
    {
        let text = self.rest;
        for (at, byte) in text.iter().enumerate() {
            if !class.has(*byte) {
                self.rest = &text[at..];
                return &text[..at];
            }
        }
        self.rest = &text[text.len()..];
        text
    }

    /// Takes blanks, and a comment behind them.
    #[tactic(auto, unfolding(crate::specs::Bytes::gap, crate::specs::Bytes::past_comment))]
    pub(crate) fn gap(&mut self)
        ensures { self.new ≡ gap self.old }
    {
        let _blanks = self.run(Class::Blank);
        if self.eat(b'#') {
            let _comment = self.run(Class::Comment);
        }
    }

    /// Whether a word may end here.
    #[tactic(auto, unfolding(crate::specs::Bytes::ends_word))]
    pub(crate) fn ends_word(&self) -> bool
        ensures { result ≡ ends_word self.now }
    {
        match self.rest {
            [] => true,
            [first, ..] => ENDERS.contains(first),
        }
    }

    /// Takes this word, where it comes next as a whole.
    pub(crate) fn eat_word(&mut self, word: &[u8]) -> bool
        ensures { Eats (past word.now self.old) result self.old self.new }
    {
        let text = self.rest;
        for byte in word {
            if !self.eat(*byte) {
                self.rest = text;
                return false;
            }
        }
        if self.ends_word() {
            return true;
        }
        self.rest = text;
        false
    }
}
