ghost use Rattle.std.specs.Prelude.{◌≡◌, OnOk, ◌||◌, [], ◌∷◌, ◌++◌};
ghost use Rattle.ap_shparse.specs.Commands as spec;

use crate::redirect::Operator;
use crate::tree::{Assign, Redirection, Simple, Target, Word};
use sqlite_items::Items;
use std::alloc::{AllocError, Global};

/// Which of the commands that end a script is called by a first word without quotes.
#[derive(Clone, Copy)]
pub(crate) enum Calls {
    Other,
    Exit,
    Exec,
}

/// What was found of a simple command so far.
#[derive(Drop)]
pub(crate) struct Elements {
    pub(crate) assigns: Items<Assign>,
    pub(crate) words: Items<Word>,
    pub(crate) redirections: Items<Redirection>,
    /// Whether there is a here-document, of which a command has one at most.
    pub(crate) here: bool,
    pub(crate) calls: Calls,
    /// Whether a word other than `"$@"` follows the first one.
    pub(crate) more: bool,
}

/// A simple command, and what it may do to the script.
#[derive(Drop)]
pub(crate) struct Called {
    pub(crate) simple: Simple,
    /// Whether its first word is plainly `exit` or `exec`.
    pub(crate) leaves: bool,
    /// Whether it is a stopping command, where it is an item by itself.
    pub(crate) stops: bool,
}

impl Elements {
    pub(crate) fn new(alloc: Global) -> Elements
        ensures { result ≡ spec.no_elements }
    {
        Elements {
            assigns: Items::new(alloc),
            words: Items::new(alloc),
            redirections: Items::new(alloc),
            here: false,
            calls: Calls::Other,
            more: false,
        }
    }

    pub(crate) fn is_empty(&self) -> bool
        ensures { result ≡ spec.is_empty self.now }
    {
        is_nil(&self.assigns) && (is_nil(&self.words) && is_nil(&self.redirections))
    }

    pub(crate) fn has_no_words(&self) -> bool
        ensures { result ≡ spec.is_nil self.now.words }
    {
        is_nil(&self.words)
    }

    pub(crate) fn push_redirection(
        &mut self,
        operator: Operator,
        number: u8,
        to: Target,
    ) -> Result<(), AllocError>
        ensures { OnOk result (self.new ≡ spec.with_redirection self.old operator number to) }
    {
        self.here = self.here || is_here(operator);
        self.redirections.push(Redirection { number, to })
    }

    pub(crate) fn push_args(&mut self) -> Result<(), AllocError>
        ensures { OnOk result (self.new ≡ spec.with_args self.old) }
    {
        self.words.push(Word::Args)
    }

    pub(crate) fn push_word(&mut self, calls: Calls, word: Word) -> Result<(), AllocError>
        ensures { OnOk result (self.new ≡ spec.with_word self.old calls word) }
    {
        if self.has_no_words() {
            self.calls = calls;
        } else {
            self.more = true;
        }
        self.words.push(word)
    }

    pub(crate) fn into_called(self) -> Called
        ensures { result ≡ spec.called self }
    {
        let leaves = leaves(self.calls);
        let stops = stops(self.calls, self.more);
        let Elements {
            assigns,
            words,
            redirections,
            ..
        } = self;
        Called {
            simple: Simple {
                assigns,
                words,
                redirections,
            },
            leaves,
            stops,
        }
    }
}

pub(crate) fn is_nil<T>(items: &Items<T>) -> bool
    ensures { result ≡ spec.is_nil items.now }
{
    items.is_empty()
}

pub(crate) fn is_here(operator: Operator) -> bool
    ensures { result ≡ spec.is_here operator }
{
    match operator {
        Operator::Here => true,
        _ => false,
    }
}

impl Called {
    pub(crate) fn into_simple(self) -> Simple
        ensures { result ≡ self.simple }
    {
        let Called { simple, .. } = self;
        simple
    }
}

fn leaves(calls: Calls) -> bool
    ensures { result ≡ spec.leaves calls }
{
    match calls {
        Calls::Other => false,
        _ => true,
    }
}

fn stops(calls: Calls, more: bool) -> bool
    ensures { result ≡ spec.stops calls more }
{
    match calls {
        Calls::Exit => true,
        Calls::Exec => more,
        Calls::Other => false,
    }
}
