//! Simple commands.
ghost use Rattle.std.specs.Prelude.{◌≡◌, length, List, ℕ};
ghost use Rattle.ap_shparse.specs.Commands as spec;
ghost use Rattle.ap_shparse.specs.Reads.{Leads, Reads};

use crate::class::Class;
use crate::elements::{self, Called, Calls, Elements};
use crate::lines::Lines;
use crate::pieces::{Substitution, Words};
use crate::refusal::Refusal;
use crate::text::Text;
use crate::tree::Simple;
use crate::{redirect, words};
use std::alloc::Global;

const ARGS: &[u8] = b"\"$@\"";

fn is_keyword(text: &Text<'_>) -> bool
    ensures { result ≡ spec.is_keyword text.now }
{
    text.sees(b"if") || (text.sees(b"then") || (text.sees(b"else") || text.sees(b"fi")))
}

fn is_loop(text: &Text<'_>) -> bool
    ensures { result ≡ spec.is_loop text.now }
{
    text.sees(b"while")
        || (text.sees(b"until") || (text.sees(b"for") || (text.sees(b"do") || text.sees(b"done"))))
}

fn is_left_out(text: &Text<'_>) -> bool
    ensures { result ≡ spec.is_left_out text.now }
{
    text.sees(b"case") || (text.sees(b"esac") || (text.sees(b"elif") || text.sees(b"function")))
}

// Whether a word that begins no simple command comes next.
#[tactic(auto, unfolding(crate::specs::Commands::is_reserved))]
fn is_reserved(text: &Text<'_>) -> bool
    ensures { result ≡ spec.is_reserved text.now }
{
    is_keyword(text) || (is_loop(text) || is_left_out(text))
}

fn calls_at(text: &Text<'_>) -> Calls
    ensures { result ≡ spec.calls_at text.now }
{
    if text.sees(b"exit") {
        Calls::Exit
    } else if text.sees(b"exec") {
        Calls::Exec
    } else {
        Calls::Other
    }
}

// Whether no element begins here.
fn ends_command(text: &Text<'_>) -> bool
    ensures { result ≡ spec.ends_command text.now }
{
    !redirect::redirects(text) && (text.ends_word() || text.sees_byte(b'#'))
}

impl<S: Substitution> Words<S> {
    #[tactic(auto, unfolding(crate::specs::Commands::redirection))]
    fn redirection(&self, found: &mut Elements, lines: &mut Lines<'_>) -> Result<(), Refusal>
        ensures { Leads (spec.redirection (S.reads self.now.sub) found.old lines.old) result found.new lines.new }
    {
        let digits = lines.text.run(Class::Digit);
        let operator = redirect::next_operator(&mut lines.text)?;
        if found.here && elements::is_here(operator) {
            return Err(Refusal::Outside);
        }
        match operator.number(digits) {
            None => Err(Refusal::Outside),
            Some(number) => {
                let to = self.target(operator, lines)?;
                found.push_redirection(operator, number, to)?;
                Ok(())
            }
        }
    }

    #[tactic(auto, unfolding(crate::specs::Commands::assigned))]
    fn assigned(&self, found: &mut Elements, lines: &mut Lines<'_>) -> Result<(), Refusal>
        ensures { Leads (spec.assigned (S.reads self.now.sub) found.old lines.old) result found.new lines.new }
    {
        let assign = self.assignment(&mut lines.text)?;
        found.assigns.push(assign)?;
        Ok(())
    }

    #[tactic(auto, unfolding(crate::specs::Commands::next_word))]
    fn next_word(&self, found: &mut Elements, lines: &mut Lines<'_>) -> Result<(), Refusal>
        ensures { Leads (spec.next_word (S.reads self.now.sub) found.old lines.old) result found.new lines.new }
    {
        if lines.text.eat_word(ARGS) {
            found.push_args()?;
            return Ok(());
        }
        let calls = calls_at(&lines.text);
        let word = self.plain_word(&mut lines.text)?;
        found.push_word(calls, word)?;
        Ok(())
    }

    #[tactic(auto, unfolding(crate::specs::Commands::element))]
    fn element(&self, found: &mut Elements, lines: &mut Lines<'_>) -> Result<(), Refusal>
        ensures { Leads (spec.element (S.reads self.now.sub) found.old lines.old) result found.new lines.new }
    {
        if redirect::redirects(&lines.text) {
            return self.redirection(found, lines);
        }
        if found.has_no_words() && words::is_assignment(&lines.text) {
            return self.assigned(found, lines);
        }
        self.next_word(found, lines)
    }

    #[tactic(auto, unfolding(crate::specs::Commands::elements))]
    fn elements(&self, lines: &mut Lines<'_>) -> Result<Elements, Refusal>
        ensures { Reads (spec.elements (S.reads self.now.sub) (length lines.old.text) spec.no_elements lines.old)
            result lines.new }
    {
        let turns = lines.text.len();
        let mut found = Elements::new(self.alloc);
        for _turn in 0..turns {
            lines.blanks();
            if ends_command(&lines.text) {
                return Ok(found);
            }
            self.element(&mut found, lines)?;
        }
        lines.blanks();
        if ends_command(&lines.text) {
            return Ok(found);
        }
        Err(Refusal::Outside)
    }

    /// A simple command.
    #[tactic(auto, unfolding(crate::specs::Commands::simple))]
    pub(crate) fn simple(&self, lines: &mut Lines<'_>) -> Result<Called, Refusal>
        ensures { Reads (spec.simple (S.reads self.now.sub) lines.old) result lines.new }
    {
        if is_reserved(&lines.text) {
            return Err(Refusal::Outside);
        }
        let found = self.elements(lines)?;
        if found.is_empty() {
            return Err(Refusal::Outside);
        }
        Ok(found.into_called())
    }
}

/// No substitution, since none stands within another.
#[derive(Clone, Copy)]
pub(crate) struct NoSubstitution;

impl Substitution for NoSubstitution {
    ghost reads = { λ _ t. spec.no_substitution t };

    fn read(&self, _alloc: Global, _text: &mut Text<'_>) -> Result<Simple, Refusal> {
        Err(Refusal::Outside)
    }
}

/// `$(..)`, which holds a simple command.
#[derive(Clone, Copy)]
pub(crate) struct CommandSubstitution;

impl Substitution for CommandSubstitution {
    ghost reads = { λ _ t. spec.substitution t };

    #[tactic(auto, unfolding(crate::specs::Commands::substitution))]
    fn read(&self, alloc: Global, text: &mut Text<'_>) -> Result<Simple, Refusal> {
        let _blanks = text.run(Class::Blank);
        let mut lines = Lines::new(text.as_slice());
        let words = Words {
            alloc,
            sub: NoSubstitution,
        };
        let called = words.simple(&mut lines)?;
        if called.leaves || lines.waits() {
            return Err(Refusal::Outside);
        }
        lines.text.expect(b')')?;
        *text = Text::new(lines.text.as_slice());
        Ok(called.into_simple())
    }
}
