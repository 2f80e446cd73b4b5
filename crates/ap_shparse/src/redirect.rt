//! Redirections.
ghost use Rattle.std.specs.Prelude.{◌≡◌, option_map};
ghost use Rattle.ap_shparse.specs.Redirects as spec;
ghost use Rattle.ap_shparse.specs.Reads.{Reads};
ghost use Rattle.ap_shparse.specs.declared.tree.Target.TheVariants as target;

use crate::class::Class;
use crate::lines::Lines;
use crate::pieces::{Substitution, Words};
use crate::refusal::Refusal;
use crate::text::Text;
use crate::tree::{Target, Word};

#[derive(Clone, Copy)]
pub(crate) enum Operator {
    /// `>&`
    Same,
    /// `>`
    Write,
    /// `<<`
    Here,
    /// `<>`
    Both,
    /// `<`
    Read,
}

fn is_angle(text: &Text<'_>) -> bool
    ensures { result ≡ spec.is_angle text.now }
{
    text.sees_byte(b'<') || text.sees_byte(b'>')
}

/// Whether a redirection begins here.
#[tactic(auto, unfolding(crate::specs::Redirects::redirects))]
pub(crate) fn redirects(text: &Text<'_>) -> bool
    ensures { result ≡ spec.redirects text.now }
{
    let mut rest = Text::new(text.as_slice());
    let _digits = rest.run(Class::Digit);
    is_angle(&rest)
}

#[tactic(auto, unfolding(crate::specs::Redirects::next_operator))]
pub(crate) fn next_operator(text: &mut Text<'_>) -> Result<Operator, Refusal>
    ensures { Reads (spec.next_operator text.old) result text.new }
{
    if text.eat(b'>') {
        if text.eat(b'&') {
            return Ok(Operator::Same);
        }
        return Ok(Operator::Write);
    }
    if text.eat(b'<') {
        if text.eat(b'<') {
            return Ok(Operator::Here);
        }
        if text.eat(b'>') {
            return Ok(Operator::Both);
        }
        return Ok(Operator::Read);
    }
    Err(Refusal::Outside)
}

impl Operator {
    fn default(self) -> u8
        ensures { result ≡ spec.default self }
    {
        match self {
            Operator::Same | Operator::Write => 1,
            _ => 0,
        }
    }

    fn allows(self, digit: u8) -> bool
        ensures { result ≡ spec.allows self digit }
    {
        match self {
            Operator::Same => digit == b'1' || digit == b'2',
            Operator::Write | Operator::Both => digit == b'0' || (digit == b'1' || digit == b'2'),
            _ => digit == b'0',
        }
    }

    /// The number that these digits before the operator give, or that stands for it.
    #[tactic(auto, unfolding(crate::specs::Redirects::number))]
    pub(crate) fn number(self, digits: &[u8]) -> Option<u8>
        ensures { result ≡ spec.number self digits.now }
    {
        match digits {
            [] => Some(self.default()),
            [digit] if self.allows(*digit) => Some(*digit - b'0'),
            _ => None,
        }
    }
}

fn is_same(digit: u8, rest: &Text<'_>) -> bool
    ensures { result ≡ spec.is_same digit rest.now }
{
    (digit == b'1' || digit == b'2') && rest.ends_word() && !is_angle(rest)
}

// Behind `>&`.
#[tactic(auto, unfolding(crate::specs::Redirects::same))]
fn same(text: &mut Text<'_>) -> Result<Target, Refusal>
    ensures { Reads (spec.same text.old) result text.new }
{
    let _blanks = text.run(Class::Blank);
    match text.next() {
        Some(digit) if is_same(digit, text) => Ok(Target::Same {
            number: digit - b'0',
        }),
        _ => Err(Refusal::Outside),
    }
}

impl<S: Substitution> Words<S> {
    #[tactic(auto, unfolding(crate::specs::Redirects::file_word))]
    fn file_word(&self, text: &mut Text<'_>) -> Result<Word, Refusal>
        ensures { Reads (spec.file_word (S.reads self.now.sub) text.old) result text.new }
    {
        let _blanks = text.run(Class::Blank);
        if redirects(text) {
            return Err(Refusal::Outside);
        }
        self.plain_word(text)
    }

    fn write(&self, text: &mut Text<'_>) -> Result<Target, Refusal>
        ensures { Reads (spec.write (S.reads self.now.sub) text.old) result text.new }
    {
        let word = self.file_word(text)?;
        Ok(Target::Write { word })
    }

    fn read(&self, text: &mut Text<'_>) -> Result<Target, Refusal>
        ensures { Reads (spec.read (S.reads self.now.sub) text.old) result text.new }
    {
        let word = self.file_word(text)?;
        Ok(Target::Read { word })
    }

    fn both(&self, text: &mut Text<'_>) -> Result<Target, Refusal>
        ensures { Reads (spec.both (S.reads self.now.sub) text.old) result text.new }
    {
        let word = self.file_word(text)?;
        Ok(Target::Both { word })
    }

    fn here_target(&self, lines: &mut Lines<'_>) -> Result<Target, Refusal>
        ensures { Reads (spec.here_target (S.reads self.now.sub) lines.old) result lines.new }
    {
        lines.blanks();
        let body = self.here(lines)?;
        Ok(Target::Here { body })
    }

    /// What follows the operator.
    #[tactic(auto, unfolding(crate::specs::Redirects::target_of))]
    pub(crate) fn target(
        &self,
        operator: Operator,
        lines: &mut Lines<'_>,
    ) -> Result<Target, Refusal>
        ensures { Reads (spec.target_of (S.reads self.now.sub) operator lines.old) result lines.new }
    {
        match operator {
            Operator::Same => same(&mut lines.text),
            Operator::Write => self.write(&mut lines.text),
            Operator::Read => self.read(&mut lines.text),
            Operator::Both => self.both(&mut lines.text),
            Operator::Here => self.here_target(lines),
        }
    }
}
