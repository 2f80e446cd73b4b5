//! The pieces of a word.
ghost use Rattle.std.specs.Prelude.{◌≡◌, length, List, ℕ};
ghost use Rattle.ap_shparse.specs.Reads.{Leads, Outcome, Reads};
ghost use Rattle.ap_shparse.specs.Pieces as spec;
ghost use Rattle.ap_shparse.specs.declared.tree.Simple.{Simple};

use crate::class::{self, Class};
use crate::found::Found;
use crate::refusal::Refusal;
use crate::text::Text;
use crate::tree::{Part, Simple};
use sqlite_items::Items;
use std::alloc::Global;

/// What may stand behind `$(`.
pub(crate) trait Substitution {
    /// The command that is read, with its `)`.
    ghost reads: { Self → List ℕ → Outcome (List ℕ) Simple };

    fn read(&self, alloc: Global, text: &mut Text<'_>) -> Result<Simple, Refusal>
        ensures { Reads (reads self.now text.old) result text.new };
}

/// Reads words, in which `$(` may stand before what `sub` reads.
#[derive(Drop)]
pub(crate) struct Words<S> {
    pub(crate) alloc: Global,
    pub(crate) sub: S,
}

/// The longest name that stands here.
#[tactic(auto, unfolding(crate::specs::Pieces::name))]
pub(crate) fn name(alloc: Global, text: &mut Text<'_>) -> Result<Items<u8>, Refusal>
    ensures { Reads (spec.name text.old) result text.new }
{
    if !text.begins_name() {
        return Err(Refusal::Outside);
    }
    let name = text.run(Class::Name);
    Ok(Items::from_slice(alloc, name)?)
}

#[tactic(auto, unfolding(crate::specs::Pieces::other))]
fn other(alloc: Global, text: &mut Text<'_>, inside: bool) -> Result<Items<u8>, Refusal>
    ensures { Reads (spec.other inside text.old) result text.new }
{
    let other = text.run(Class::Fallback { nul: inside });
    text.expect(b'}')?;
    Ok(Items::from_slice(alloc, other)?)
}

// `:-w}` of `${name:-w}`.
#[tactic(auto, unfolding(crate::specs::Pieces::fallback))]
fn fallback(
    alloc: Global,
    text: &mut Text<'_>,
    inside: bool,
    name: Items<u8>,
) -> Result<Part, Refusal>
    ensures { Reads (spec.fallback inside name text.old) result text.new }
{
    text.expect(b':')?;
    text.expect(b'-')?;
    let other = other(alloc, text, inside)?;
    Ok(Part::Fallback { name, other })
}

// Behind `${`.
#[tactic(auto, unfolding(crate::specs::Pieces::braced))]
fn braced(alloc: Global, text: &mut Text<'_>, inside: bool) -> Result<Part, Refusal>
    ensures { Reads (spec.braced inside text.old) result text.new }
{
    let name = name(alloc, text)?;
    if text.eat(b'}') {
        return Ok(Part::Variable { name });
    }
    fallback(alloc, text, inside, name)
}

#[tactic(auto, unfolding(crate::specs::Pieces::variable))]
fn variable(alloc: Global, text: &mut Text<'_>) -> Result<Part, Refusal>
    ensures { Reads (spec.variable text.old) result text.new }
{
    let name = name(alloc, text)?;
    Ok(Part::Variable { name })
}

// Behind `'`.
#[tactic(auto, unfolding(crate::specs::Pieces::single))]
fn single(alloc: Global, text: &mut Text<'_>, found: &mut Found) -> Result<(), Refusal>
    ensures { Leads (spec.single found.old text.old) result found.new text.new }
{
    let bytes = text.run(Class::Quoted);
    text.expect(b'\'')?;
    found.push_bytes(alloc, bytes)?;
    Ok(())
}

#[tactic(auto, unfolding(crate::specs::Pieces::plain))]
fn plain(text: &mut Text<'_>, found: &mut Found) -> Result<(), Refusal>
    ensures { Leads (spec.plain found.old text.old) result found.new text.new }
{
    match text.next() {
        Some(byte) if class::is_plain(byte) => {
            found.tilde = found.tilde || byte == b'~';
            found.push(byte)?;
            Ok(())
        }
        _ => Err(Refusal::Outside),
    }
}

const ESCAPABLE: &[u8] = b"$`\"\\";

// Behind `\` in double quotes.
#[tactic(auto, unfolding(crate::specs::Pieces::escaped))]
fn escaped(text: &mut Text<'_>, found: &mut Found) -> Result<(), Refusal>
    ensures { Leads (spec.escaped found.old text.old) result found.new text.new }
{
    match text.first() {
        None | Some(b'\n') => Err(Refusal::Outside),
        Some(byte) => {
            if ESCAPABLE.contains(&byte) {
                let _byte = text.next();
                found.push(byte)?;
            } else {
                found.push(b'\\')?;
            }
            Ok(())
        }
    }
}

#[tactic(auto, unfolding(crate::specs::Pieces::quoted))]
fn quoted(text: &mut Text<'_>, found: &mut Found) -> Result<(), Refusal>
    ensures { Leads (spec.quoted found.old text.old) result found.new text.new }
{
    match text.next() {
        None | Some(b'`') => Err(Refusal::Outside),
        Some(byte) => {
            found.push(byte)?;
            Ok(())
        }
    }
}

// Whether the word ends here.
fn ends(found: &Found, text: &Text<'_>) -> bool
    ensures { result ≡ spec.ends found.now text.now }
{
    !found.inside && text.ends_word()
}

impl<S: Substitution> Words<S> {
    fn output(&self, text: &mut Text<'_>) -> Result<Part, Refusal>
        ensures { Reads (spec.output (S.reads self.now.sub) text.old) result text.new }
    {
        let simple = self.sub.read(self.alloc, text)?;
        Ok(Part::Output { simple })
    }

    // Behind `$`.
    #[tactic(auto, unfolding(crate::specs::Pieces::dollar))]
    fn dollar(&self, text: &mut Text<'_>, inside: bool) -> Result<Part, Refusal>
        ensures { Reads (spec.dollar (S.reads self.now.sub) inside text.old) result text.new }
    {
        if text.eat(b'$') {
            return Ok(Part::Process);
        }
        if text.eat(b'0') {
            return Ok(Part::Zero);
        }
        if text.eat(b'{') {
            return braced(self.alloc, text, inside);
        }
        if text.eat(b'(') {
            return self.output(text);
        }
        variable(self.alloc, text)
    }

    #[tactic(auto, unfolding(crate::specs::Pieces::outside))]
    fn outside(&self, text: &mut Text<'_>, found: &mut Found) -> Result<(), Refusal>
        ensures { Leads (spec.outside (S.reads self.now.sub) found.old text.old) result found.new text.new }
    {
        if text.eat(b'\'') {
            return single(self.alloc, text, found);
        }
        if text.eat(b'"') {
            found.inside = true;
            return Ok(());
        }
        if text.eat(b'$') {
            let part = self.dollar(text, false)?;
            found.dollar = true;
            found.push_part(self.alloc, part)?;
            return Ok(());
        }
        plain(text, found)
    }

    #[tactic(auto, unfolding(crate::specs::Pieces::inside))]
    fn inside(&self, text: &mut Text<'_>, found: &mut Found) -> Result<(), Refusal>
        ensures { Leads (spec.inside (S.reads self.now.sub) found.old text.old) result found.new text.new }
    {
        if text.eat(b'"') {
            found.inside = false;
            return Ok(());
        }
        if text.eat(b'\\') {
            return escaped(text, found);
        }
        if text.eat(b'$') {
            let part = self.dollar(text, true)?;
            found.push_part(self.alloc, part)?;
            return Ok(());
        }
        quoted(text, found)
    }

    #[tactic(auto, unfolding(crate::specs::Pieces::unit))]
    fn unit(&self, text: &mut Text<'_>, found: &mut Found) -> Result<(), Refusal>
        ensures { Leads (spec.unit (S.reads self.now.sub) found.old text.old) result found.new text.new }
    {
        if found.inside {
            self.inside(text, found)
        } else {
            self.outside(text, found)
        }
    }

    /// The pieces that stand here, as far as they go.
    #[tactic(auto, unfolding(crate::specs::Pieces::pieces, crate::specs::Pieces::units))]
    pub(crate) fn pieces(&self, text: &mut Text<'_>) -> Result<Found, Refusal>
        ensures { Reads (spec.pieces (S.reads self.now.sub) text.old) result text.new }
    {
        let turns = text.len();
        let mut found = Found::new(self.alloc);
        for _turn in 0..turns {
            if ends(&found, text) {
                return Ok(found);
            }
            self.unit(text, &mut found)?;
        }
        if ends(&found, text) {
            return Ok(found);
        }
        Err(Refusal::Outside)
    }
}
