//! Lists. A rule that holds lists takes what reads those as a parameter, so that each is proved by itself.
ghost use Rattle.std.specs.Prelude.{◌≡◌, [], length, MatchOption, None, Some};
ghost use Rattle.ap_shparse.specs.Lists as spec;
ghost use Rattle.ap_shparse.specs.Nests.{Nests};
ghost use Rattle.ap_shparse.specs.Reads.{Leads, Reads};

use crate::elements::is_nil;
use crate::item::{Item, Member};
use crate::lines::Lines;
use crate::pieces::Words;
use crate::refusal::Refusal;
use crate::simple::CommandSubstitution;
use crate::text::Text;
use crate::tree::{Chain, Joined, Node};
use sqlite_items::Items;
use std::alloc::Global;

#[derive(Clone, Copy)]
pub(crate) struct Lists<F> {
    pub(crate) alloc: Global,
    /// How deep lists may still nest.
    pub(crate) depth: usize,
    pub(crate) list: F,
}

/// A list in which `if` nests less than `depth` deep.
pub(crate) fn list(
    alloc: Global,
    lines: &mut Lines<'_>,
    depth: usize,
) -> Result<Items<Chain>, Refusal>
    ensures { Reads (spec.list depth lines.old) result lines.new }
{
    if depth == 0 {
        return Err(Refusal::Outside);
    }
    Lists {
        alloc,
        depth: depth - 1,
        list,
    }
    .items(lines)
}

// Whether a word that closes a list comes next.
fn closes(text: &Text<'_>) -> bool
    ensures { result ≡ spec.closes text.now }
{
    text.sees(b"then") || (text.sees(b"else") || text.sees(b"fi"))
}

// Takes `||`, which is true, or `&&`.
fn joiner(text: &mut Text<'_>) -> Option<bool>
    ensures taken { MatchOption result (spec.joiner text.old ≡ None) (λ or. spec.joiner text.old ≡ Some (or, text.new)) }
    ensures stays { result ≡ None → text.new ≡ text.old }
{
    if text.eat_twice(b'|') {
        return Some(true);
    }
    if text.eat_twice(b'&') {
        return Some(false);
    }
    None
}

fn simple_member(alloc: Global, lines: &mut Lines<'_>) -> Result<Member, Refusal>
    ensures { Reads (spec.simple_member lines.old) result lines.new }
{
    let words = Words {
        alloc,
        sub: CommandSubstitution,
    };
    let called = words.simple(lines)?;
    let stops = called.stops;
    Ok(Member {
        node: Node::Simple {
            simple: called.into_simple(),
        },
        stops,
    })
}

impl<F: Fn(Global, &mut Lines<'_>, usize) -> Result<Items<Chain>, Refusal>> Lists<F> {
    fn list(&self, lines: &mut Lines<'_>) -> Result<Items<Chain>, Refusal>
        requires { Nests self.now.depth (F.pre self.now.list) (F.post self.now.list) }
        ensures { Reads (spec.list self.now.depth lines.old) result lines.new }
    {
        (self.list)(self.alloc, lines, self.depth)
    }

    #[tactic(auto, unfolding(crate::specs::Lists::otherwise))]
    fn otherwise(&self, lines: &mut Lines<'_>) -> Result<Items<Chain>, Refusal>
        requires { Nests self.now.depth (F.pre self.now.list) (F.post self.now.list) }
        ensures { Reads (spec.otherwise (spec.list self.now.depth) lines.old) result lines.new }
    {
        if lines.text.eat_word(b"else") {
            return self.list(lines);
        }
        Ok(Items::new(self.alloc))
    }

    // Behind `if`.
    #[tactic(auto, unfolding(crate::specs::Lists::choice))]
    fn choice(&self, lines: &mut Lines<'_>) -> Result<Member, Refusal>
        requires { Nests self.now.depth (F.pre self.now.list) (F.post self.now.list) }
        ensures { Reads (spec.choice (spec.list self.now.depth) lines.old) result lines.new }
    {
        let test = self.list(lines)?;
        lines.keyword(b"then")?;
        let yes = self.list(lines)?;
        let no = self.otherwise(lines)?;
        lines.keyword(b"fi")?;
        Ok(Member {
            node: Node::If { test, yes, no },
            stops: false,
        })
    }

    #[tactic(auto, unfolding(crate::specs::Lists::command))]
    fn command(&self, lines: &mut Lines<'_>) -> Result<Member, Refusal>
        requires { Nests self.now.depth (F.pre self.now.list) (F.post self.now.list) }
        ensures { Reads (spec.command (spec.list self.now.depth) lines.old) result lines.new }
    {
        if lines.text.eat_word(b"if") {
            return self.choice(lines);
        }
        simple_member(self.alloc, lines)
    }

    // Behind `||` or `&&`.
    #[tactic(auto, unfolding(crate::specs::Lists::join))]
    fn join(
        &self,
        found: &mut Items<Joined>,
        or: bool,
        lines: &mut Lines<'_>,
    ) -> Result<(), Refusal>
        requires { Nests self.now.depth (F.pre self.now.list) (F.post self.now.list) }
        ensures { Leads (spec.join (spec.list self.now.depth) found.old or lines.old) result found.new lines.new }
    {
        if !lines.newlines() {
            return Err(Refusal::Outside);
        }
        let member = self.command(lines)?;
        let Member { node, .. } = member;
        found.push(Joined { or, node })?;
        Ok(())
    }

    #[tactic(auto, unfolding(crate::specs::Lists::others))]
    fn others(&self, turns: usize, lines: &mut Lines<'_>) -> Result<Items<Joined>, Refusal>
        requires { Nests self.now.depth (F.pre self.now.list) (F.post self.now.list) }
        ensures { Reads (spec.others (spec.list self.now.depth) turns [] lines.old) result lines.new }
    {
        let mut found = Items::new(self.alloc);
        for _turn in 0..turns {
            lines.blanks();
            let Some(or) = joiner(&mut lines.text) else {
                return Ok(found);
            };
            self.join(&mut found, or, lines)?;
        }
        Err(Refusal::Outside)
    }

    /// An item.
    #[tactic(auto, unfolding(crate::specs::Lists::chain))]
    pub(crate) fn chain(&self, lines: &mut Lines<'_>) -> Result<Item, Refusal>
        requires { Nests self.now.depth (F.pre self.now.list) (F.post self.now.list) }
        ensures { Reads (spec.chain (spec.list self.now.depth) lines.old) result lines.new }
    {
        let turns = lines.text.len();
        let member = self.command(lines)?;
        let rest = self.others(turns, lines)?;
        let Member { node, stops } = member;
        let stops = stops && is_nil(&rest);
        Ok(Item {
            chain: Chain { first: node, rest },
            stops,
        })
    }

    // An item with its end.
    #[tactic(auto, unfolding(crate::specs::Lists::next_item))]
    fn next_item(&self, found: &mut Items<Chain>, lines: &mut Lines<'_>) -> Result<(), Refusal>
        requires { Nests self.now.depth (F.pre self.now.list) (F.post self.now.list) }
        ensures { Leads (spec.next_item (spec.list self.now.depth) found.old lines.old) result found.new lines.new }
    {
        let item = self.chain(lines)?;
        lines.gap();
        lines.end()?;
        let Item { chain, .. } = item;
        found.push(chain)?;
        Ok(())
    }

    #[tactic(auto, unfolding(crate::specs::Lists::items_from))]
    fn items_from(&self, turns: usize, lines: &mut Lines<'_>) -> Result<Items<Chain>, Refusal>
        requires { Nests self.now.depth (F.pre self.now.list) (F.post self.now.list) }
        ensures { Reads (spec.items_from (spec.list self.now.depth) turns [] lines.old) result lines.new }
    {
        let mut found = Items::new(self.alloc);
        for _turn in 0..turns {
            if !lines.newlines() {
                return Err(Refusal::Outside);
            }
            if closes(&lines.text) {
                return Ok(found);
            }
            self.next_item(&mut found, lines)?;
        }
        Err(Refusal::Outside)
    }

    #[tactic(auto, unfolding(crate::specs::Lists::items))]
    fn items(&self, lines: &mut Lines<'_>) -> Result<Items<Chain>, Refusal>
        requires { Nests self.now.depth (F.pre self.now.list) (F.post self.now.list) }
        ensures { Reads (spec.items (spec.list self.now.depth) lines.old) result lines.new }
    {
        let turns = lines.text.len();
        let found = self.items_from(turns, lines)?;
        if is_nil(&found) {
            return Err(Refusal::Outside);
        }
        Ok(found)
    }
}
