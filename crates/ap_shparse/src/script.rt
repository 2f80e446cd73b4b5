//! A whole text, item by item.
ghost use Rattle.std.specs.Prelude.{◌≡◌, length, ◌-◌};
ghost use Rattle.ap_shparse.specs.Lists as lists;
ghost use Rattle.ap_shparse.specs.Scripts as spec;
ghost use Rattle.ap_shparse.specs.Reads.{Reads};

use crate::item::Item;
use crate::lines::Lines;
use crate::lists::{Lists, list};
use crate::refusal::Refusal;
use crate::tree::{Chain, ShellFault};
use sqlite_items::Items;
use std::alloc::Global;

/// How deep `if` may nest.
const DEPTH: usize = 64;

/// What stands where an item may begin.
#[derive(Drop)]
pub(crate) enum Turn {
    /// The end of the text.
    End,
    /// The script's last item.
    Last(Chain),
    /// An item and its end.
    Next(Chain),
}

fn turn_of(item: Item, waits: bool) -> Turn
    ensures { result ≡ spec.turn_of item waits }
{
    let Item { chain, stops } = item;
    if stops && !waits {
        Turn::Last(chain)
    } else {
        Turn::Next(chain)
    }
}

fn item(alloc: Global, lines: &mut Lines<'_>) -> Result<Item, Refusal>
    ensures { Reads (lists.chain (lists.list 64) lines.old) result lines.new }
{
    let lists = Lists {
        alloc,
        depth: DEPTH,
        list,
    };
    lists.chain(lines)
}

// Behind an item.
fn at_end(item: Item, lines: &mut Lines<'_>) -> Result<Turn, Refusal>
    ensures { Reads (spec.at_end item lines.old) result lines.new }
{
    let waits = lines.waits();
    if lines.is_empty() {
        if waits {
            return Err(Refusal::Outside);
        }
        let Item { chain, .. } = item;
        return Ok(Turn::Last(chain));
    }
    lines.end()?;
    Ok(turn_of(item, waits))
}

// Where an item may begin.
#[tactic(auto, unfolding(crate::specs::Scripts::turn))]
fn next_turn(alloc: Global, lines: &mut Lines<'_>) -> Result<Turn, Refusal>
    ensures { Reads (spec.turn (lists.chain (lists.list 64)) lines.old) result lines.new }
{
    if lines.is_empty() {
        if lines.waits() {
            return Err(Refusal::Outside);
        }
        return Ok(Turn::End);
    }
    let item = item(alloc, lines)?;
    lines.gap();
    at_end(item, lines)
}

fn outside(len: usize, left: usize) -> ShellFault
    ensures { result ≡ ShellFault.Outside (len - left) }
{
    ShellFault::Outside {
        at: len.saturating_sub(left) as u64,
    }
}

/// The items of a text.
#[tactic(auto, unfolding(crate::specs::Scripts::script, crate::specs::Scripts::script_from))]
pub(crate) fn script(alloc: Global, text: &[u8]) -> Result<Items<Chain>, ShellFault>
    ensures { spec.Answers (spec.script text.now) (length text.now) result }
{
    let turns = text.len();
    let mut left = turns;
    let mut lines = Lines::new(text);
    let mut found = Items::new(alloc);
    for _turn in 0..turns {
        if !lines.newlines() {
            return Err(outside(turns, left));
        }
        left = lines.left(left);
        match next_turn(alloc, &mut lines) {
            Err(Refusal::NoMemory) => return Err(ShellFault::NoMemory),
            Err(Refusal::Outside) => return Err(outside(turns, left)),
            Ok(Turn::End) => return Ok(found),
            Ok(Turn::Last(chain)) => {
                found.push(chain)?;
                return Ok(found);
            }
            Ok(Turn::Next(chain)) => found.push(chain)?,
        }
    }
    if !lines.newlines() {
        return Err(outside(turns, left));
    }
    left = lines.left(left);
    if lines.is_empty() && !lines.waits() {
        return Ok(found);
    }
    Err(outside(turns, left))
}
