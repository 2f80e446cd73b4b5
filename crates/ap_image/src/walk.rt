// The walk of an import directory.
ghost use Rattle.std.specs.Prelude.{◌≡◌, ◌≢◌, ◌<◌, ◌≤◌, ◌+◌, ◌*◌, ◌^◌, ℕ, IfOk, IfSome, None};
ghost use Rattle.std.specs.Option.{ForSome};
ghost use Rattle.ap_image.specs.Cells.{Memory, Tells};
ghost use Rattle.ap_image.specs.ImportWalk as spec;
ghost use Rattle.ap_image.specs.ImportWalk.{found, entry_found, items_of};
ghost use Rattle.ap_image.specs.WalkSteps as steps;
ghost use Rattle.ap_image.specs.WalkSteps.{Walking, left_of, next_of, Fetches, Steps, Again};
ghost use Rattle.ap_image.specs.WalkBounds.{IsFound, IsWithin};

use crate::by_address::Cells;
use crate::import_place::{
    DirectoryEntry, ENTRY_SIZE, Found, HINT_SIZE, MOST_ITEMS, Place, WORD_SIZE, Word,
};
use crate::import_read::{check_name, entry_at, word_at};
use crate::import_step::{Ending, Step, WalkCause, WalkEnd, WalkFault, What};
use ap_files::Failed;
use std::marker::Model;

/// A walk of the import directory of a program in memory (PE/COFF, "The .idata Section"): its import directory table, and
/// for each entry the words of its import lookup table.
#[derive(Drop)]
pub struct Walk {
    base: u64,
    end: Option<u64>,
    place: Place,
    left: u64,
    over: Option<Ending>,
}

impl Model for Walk {
    ghost use Rattle.ap_image.specs.WalkSteps.{Walking};
    ghost use Rattle.ap_image.specs.WalkBounds.{IsWalking};

    ghost Value = { Walking };

    ghost view = { λ w. record { base = w.base; end = w.end; place = w.place; left = w.left; over = w.over } };

    ghost invariant = { λ w. IsWalking (record { base = w.base; end = w.end; place = w.place; left = w.left; over = w.over }) };
}

impl Walk {
    /// The walk of the import directory table at an address, for an image base and the end of the table, where it has one.
    pub fn new(base: u64, table: u64, end: Option<u64>) -> Walk
        requires base { base ≤ 2 ^ 48 }
        requires table { table ≤ 2 ^ 48 }
        requires end { ForSome end (λ e. e ≤ 2 ^ 48) }
        ensures items { (memory : Memory) → left_of memory result ≡ items_of memory base table end }
        ensures count { result.left ≡ MOST_ITEMS }
        ensures over { result.over ≡ None }
    {
        Walk {
            base,
            end,
            place: Place {
                entry: table,
                word: None,
            },
            left: MOST_ITEMS,
            over: None,
        }
    }

    /// The next item, of which the name was read; or Done at the entry that closes the table. After Done or a fault every
    /// step answers the same again.
    ///
    /// `Fault`: the walk ends here, without such an entry. `ReadFault`: a byte could not be read, and the walk stands where
    /// it did.
    pub fn step<C: Cells>(&mut self, cells: &mut C) -> Result<Step, WalkEnd>
        ensures step { Steps (C.state cells.old) (C.state cells.new) self.old self.new result }
        ensures again { Again self.old self.new result }
    {
        if let Some(ending) = self.over {
            return answer(ending);
        }
        match self.next(cells) {
            Ok(Some(item)) => {
                self.place = item.next;
                self.left -= 1;
                Ok(item.step)
            }
            Ok(None) => {
                self.over = Some(Ending::Done);
                Ok(Step::Done)
            }
            Err(WalkEnd::Fault(fault)) => {
                self.over = Some(Ending::Fault(fault));
                Err(WalkEnd::Fault(fault))
            }
            Err(WalkEnd::ReadFault) => Err(WalkEnd::ReadFault),
        }
    }

    /// How the walk ends, behind all items that are left.
    ///
    /// `Failed`: a byte could not be read.
    pub fn ending<C: Cells>(mut self, cells: &mut C) -> Result<Ending, Failed>
        ensures { Tells (C.state cells.old) (C.state cells.new)
            (λ memory ending. (left_of memory self).ending ≡ ending) result }
    {
        loop {
            match self.step(cells) {
                Ok(Step::Done) => return Ok(Ending::Done),
                Ok(_) => {}
                Err(WalkEnd::Fault(fault)) => return Ok(Ending::Fault(fault)),
                Err(WalkEnd::ReadFault) => return Err(Failed),
            }
        }
    }

    // The next item, once its name is read.
    fn next<C: Cells>(&self, cells: &mut C) -> Result<Option<Found>, WalkEnd>
        ensures next { Fetches (C.state cells.old) (C.state cells.new)
            (λ memory. next_of memory self.now) result }
        ensures item { IfOk result
            (λ o. IfSome o (λ item. (0 < self.now.left) × IsFound self.now.left item)) }
    {
        let Some(item) = self.find(cells)? else {
            return Ok(None);
        };
        if self.left == 0 {
            return Err(fault(WalkCause::Many, item.at));
        }
        check_name(cells, &item.step)?;
        Ok(Some(item))
    }

    // The next item: a word, or behind the last word of an entry the next entry.
    fn find<C: Cells>(&self, cells: &mut C) -> Result<Option<Found>, WalkEnd>
        ensures found { Fetches (C.state cells.old) (C.state cells.new)
            (λ memory. found memory self.now.base self.now.end self.now.place.entry self.now.place.word)
            result }
        ensures item { IfOk result (λ o. IfSome o (λ item. IsFound self.now.left item)) }
    {
        if let Some(word) = self.place.word {
            let value = word_at(cells, word.at)?;
            if value != 0 {
                return Ok(Some(word_item(self.base, self.place.entry, &word, value)));
            }
        }
        self.find_entry(cells)
    }

    // The next entry.
    fn find_entry<C: Cells>(&self, cells: &mut C) -> Result<Option<Found>, WalkEnd>
        ensures found { Fetches (C.state cells.old) (C.state cells.new)
            (λ memory. entry_found memory self.now.base self.now.end self.now.place.entry) result }
        ensures item { IfOk result (λ o. IfSome o (λ item. IsFound self.now.left item)) }
    {
        let at = self.place.entry;
        if let Some(end) = self.end {
            if end < at + ENTRY_SIZE as u64 {
                return Err(fault(WalkCause::NoEnd, end));
            }
        }
        let entry = entry_at(cells, at)?;
        Ok(entry_item(self.base, at, &entry))
    }
}

fn answer(ending: Ending) -> Result<Step, WalkEnd>
    ensures { result ≡ steps.answer_of ending }
{
    match ending {
        Ending::Done => Ok(Step::Done),
        Ending::Fault(fault) => Err(WalkEnd::Fault(fault)),
    }
}

fn fault(cause: WalkCause, at: u64) -> WalkEnd
    ensures { result ≡ steps.fault_end cause at }
{
    WalkEnd::Fault(WalkFault { cause, at })
}

// The item that an entry is, unless it closes the table.
fn entry_item(base: u64, at: u64, entry: &DirectoryEntry) -> Option<Found>
    requires base { base ≤ 2 ^ 48 }
    requires at { at ≤ 2 ^ 60 }
    ensures { result ≡ spec.entry_item base at entry.now }
{
    if entry.name == 0 || entry.iat == 0 {
        return None;
    }
    Some(Found {
        at,
        step: Step::Entry {
            dll: base + entry.name as u64,
        },
        next: Place {
            entry: at + ENTRY_SIZE as u64,
            word: Some(first_word(base, entry)),
        },
    })
}

// The first word of an entry: that of the import address table where there is no lookup table.
fn first_word(base: u64, entry: &DirectoryEntry) -> Word
    requires { base ≤ 2 ^ 48 }
    ensures { result ≡ spec.words_of base entry.now }
{
    let table = if entry.lookup == 0 {
        entry.iat
    } else {
        entry.lookup
    };
    Word {
        at: base + table as u64,
        slot: base + entry.iat as u64,
    }
}

// The item that a word is.
fn word_item(base: u64, entry: u64, word: &Word, value: u64) -> Found
    requires base { base ≤ 2 ^ 48 }
    requires at { word.now.at ≤ 2 ^ 60 }
    requires slot { word.now.slot ≤ 2 ^ 60 }
    ensures { result ≡ spec.word_item base entry word.now value }
{
    Found {
        at: word.at,
        step: Step::Word {
            what: what(base, value),
            slot: word.slot,
        },
        next: Place {
            entry,
            word: Some(Word {
                at: word.at + WORD_SIZE as u64,
                slot: word.slot + WORD_SIZE as u64,
            }),
        },
    }
}

// What a word imports.
fn what(base: u64, value: u64) -> What
    requires { base ≤ 2 ^ 48 }
    ensures { result ≡ spec.what_of base value }
{
    if value >= 1 << 63 {
        What::Ordinal {
            number: (value % (1 << 16)) as u16,
        }
    } else {
        What::Name {
            at: base + value % (1 << 31) + HINT_SIZE as u64,
        }
    }
}
