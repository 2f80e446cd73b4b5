// Files in memory, each in the room that was made for it.
ghost use Rattle.std.specs.Prelude.{◌≡◌, ◌<◌, ◌≤◌, length, take, position, MatchOption, IfSome, IsSome, OnOk, OnErr, false};
ghost use Rattle.std.specs.Bool.{OnTrue, OnFalse};
ghost use Rattle.std.specs.Option.{option_copied, option_map_or};
ghost use Rattle.std.specs.Str.{bytes_eq};
ghost use Rattle.std.specs.FinMap as map;
ghost use Rattle.ap_files.specs.Files.{after_finish};
ghost use Rattle.ap_files.specs.Places.{IsFirst, IsNowhere};
ghost use Rattle.ap_files.specs.Stores.{nothing_stored, reserved_in, put_in, started_in, added_in, has_room_for};

use crate::slot::Slot;
use std::alloc::{AllocError, Global};
use std::marker::Model;

/// Names with their rooms, their files, and the place of the file that is unfinished.
#[derive(Drop)]
pub struct Store {
    alloc: Global,
    slots: Vec<Slot>,
    unfinished: Option<usize>,
}

impl Model for Store {
    ghost use Rattle.std.specs.Prelude.{◌<◌, length};
    ghost use Rattle.std.specs.Option.{ForSome};
    ghost use Rattle.ap_files.specs.Stores.{Stored, stored_code, stored_in};

    ghost Value = { Stored };

    ghost coded = { stored_code };

    ghost view = { λ s. stored_in s.slots.items s.unfinished };

    ghost invariant = { λ s. ForSome s.unfinished (λ i. i < length s.slots.items) };
}

impl Store {
    /// No names.
    pub fn new(alloc: Global) -> Store
        ensures { result ≡ nothing_stored }
    {
        Store {
            alloc,
            slots: Vec::new(alloc),
            unfinished: None,
        }
    }

    /// The bytes of a file, where it is there.
    pub fn file(&self, name: &str) -> Option<&[u8]>
        ensures { option_copied result ≡ map.get self.now.files name.now }
    {
        let i = find(&self.slots, name)?;
        self.slots[i].file()
    }

    /// Makes room for a file of so many bytes.
    pub fn reserve(&mut self, name: &str, room: usize) -> Result<(), AllocError>
        ensures ok { OnOk result (self.new ≡ reserved_in self.old name.now room) }
        ensures err { OnErr result (self.new ≡ self.old) }
    {
        match find(&self.slots, name) {
            Some(i) => self.slots[i].widen(room),
            None => {
                let slot = Slot::new(self.alloc, name, room)?;
                self.slots.push(slot)?;
                Ok(())
            }
        }
    }

    /// Makes a file with these bytes.
    pub fn put(&mut self, name: &str, bytes: &[u8]) -> Result<(), AllocError>
        ensures ok { OnOk result (self.new ≡ put_in self.old name.now bytes.now) }
        ensures err { OnErr result (self.new ≡ self.old) }
    {
        self.reserve(name, bytes.len())?;
        match find(&self.slots, name) {
            Some(i) => self.slots[i].fill(bytes),
            None => unreachable!(),
        }
        Ok(())
    }

    /// Makes or empties the file of a name that has a room, and answers whether it has one.
    pub fn start(&mut self, name: &str) -> bool
        ensures has_room { result ≡ map.contains_key self.old.rooms name.now }
        ensures started { OnTrue result (self.new ≡ started_in self.old name.now) }
        ensures no_room { OnFalse result (self.new ≡ self.old) }
    {
        let Some(i) = find(&self.slots, name) else {
            return false;
        };
        self.slots[i].restart();
        self.unfinished = Some(i);
        true
    }

    /// Appends the first bytes of a piece, so many, where the room takes the whole piece.
    pub fn append(&mut self, name: &str, piece: &[u8], count: usize) -> bool
        requires there { IsSome (map.get self.old.files name.now) }
        requires count { count ≤ length piece.now }
        ensures fits { result ≡ has_room_for self.old name.now (length piece.now) }
        ensures appended { OnTrue result
            (self.new ≡ added_in self.old name.now (take count piece.now)) }
        ensures full { OnFalse result (self.new ≡ self.old) }
    {
        let Some(i) = find(&self.slots, name) else {
            return false;
        };
        if !self.slots[i].append(piece, count) {
            return false;
        }
        self.unfinished = Some(i);
        true
    }

    /// Whether a file is the unfinished one.
    pub fn is_unfinished(&self, name: &str) -> bool
        ensures { result ≡ option_map_or (λ n. bytes_eq n name.now) self.now.unfinished false }
    {
        match self.unfinished {
            Some(i) => self.slots[i].has_name(name),
            None => false,
        }
    }

    /// Ends the writing of a file, where it is the unfinished one.
    pub fn finish(&mut self, name: &str)
        ensures { self.new
            ≡ record self.old { unfinished = after_finish self.old.unfinished name.now } }
    {
        if let Some(i) = self.unfinished
            && self.slots[i].has_name(name)
        {
            self.unfinished = None;
        }
    }
}

/// The first place of a name.
fn find(slots: &[Slot], name: &str) -> Option<usize>
    ensures below { IfSome result (λ i. i < length slots.now) }
    ensures place { MatchOption result (IsNowhere slots.now name.now) (IsFirst slots.now name.now) }
{
    search(slots, name)
}

fn search(slots: &[Slot], name: &str) -> Option<usize>
    ensures { result ≡ position (λ s. bytes_eq s.name name.now) slots.now }
{
    slots.iter().position(|s| s.has_name(name))
}
