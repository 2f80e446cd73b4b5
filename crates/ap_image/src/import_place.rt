// Where a walk of an import directory stands.

/// The sizes of the format (PE/COFF, "The .idata Section").
pub const ENTRY_SIZE: usize = 20;

pub const WORD_SIZE: usize = 8;

pub const HINT_SIZE: usize = 2;

/// How many bytes a name has at most, and how many items a walk gives.
pub const MOST_NAME: u64 = 1024;

pub const MOST_ITEMS: u64 = 4096;

/// An entry of the import directory table: addresses from the image base on.
#[derive(Clone, Copy)]
pub struct DirectoryEntry {
    /// The import lookup table, or 0.
    pub lookup: u32,
    /// The DLL's name.
    pub name: u32,
    /// The import address table.
    pub iat: u32,
}

/// A word of an import lookup table.
#[derive(Clone, Copy)]
pub struct Word {
    /// Its address.
    pub at: u64,
    /// The address of the word of the import address table that has its number.
    pub slot: u64,
}

/// Where a walk goes on.
#[derive(Clone, Copy)]
pub struct Place {
    /// The address of the next entry.
    pub entry: u64,
    /// The next word of the entry before it, unless its words have ended.
    pub word: Option<Word>,
}

/// An item that was found.
#[derive(Clone, Copy)]
pub struct Found {
    /// The address of its entry or word.
    pub at: u64,
    pub step: crate::import_step::Step,
    /// What comes behind it.
    pub next: Place,
}
