// What a walk of an import directory gives.

/// A step of a walk: the next item, or the end.
#[derive(Clone, Copy, Debug, PartialEq, Eq)]
pub enum Step {
    /// An entry of the import directory table.
    Entry {
        /// The address of its DLL's name.
        dll: u64,
    },
    /// A word of the entry's import lookup table.
    Word {
        what: What,
        /// The address of the word of the import address table that is bound to what is imported.
        slot: u64,
    },
    /// The entry that closes the table was met.
    Done,
}

/// What a word imports.
#[derive(Clone, Copy, Debug, PartialEq, Eq)]
pub enum What {
    Name {
        /// The address of the name.
        at: u64,
    },
    Ordinal {
        number: u16,
    },
}

/// Why a walk ends before the entry that closes the table.
#[derive(Clone, Copy, Debug, PartialEq, Eq)]
pub struct WalkFault {
    pub cause: WalkCause,
    pub at: u64,
}

/// The cause of a `WalkFault`, and its address.
#[derive(Clone, Copy, Debug, PartialEq, Eq)]
pub enum WalkCause {
    /// No byte stands at the address, and one is needed.
    NoCell,
    /// The table passes its end, which is the address.
    NoEnd,
    /// The name at the address has more than 1024 bytes.
    Long,
    /// The entry or word at the address would be item 4097.
    Many,
}

/// How a walk ends.
#[derive(Clone, Copy, Debug, PartialEq, Eq)]
pub enum Ending {
    /// At the entry that closes the table.
    Done,
    Fault(WalkFault),
}

/// Why a step gives no item.
#[derive(Clone, Copy, Debug, PartialEq, Eq)]
pub enum WalkEnd {
    Fault(WalkFault),
    /// A byte could not be read, and the walk stands where it did.
    ReadFault,
}
