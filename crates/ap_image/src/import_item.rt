// Imports, with their names.
use crate::bytes::Bytes;
use crate::import_step::WalkFault;

/// What a program imports.
#[derive(Debug, Drop)]
pub struct Import {
    /// The DLL's name.
    pub dll: Bytes,
    pub what: Wanted,
    /// The address of the word of the import address table that is bound to it.
    pub slot: u64,
}

/// What is imported of a DLL.
#[derive(Debug, Drop)]
pub enum Wanted {
    Name { name: Bytes },
    Ordinal { number: u16 },
}

/// Why there is no list of imports.
#[derive(Clone, Copy, Debug, PartialEq, Eq)]
pub enum ImportEnd {
    /// The walk ends without the entry that closes the table.
    Fault(WalkFault),
    /// A byte could not be read.
    ReadFault,
    /// No memory is left for the list.
    NoMemory,
}
