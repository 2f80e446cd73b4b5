// Why a file has no ELF reading.

/// What a file is refused for, in the order in which it is looked at.
#[derive(Clone, Copy, Debug, PartialEq, Eq)]
pub enum ElfCause {
    /// The file is shorter than an ELF header.
    Short,
    /// It doesn't begin with the four bytes of an ELF file.
    Magic,
    /// It isn't of 64 bits.
    Class,
    /// It isn't little endian.
    Endian,
    /// It isn't of version 1.
    Version,
    /// It isn't a program at fixed addresses.
    FileType,
    /// It is for another machine.
    Machine,
    /// Its program headers aren't of 56 bytes.
    TableSize,
    /// It has no program header, or more than 64.
    TableCount,
    /// Its program header table passes its end.
    TableRange,
    /// It asks for an interpreter, or is linked when it is started.
    Dynamic,
    /// A load has more bytes in the file than in memory.
    Sizes,
    /// A load's part of the file passes the file's end.
    Range,
    /// A load passes the address 2^47.
    Top,
    /// A load's place in the file and its address differ modulo the page.
    Congruent,
    /// A load begins in or before the pages of the load before it.
    Order,
    /// Nothing is loaded.
    NoLoad,
}

/// The first refusal of a file.
#[derive(Clone, Copy, Debug, PartialEq, Eq)]
pub struct ElfFault {
    pub cause: ElfCause,
    /// The entry or the load, counted from 1 in the order of the table, or 0 where the cause is of the whole file.
    pub item: u16,
    /// The number that was found.
    pub value: u64,
}
