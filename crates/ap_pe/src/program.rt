// What PE headers say of a program beside its loads.

/// A directory: the place of a table in memory (PE/COFF, "Optional Header Data Directories").
#[derive(Clone, Copy, Debug, Default, PartialEq, Eq)]
pub struct Directory {
    /// Its address, from the image base on.
    pub rva: u32,
    /// Its length in bytes.
    pub length: u32,
}

/// What of a program its PE headers say beside its loads.
#[derive(Clone, Copy, Debug, Default, PartialEq, Eq)]
pub struct Program {
    /// The image base.
    pub base: u64,
    /// The address at which the program starts on Windows.
    pub entry: u64,
    /// The size of the stack that is asked for, or 0.
    pub stack: u64,
    /// The import table.
    pub imports: Directory,
    /// The table of imported addresses.
    pub slots: Directory,
}
