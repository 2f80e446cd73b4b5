// What a statement embeds.

/// The bytes of an ELF header, which a statement prints.
pub const HEADER_SIZE: usize = 64;

/// The most bytes of a canonical statement: `printf '`, four for each byte of the header, and a quote.
pub const MOST_STATEMENT: usize = 9 + 4 * HEADER_SIZE;

/// The bytes that a statement's octal text stands for, and where the statement ends.
#[derive(Clone, Copy, Debug, PartialEq, Eq, Drop)]
pub struct Decoded {
    /// The first 64 bytes, which an APE loader takes for an ELF header.
    pub first: [u8; HEADER_SIZE],
    /// How many bytes the text stands for: 64 at least.
    pub count: usize,
    /// The place of the closing quote in the file.
    pub end: usize,
}

/// A `dd` statement of a file, which copies blocks of the file onto the file's front.
#[derive(Clone, Copy, Debug, PartialEq, Eq, Drop)]
pub struct DdStatement {
    /// The place of its first blank.
    pub at: usize,
    /// The bytes of a block.
    pub size: u32,
    /// The blocks in front of those that are copied.
    pub skip: u32,
    /// The blocks that are copied.
    pub count: u32,
}
