// Four sizes of the file format. Two of them are equal, and still two things.

/// The bytes at a file's start in which an APE loader looks for `printf '` statements and an assimilator for a `dd`
/// statement; a linked file's here-document and script end within them.
pub const WINDOW: usize = 8192;

/// The bytes from the image base on that the PE headers take in memory.
pub const PE_SPAN: usize = 8192;

/// The bytes of a linked file before its first area: the script's half, and the half of the Mach-O header.
pub const BLOCK: usize = 16384;

/// The most loads that one input may have.
pub const MOST_LOADS: usize = 24;
