// Why a file has no PE reading.

/// What a file is refused for, in the order in which it is looked at.
#[derive(Clone, Copy, Debug, PartialEq, Eq)]
pub enum PeCause {
    /// The file is shorter than 64 bytes, or doesn't begin with `MZ`.
    Mz,
    /// The signature isn't where the file's start says, or passes the file's end.
    Signature,
    /// The file isn't for x86-64.
    Machine,
    /// It has more than 96 sections.
    Sections,
    /// The optional header is too short, or passes the file's end.
    OptionalSize,
    /// The optional header isn't that of PE32+.
    OptionalMagic,
    /// The image base isn't a multiple of 65536 below 2^47.
    Base,
    /// An alignment isn't a power of two in its range, or the file's is above that of sections.
    Alignment,
    /// The directories pass the optional header's end.
    Directories,
    /// The section headers pass the file's end.
    SectionTable,
    /// The headers have no bytes, or pass the file's end.
    HeadersSize,
    /// A section has no bytes.
    Empty,
    /// A section doesn't begin where the one before it ends.
    Adjacent,
    /// A section's bytes don't stand at a multiple of 512 in the file.
    RawAlign,
    /// They pass the file's end.
    RawRange,
    /// A section ends above 2^32.
    SectionEnd,
    /// The image's size isn't where the last section ends.
    ImageSize,
    /// The image ends above 2^47.
    Top,
    /// The program starts behind the image.
    Entry,
}

/// The first refusal of a file.
#[derive(Clone, Copy, Debug, PartialEq, Eq)]
pub struct PeFault {
    pub cause: PeCause,
    /// The section, counted from 1 in the order of the table, or 0 where the cause is of the whole file.
    pub item: u16,
    /// The number that was found.
    pub value: u64,
}
