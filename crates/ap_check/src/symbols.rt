// The symbols that the linker looks for.

/// The values of an input's symbols that have a meaning for the linker: of each, that of the first defined symbol of its
/// name, which is the field's with `ape_` in front. `None` where no defined symbol has the name.
#[derive(Clone, Copy, Debug, Default, PartialEq, Eq)]
pub struct Symbols {
    /// Where the program starts on Windows.
    pub pe_entry: Option<u64>,
    /// Where the program starts on macOS.
    pub mach_entry: Option<u64>,
    /// The image base on Windows.
    pub image_base: Option<u64>,
    /// The start of the import directory.
    pub idata: Option<u64>,
    /// The end of the import directory.
    pub idata_end: Option<u64>,
    /// The start of the import address tables.
    pub iat: Option<u64>,
    /// The end of the import address tables.
    pub iat_end: Option<u64>,
}
