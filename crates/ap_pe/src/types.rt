// The structures of a PE32+ file, as far as they are looked at (PE/COFF, "COFF File Header", "Optional Header" and "Section
// Table").

/// What is looked at of the headers.
#[derive(Clone, Copy, Debug, Default, PartialEq, Eq)]
pub struct PeHeaders {
    /// The place of the signature in the file.
    pub at: u64,
    /// The machine that the file is for (Machine).
    pub machine: u16,
    /// How many sections there are (NumberOfSections).
    pub count: u16,
    /// How many bytes the optional header has (SizeOfOptionalHeader).
    pub optional: u16,
    /// Where the program starts, from the image base on (AddressOfEntryPoint).
    pub entry: u32,
    /// The address at which the file is mapped (ImageBase).
    pub base: u64,
    /// What the addresses of sections are multiples of (SectionAlignment).
    pub section_align: u32,
    /// What the places of their bytes in the file are multiples of (FileAlignment).
    pub file_align: u32,
    /// How many bytes of memory the file takes (SizeOfImage).
    pub image: u32,
    /// How many bytes of the file are headers (SizeOfHeaders).
    pub headers: u32,
    /// How many directories are said (NumberOfRvaAndSizes).
    pub directories: u32,
}

/// What is looked at of a section header.
#[derive(Clone, Copy, Debug, Default, PartialEq, Eq)]
pub struct PeSection {
    /// How many bytes it has in memory, or 0 (VirtualSize).
    pub vsize: u32,
    /// Its address, from the image base on (VirtualAddress).
    pub vaddr: u32,
    /// How many bytes it has in the file (SizeOfRawData).
    pub raw: u32,
    /// The place of its first byte in the file, or 0 (PointerToRawData).
    pub at: u32,
    /// What is in it, and what may be done with it (Characteristics).
    pub flags: u32,
}

/// The signature and what is looked at of the COFF file header.
#[derive(Clone, Copy, Debug, Default, PartialEq, Eq)]
pub struct FileHeader {
    pub signature: u32,
    pub machine: u16,
    pub count: u16,
    pub optional: u16,
}
