// The structures of an ELF file, field by field (System V gABI, "ELF Header", "Sections", "Symbol Table" and "Program
// Header"), and where its symbols are.

use crate::constants::EI_NIDENT;

/// The ELF header, 64 bytes from the file's start.
#[derive(Clone, Copy, Debug, Default, PartialEq, Eq)]
pub struct Header {
    /// The file's mark, its class, its byte order and its versions.
    pub ident: [u8; EI_NIDENT],
    /// What the file is: [`crate::constants::ET_EXEC`] for a program at fixed addresses.
    pub e_type: u16,
    /// The machine, as [`crate::constants::EM_X86_64`].
    pub e_machine: u16,
    /// The version of the format, 1.
    pub e_version: u32,
    /// The address at which the program starts.
    pub e_entry: u64,
    /// The place of the program header table in the file.
    pub e_phoff: u64,
    /// The place of the section header table in the file, or 0.
    pub e_shoff: u64,
    /// Flags of the machine.
    pub e_flags: u32,
    /// The size of this header in bytes.
    pub e_ehsize: u16,
    /// The size of one program header in bytes.
    pub e_phentsize: u16,
    /// The number of program headers.
    pub e_phnum: u16,
    /// The size of one section header in bytes.
    pub e_shentsize: u16,
    /// The number of section headers.
    pub e_shnum: u16,
    /// The number of the section that holds the sections' names.
    pub e_shstrndx: u16,
}

/// One program header, 56 bytes: an entry of the program header table.
#[derive(Clone, Copy, Debug, Default, PartialEq, Eq)]
pub struct Entry {
    /// What the entry is (`p_type`), as [`crate::constants::PT_LOAD`].
    pub kind: u32,
    /// Its permissions (`p_flags`): 1 execute, 2 write, 4 read.
    pub flags: u32,
    /// The place of its first byte in the file.
    pub offset: u64,
    /// The address of its first byte in memory.
    pub vaddr: u64,
    /// The physical address, which nothing here looks at.
    pub paddr: u64,
    /// How many of its bytes stand in the file.
    pub filesz: u64,
    /// How many bytes it has in memory; those past `filesz` are 0.
    pub memsz: u64,
    /// Its alignment in the file and in memory.
    pub align: u64,
}

/// What is looked at of a section header, 64 bytes.
#[derive(Clone, Copy)]
pub(crate) struct Section {
    /// What the section is (`sh_type`), as [`crate::constants::SHT_SYMTAB`].
    pub kind: u32,
    /// The place of its first byte in the file.
    pub offset: u64,
    /// How many bytes it has.
    pub size: u64,
    /// The number of another section, counted from 0: of a symbol table, the one with the symbols' names.
    pub link: u32,
    /// The size of one of its entries in bytes.
    pub entsize: u64,
}

/// What is looked at of a symbol, 24 bytes.
#[derive(Clone, Copy)]
pub(crate) struct Symbol {
    /// The place of its name in the string table (`st_name`).
    pub name: u32,
    /// The number of its section (`st_shndx`), or 0 where it isn't defined.
    pub section: u16,
    /// Its value (`st_value`).
    pub value: u64,
}

/// Where a file's symbol table and its string table are.
#[derive(Clone, Copy, Debug, PartialEq, Eq)]
pub struct Tables {
    /// The place of the symbol table in the file.
    pub at: u64,
    /// The number of symbols, of 24 bytes each.
    pub count: u64,
    /// The place of the string table in the file.
    pub strings: u64,
    /// How many bytes the string table has.
    pub length: u64,
}

/// What is found of a file's symbols.
#[derive(Clone, Copy, Debug, PartialEq, Eq)]
pub enum Located {
    /// Sections or tables don't stand as they must.
    Part {
        /// What doesn't, from 1 to 7: the size of a section header, the range of their table; the symbol table's size of
        /// an entry, range, and size; the string table's number and type, and its range.
        part: u8,
    },
    /// There is no symbol table.
    Missing,
    /// The tables.
    At(Tables),
}
