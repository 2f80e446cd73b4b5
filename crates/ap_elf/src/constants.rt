// The numbers of the ELF format that are looked at, by the names that the System V gABI gives them, and the limits that
// readings and rules set to them.

/// The first four bytes of an ELF file, 0x7f and `ELF`, as a number.
pub const ELF_MAGIC: u32 = 0x464c457f;

/// How many bytes of the header tell what the file is (`e_ident`).
pub const EI_NIDENT: usize = 16;
/// The place of the class among these bytes.
pub const EI_CLASS: usize = 4;
/// The place of the byte order.
pub const EI_DATA: usize = 5;
/// The place of the version.
pub const EI_VERSION: usize = 6;

/// The class of files of 64 bits.
pub const ELFCLASS64: u8 = 2;
/// The byte order with the lowest byte first.
pub const ELFDATA2LSB: u8 = 1;
/// The version of the format, both in `ident` and in `e_version`.
pub const EV_CURRENT: u8 = 1;

/// The type of a program at fixed addresses (`e_type`).
pub const ET_EXEC: u16 = 2;
/// The machine x86-64 (`e_machine`).
pub const EM_X86_64: u16 = 62;
/// The machine AArch64.
pub const EM_AARCH64: u16 = 183;

/// The bytes of an ELF header.
pub const EHDR_SIZE: usize = 64;
/// The bytes of a program header.
pub const PHDR_SIZE: usize = 56;
/// The bytes of a section header.
pub const SHDR_SIZE: usize = 64;
/// The bytes of a symbol.
pub const SYM_SIZE: usize = 24;

/// The type of a part of the file that is loaded (`p_type`).
pub const PT_LOAD: u32 = 1;
/// The type of the tables for a dynamic linker.
pub const PT_DYNAMIC: u32 = 2;
/// The type of the name of an interpreter.
pub const PT_INTERP: u32 = 3;
/// The type of a note.
pub const PT_NOTE: u32 = 4;
/// The type of the template of thread-local storage.
pub const PT_TLS: u32 = 7;
/// The type of an entry that speaks of the stack.
pub const PT_GNU_STACK: u32 = 0x6474e551;

/// The flag of memory that may be executed (`p_flags`).
pub const PF_X: u32 = 1;
/// The flag of memory that may be written.
pub const PF_W: u32 = 2;
/// The flag of memory that may be read.
pub const PF_R: u32 = 4;

/// The type of a symbol table (`sh_type`).
pub const SHT_SYMTAB: u32 = 2;
/// The type of a string table.
pub const SHT_STRTAB: u32 = 3;
/// The section number of a symbol that isn't defined (`st_shndx`).
pub const SHN_UNDEF: u16 = 0;

/// The most program headers that a file may have.
pub const MOST_PHDRS: usize = 64;
/// The address at which the memory of a program ends at the latest.
pub const ADDRESS_TOP: u64 = 1 << 47;
