// The numbers of the PE32+ format that are looked at or written, by the names that the PE/COFF specification gives them, and
// the limits that readings set to them.

use ap_fields::MOST_LOADS;

/// The first two bytes of a file, `MZ`, as a number.
pub const IMAGE_DOS_SIGNATURE: u16 = 0x5a4d;
/// The bytes at a file's start that say where the PE headers stand.
pub const DOS_SIZE: usize = 64;

/// The four bytes before the COFF file header, `PE` and two zeros, as a number.
pub const IMAGE_NT_SIGNATURE: u32 = 0x4550;
/// The bytes of the signature and the COFF file header.
pub const FILE_HEADER_SIZE: usize = 24;
/// The machine x86-64.
pub const IMAGE_FILE_MACHINE_AMD64: u16 = 0x8664;
/// The flags of a program at a fixed address (relocations stripped, executable image, addresses above 2 GiB).
pub const IMAGE_FILE_FIXED: u16 = 0x23;

/// The magic of the optional header of a PE32+ file.
pub const IMAGE_NT_OPTIONAL_HDR64_MAGIC: u16 = 0x20b;
/// The bytes of the optional header in front of its directories.
pub const OPTIONAL_LEAST: usize = 112;
/// The bytes of a directory.
pub const DIRECTORY_SIZE: usize = 8;
/// The most directories.
pub const IMAGE_NUMBEROF_DIRECTORY_ENTRIES: usize = 16;
/// The bytes of the optional header with all directories.
pub const OPTIONAL_SIZE: usize = OPTIONAL_LEAST + DIRECTORY_SIZE * IMAGE_NUMBEROF_DIRECTORY_ENTRIES;
/// The number of the directory of the import table, counted from 0.
pub const IMAGE_DIRECTORY_ENTRY_IMPORT: usize = 1;
/// The number of the directory of the import address table.
pub const IMAGE_DIRECTORY_ENTRY_IAT: usize = 12;
/// The subsystem of programs in a console.
pub const IMAGE_SUBSYSTEM_WINDOWS_CUI: u16 = 3;
/// The flag of a program that executes no data.
pub const IMAGE_DLLCHARACTERISTICS_NX_COMPAT: u16 = 0x100;

/// The bytes of a section header.
pub const SECTION_SIZE: usize = 40;
/// The most sections of a file that is read.
pub const MOST_SECTIONS: usize = 96;
/// The flag of a section with code.
pub const IMAGE_SCN_CNT_CODE: u32 = 0x20;
/// The flag of a section with bytes in the file.
pub const IMAGE_SCN_CNT_INITIALIZED_DATA: u32 = 0x40;
/// The flag of a section without.
pub const IMAGE_SCN_CNT_UNINITIALIZED_DATA: u32 = 0x80;
/// The flag of a section that may be executed.
pub const IMAGE_SCN_MEM_EXECUTE: u32 = 0x20000000;
/// The flag of a section that may be read.
pub const IMAGE_SCN_MEM_READ: u32 = 0x40000000;
/// The flag of a section that may be written.
pub const IMAGE_SCN_MEM_WRITE: u32 = 0x80000000;

/// What the addresses of the sections that are written are multiples of: the granule of x86-64.
pub const SECTION_ALIGNMENT: u64 = 4096;
/// What the sizes of their bytes in the file are multiples of.
pub const FILE_ALIGNMENT: u64 = 512;
/// The letter in the name of a load's section.
pub const LOAD_LETTER: u8 = b'a';
/// The letter in the name of a gap's section.
pub const FILLER_LETTER: u8 = b'g';
/// The most sections that are written: of each load, and of a gap in front of it.
pub const MOST_WRITTEN: usize = 2 * MOST_LOADS;
/// The most bytes of the PE headers that are written.
pub const MOST_HEADERS: usize = FILE_HEADER_SIZE + OPTIONAL_SIZE + SECTION_SIZE * MOST_WRITTEN;

/// How much of a stack is reserved where a program doesn't say.
pub const USUAL_STACK: u64 = 0x80_0000;
/// How much of a heap is reserved.
pub const USUAL_HEAP: u64 = 0x10_0000;
/// How much of a stack or of a heap is there from the start on.
pub const USUAL_COMMIT: u64 = 0x1000;
/// The version of Windows that is asked for: Vista.
pub const SYSTEM_VERSION: u16 = 6;
/// The place in a linked file of the PE headers: behind the here-document's opening and ten zeros.
pub const HEADERS_PLACE: u32 = 96;
