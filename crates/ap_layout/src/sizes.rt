// How large the parts of a linked file may be.
use ap_elf::constants::PHDR_SIZE;
use ap_fields::MOST_LOADS;

/// The most program headers of an input: its loads', its stack's, its five notes' and its thread-local storage's.
pub const MOST_ENTRIES: usize = MOST_LOADS + 7;

/// The most bytes of an input's program header table.
pub const MOST_TABLE: u32 = (PHDR_SIZE * MOST_ENTRIES) as u32;

/// The bytes of the here-document's opening.
pub const OPENING: u32 = 86;

/// Where the PE headers stand, or the first program header table without them: behind the here-document's opening and ten
/// zeros.
pub const TABLES: u32 = OPENING + 10;

/// The bytes of the PE signature, the COFF header and the optional header with its 16 directories (PE/COFF).
pub const PE_HEADERS: u32 = 4 + 20 + 240;

/// The bytes of a section header (PE/COFF, "Section Table").
pub const SECTION_HEADER: u32 = 40;

/// The most sections of an input: its loads', and one for the gap in front of each.
pub const MOST_SECTIONS: usize = 2 * MOST_LOADS;

/// The most bytes of the PE headers.
pub const MOST_HEADERS: u32 = PE_HEADERS + SECTION_HEADER * MOST_SECTIONS as u32;

/// The bytes of a Mach-O file's header, `mach_header_64` (loader.h).
pub const MACH_HEADER: u32 = 32;

/// The bytes of a segment command without sections, `segment_command_64` (loader.h).
pub const SEGMENT_COMMAND: u32 = 72;

/// The bytes of a thread command for x86-64: its four numbers, and 21 registers (loader.h, "thread_command").
pub const THREAD_COMMAND: u32 = 16 + 21 * 8;

/// The most bytes of the Mach-O header: a segment command for the addresses below the loads, and one for each load.
pub const MOST_MACH: u32 = MACH_HEADER + SEGMENT_COMMAND * (1 + MOST_LOADS as u32) + THREAD_COMMAND;

/// Where the here-document's body ends at the latest: behind the PE headers and the tables of two inputs.
pub const MOST_BODY: u32 = TABLES + MOST_HEADERS + 2 * MOST_TABLE;

/// The largest granule of a machine.
pub const MOST_GRANULE: u64 = 1 << 14;

/// The most bytes of a file that the areas of a load take beside its own: up to the area's start, in front of its bytes and
/// behind them.
pub const MOST_BESIDE: u64 = 3 * MOST_GRANULE;

/// The most bytes that the loads of an input may have in its file.
pub const MOST_BYTES: u64 = 1 << 28;

/// The most bytes of a file that the areas of an input take.
pub const MOST_AREAS: u64 = MOST_BYTES + MOST_BESIDE * MOST_LOADS as u64;

/// What the length of a linked file stays below.
pub const FILE_TOP: u64 = 1 << 31;
