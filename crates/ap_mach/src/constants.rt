// The numbers of the Mach-O format that are looked at or written, by the names that loader.h and the headers beside it give
// them, and the limits that readings set to them.

use ap_fields::MOST_LOADS;

/// The first four bytes of a Mach-O file of 64 bits, as a number.
pub const MH_MAGIC_64: u32 = 0xfeedfacf;
/// The machine x86-64 (`cputype`).
pub const CPU_TYPE_X86_64: u32 = 0x01000007;
/// Any processor of this machine (`cpusubtype`).
pub const CPU_SUBTYPE_X86_64_ALL: u32 = 3;
/// The type of a program (`filetype`).
pub const MH_EXECUTE: u32 = 2;
/// The flag of a program of which no symbol is left undefined (`flags`).
pub const MH_NOUNDEFS: u32 = 1;
/// The bytes of the header.
pub const HEADER_SIZE: usize = 32;

/// The most commands of a file that is read.
pub const MOST_COMMANDS: usize = 1024;
/// The bytes that each command begins with: its kind, and its size.
pub const COMMAND_SIZE: usize = 8;
/// What the sizes of commands are multiples of.
pub const COMMAND_ALIGNMENT: usize = 8;

/// The command of a part of the file that is mapped (`cmd`).
pub const LC_SEGMENT_64: u32 = 0x19;
/// The command of the state in which a program starts.
pub const LC_UNIXTHREAD: u32 = 5;
/// The command that names a dynamic linker.
pub const LC_LOAD_DYLINKER: u32 = 0xe;
/// The command of the place at which a dynamic linker starts a program.
pub const LC_MAIN: u32 = 0x80000028;

/// The bytes of a segment command without sections.
pub const SEGMENT_SIZE: usize = 72;
/// What addresses, sizes and places of segments are multiples of: the page of x86-64.
pub const SEGMENT_ALIGNMENT: u64 = 4096;
/// The bit of memory that may be read (`initprot`).
pub const VM_PROT_READ: u32 = 1;
/// The bit of memory that may be written.
pub const VM_PROT_WRITE: u32 = 2;
/// The bit of memory that may be executed.
pub const VM_PROT_EXECUTE: u32 = 4;
/// All three of them.
pub const VM_PROT_ALL: u32 = VM_PROT_READ | VM_PROT_WRITE | VM_PROT_EXECUTE;

/// The flavor of a thread's state that has the registers of x86-64.
pub const X86_THREAD_STATE64: u32 = 4;
/// How many numbers of 32 bits this state has: 21 registers of 64 bits.
pub const X86_THREAD_STATE64_COUNT: u32 = 42;
/// The bytes of a thread command with this state.
pub const THREAD_SIZE: usize = 184;

/// The name of the segment in front of the first load, `__ZERO`, as a number.
pub const ZERO_NAME: u64 = 0x4f52_455a_5f5f;
/// The first five letters of the names of the loads' segments, `__APE`, as a number; two digits follow them.
pub const LOAD_NAME: u64 = 0x45_5041_5f5f;
/// The most bytes of the headers that are written: the header, a segment command of each load and one more, and a thread command.
pub const MOST_HEADERS: usize = HEADER_SIZE + SEGMENT_SIZE * (MOST_LOADS + 1) + THREAD_SIZE;
