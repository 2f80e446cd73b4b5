//! The reading of static ELF files of 64 bits, little endian: the plan of memory by which such a file is mapped, or why it
//! is refused.
#![tactic(auto)]

mod reading; // the reading, by a file's bytes
mod file; // the same, by its name
mod header; // what is asked of the header
mod plan; // the plan of a header and program headers
mod entries; // what is asked of the program headers
mod loads; // what is asked of the loads, and their regions
mod fault; // the first rule that fails

pub use ap_elf::{ElfCause, ElfFault};
pub use file::read_with_in;
pub use reading::{ElfReading, read_with};
