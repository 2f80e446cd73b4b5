//! The headers of Mach-O programs for x86-64: how header and commands are read, those of a program in a linked file, and the
//! definition of what such a file puts into memory, the Mach-O reading.
#![tactic(auto)]

pub mod constants; // the numbers of the format
mod types; // the structures, field by field
mod fault; // why a file has no reading
mod check; // the first rule that fails
mod read; // the structures from bytes
mod commands; // the command that stands at a place
mod rules; // what is asked of header and commands
mod file; // header and commands of a file by its name
mod law; // where the reading looks
mod segments; // the segments of a program in a linked file
mod headers; // its headers as bytes
mod write; // the headers, claimed
mod mac; // what of a linked file is for macOS

pub use check::{check_rules, refusal};
pub use commands::command;
pub use fault::{MachCause, MachFault};
pub use file::{header_in, parts_in};
pub use headers::mach_headers;
pub use law::{mach_reads_alike, mach_reads_back};
pub use mac::write_mach;
pub use rules::{check_command, check_segment, check_thread, maps};
pub use types::{Command, CommandParts, MachHeader, SegmentCommand, ThreadCommand};
pub use write::write_headers;
