//! The headers and the symbols of ELF files of 64 bits, little endian, and the definitions of what such a file puts into
//! memory: the cell of an input at an address, and the ELF reading.
#![tactic(auto)]

pub mod constants; // the numbers of the format
mod types; // the structures, field by field
mod machine; // the machines
mod kinds; // the kinds of program headers, and what loads say
mod fault; // why a file has no reading
mod read; // the structures from bytes
mod write; // the structures as bytes
mod file; // the headers of a file
mod section; // the rules on the sections of the symbols
mod located; // where the symbols of a file are
mod strings; // texts among a file's strings
mod seen; // where a name stands among them
mod marks; // the places where it may stand
mod named; // the places that symbols name
mod begun; // whether the names of symbols begin with a text
mod compare; // a name at one place of them
mod lookup; // the symbol of a name
mod slice; // the symbols of bytes in memory

pub use begun::any_begins_in;
pub use fault::{ElfCause, ElfFault};
pub use file::{entries_in, header_in};
pub use kinds::{is_dynamic, load_end, load_perms, loads};
pub use located::locate_in;
pub use lookup::{MARKS, symbol_in};
pub use machine::Machine;
pub use named::mark_named_in;
pub use read::{entries, entry, header};
pub use slice::{locate, symbol, symbols_part};
pub use strings::stands_in_strings;
pub use types::{Entry, Header, Located, Tables};
pub use write::{entry_bytes, header_bytes, tables_are_read_back};
