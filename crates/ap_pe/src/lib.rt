//! The headers of PE32+ files: those of a program for Windows in a linked file, how headers are read, and the definition of what
//! such a file puts into memory, the PE reading.
#![tactic(auto)]

pub mod constants; // the numbers of the format
mod types; // the structures, field by field
mod fault; // why a file has no reading
mod check; // the first rule that fails
mod read; // the structures from bytes
mod rules; // what is asked of the headers
mod file; // the headers of a file by its name
mod slice; // the same of bytes in memory
mod law; // where the reading looks
mod program; // what headers say of a program
mod sections; // the sections of a program
mod headers; // its headers as bytes
mod write; // the headers, claimed
mod windows; // what of a linked file is for Windows

pub use check::{check_rules, refusal};
pub use fault::{PeCause, PeFault};
pub use file::{read_pe_in, sections_in};
pub use headers::pe_headers;
pub use law::pe_reads_alike;
pub use program::{Directory, Program};
pub use slice::{read_pe, section};
pub use types::{PeHeaders, PeSection};
pub use windows::{pe_text, write_pe};
pub use write::write_headers;
