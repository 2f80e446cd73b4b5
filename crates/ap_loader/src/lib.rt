//! The loader's part: the header that an Actually Portable Executable (APE) file embeds for a machine, and what the file
//! puts into memory (APE specification).
#![tactic(auto)]

mod reading; // the reading, by a file's bytes
mod file; // the same, by its name
mod header; // the header that a file embeds
mod fault; // why a file has no reading

pub use fault::ApeFault;
pub use header::{embedded, has_magic};
pub use reading::ApeReading;
