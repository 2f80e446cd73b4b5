//! The reading of Mach-O programs for x86-64: the plan of memory by which such a file is mapped, or why it is refused.
#![tactic(auto)]

mod reading; // the reading, by a file's bytes
mod file; // the same, by its name
mod mapped; // what the commands so far put into memory
mod segments; // the region of a segment

pub use ap_mach::{MachCause, MachFault};
pub use reading::MachReading;
