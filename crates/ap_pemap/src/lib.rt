//! The reading of PE32+ files for x86-64: the plan of memory by which such a file is mapped, or why it is refused.
#![tactic(auto)]

mod reading; // the reading, by a file's bytes
mod file; // the same, by its name
mod plan; // the plan of headers and sections
mod sections; // what is asked of the sections, and their regions
mod extents; // how far headers and sections reach
mod imported; // what a file imports

pub use ap_pe::{PeCause, PeFault};
pub use imported::{ImportFault, imports};
pub use reading::PeReading;
