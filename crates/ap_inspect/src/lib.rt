//! The report on an Actually Portable Executable (APE) file: what its window holds, how each reading maps it, and which
//! parts of it belong to which format.
#![tactic(auto)]

mod whole; // the report
mod front; // its size and magic
mod statements; // its statements
mod dd; // its `dd` statement
mod asked; // what readings answer
mod readings; // their texts
mod owners; // the owners of its bytes
mod headers; // those of the headers that it embeds
mod law; // what holds of reports

pub use law::files_have_one_report;
pub use whole::report;
