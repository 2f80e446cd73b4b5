//! What the script of a linked file does: that it means the dispatch table.
#![tactic(auto)]

mod law; // what holds of a file that begins with the block of a linked file

pub use law::{dispatch_leaves_other_files, scripts_dispatch};
