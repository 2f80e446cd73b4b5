//! What the program prints of readings: the text of a plan of memory, numbers, and the names of the causes for which files are
//! refused.
#![tactic(auto)]

mod text; // the text of a plan
mod number; // decimal numbers
mod causes; // the names of causes

pub use causes::{elf_name, mach_name, pe_name};
pub use number::push_decimal;
pub use text::{plan_text, push_hex, push_plan};
