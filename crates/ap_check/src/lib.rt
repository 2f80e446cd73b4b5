//! The rules that an input of the linker has to meet, and what is taken of an input that meets them.
#![tactic(auto)]

mod check; // all rules of one input, by its bytes
mod file; // the same, by its name
mod end; // how a check of a file ends
mod fault; // the rule that is broken
mod bare; // rules 1 to 21
mod size; // rules 1 and 2: the size
mod header; // rules 3 to 11: the ELF header
mod table; // rules 12 to 21: the program headers
mod entries; // rules 12 and 13: which program headers there are
mod loads; // rules 14 to 18: each load
mod span; // rules 19 and 20: all loads together
mod tls; // rule 21: the template of thread-local storage
mod named; // the symbols that the linker looks for
mod windows; // rules 24 to 28: what Windows asks
mod mac; // rule 29: what macOS asks
mod both; // rules 23 to 29: all inputs together
mod imports; // rule 28: the import table
mod input_plan; // an input in memory
mod input; // what is taken of an input
mod load; // its loads
mod part; // the parts of the file that they have
mod notes; // its notes
mod stack; // its stack
mod symbols; // its symbols
mod job; // what is to be linked
mod options; // what is asked of the linked file

pub use ap_elf::Machine;
pub use both::{check_all, check_all_in};
pub use check::check_input;
pub use end::CheckEnd;
pub use fault::Fault;
pub use file::check_input_in;
pub use imports::{ImportTable, import_tables_end, table_of};
pub use input::Input;
pub use input_plan::{bytes_are_cells, plan_of};
pub use job::Job;
pub use load::{Load, taken_loads};
pub use mac::mach_entry;
pub use options::{Options, Systems};
pub use size::check_size;
pub use symbols::Symbols;
pub use windows::image_base;
