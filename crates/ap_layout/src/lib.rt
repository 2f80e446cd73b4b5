//! Where the parts of a linked file stand.
#![tactic(auto)]

mod position; // the positions of all parts
mod areas; // the areas of one input
mod twins; // which loads of two inputs have the same content
mod shared; // the area of another input that serves a load
mod headers; // how long the PE headers are
mod mach; // where the Mach-O header stands
mod tables; // the program header tables
mod layout; // layouts, and areas
mod placed; // the inputs of a job, with their places
mod placement; // an input with its places
mod stack; // the stack that an input asks for
mod sizes; // how large parts may be

pub use headers::pe_length;
pub use layout::{Area, Layout};
pub use mach::mach_input;
pub use placed::{input_count, placed_for, placed_input};
pub use placement::Placement;
pub use position::{areas_are_apart, place};
pub use sizes::{
    FILE_TOP, MACH_HEADER, MOST_BODY, MOST_ENTRIES, MOST_HEADERS, MOST_MACH, MOST_SECTIONS,
    MOST_TABLE, OPENING, PE_HEADERS, SECTION_HEADER, SEGMENT_COMMAND, TABLES, THREAD_COMMAND,
};
pub use stack::stack_size;
pub use tables::entry_count;
pub use twins::Twins;
