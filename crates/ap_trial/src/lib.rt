//! A large link of two inputs that are made from a number, and the summary of what is read back.
#![tactic(auto)]

mod draw; // the bytes of a number
mod push; // zeros, appended
mod places; // where the parts of an input stand
mod headers; // the headers of an input
mod tables; // its symbols and sections
mod input; // an input
mod fold; // the fold of bytes
mod cells; // the fold of the cells of a plan
mod numbers; // what a trial finds
mod found; // what the readings find
mod whole; // a trial
mod summary; // its text
mod law; // laws of the inputs

pub use input::make_elf;
pub use law::{
    inputs_are_read_back, inputs_meet_the_rules, readings_find_the_inputs, trials_have_one_summary,
};
pub use whole::trial;
