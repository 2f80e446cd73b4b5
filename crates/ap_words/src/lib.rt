//! The words of the program: which command they are. Options and operands are taken by `clap`, which is used here alone.
#![tactic(auto)]

mod text; // texts that contracts see as their bytes
mod command; // what words ask for
mod word; // the command words
mod table; // the options and operands of each
mod matches; // what `clap` finds of them
mod named; // names of machines, pages, forms and modes
mod systems; // names of systems
mod number; // numbers in decimal digits
mod fields; // the fields of a command
mod conditions; // what has to hold of them
mod read; // a list of words

pub use command::{Command, Form, WordsFault};
pub use read::read_words;
pub use text::{Text, Texts};
pub use word::{Word, name_of};
