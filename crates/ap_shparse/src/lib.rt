//! The shell grammar: which texts are scripts of the subset of the POSIX.1 Shell Command Language that apetool reads, and
//! which script each of them is (POSIX.1, chapter 2).
#![tactic(auto)]

mod tree; // what a script is
mod refusal; // why a part can't be read
mod class; // bytes by their classes
mod text; // what is left of a text
mod found; // what was found of a word
mod pieces; // the pieces of a word
mod lines; // where a reading stands in a text
mod here; // here-documents
mod words; // words and assignments
mod redirect; // redirections
mod elements; // what was found of a command
mod simple; // simple commands
mod item; // an item, and whether it stops the script
mod lists; // lists and `if`
mod script; // a whole text
mod seen; // texts without their NULs
mod grammar; // the script of a text
mod law; // what holds of the grammar itself

pub use grammar::parse;
pub use law::{
    fronts_are_lists, lines_then_text, scripts_are_programs, stopped_fronts_are_scripts,
    texts_have_one_script, whole_fronts_are_scripts,
};
pub use tree::{
    Assign, Chain, Joined, Node, Nul, Part, Redirection, Script, ShellFault, Simple, Target, Word,
};
