//! Octal text, as `printf` of POSIX prints it, and the statements of that text in an APE file, each of which embeds an ELF
//! header (APE specification). The effect of POSIX `dd` on bytes, and the `dd` statement of an APE file.
#![tactic(auto)]

mod types; // what a statement embeds
mod search; // where statements open and close
mod octal; // octal text, read
mod decode; // a statement, read
mod write; // a statement, written
mod dd; // the `dd` statement
mod law; // what holds of octal text and of `dd` themselves

pub use dd::{dd_statement, short_number};
pub use decode::decode_at;
pub use law::{
    dd_moves_a_file_to_its_front, dd_past_the_end_does_nothing, octal_texts_are_exact,
    octal_texts_are_read, statements_are_octal,
};
pub use octal::next_byte;
pub use search::statements;
pub use types::{DdStatement, Decoded, HEADER_SIZE, MOST_STATEMENT};
pub use write::write_statement;
