//! What a linked file writes for systems that read ELF: the program header tables, the embedded headers, and the shell script
//! that holds them.
#![tactic(auto)]

mod tables; // the program header tables, claimed
mod shell; // the script and the magic, claimed
mod header; // the embedded header of an input
mod table; // its program header table
mod place; // where an address of it stands in the linked file
mod body; // the here-document's body
mod delimiter; // its delimiter
mod ending; // what stands behind it
mod script; // the script
mod text; // texts that are made piece by piece
mod law; // what holds of a block, by its definitions

pub use delimiter::choose_delimiter;
pub use header::elf_header;
pub use law::{
    blocks_are_claimed, blocks_have_lengths, blocks_hold_tables, bodies_hold_zeros,
    delimiters_are_free, headers_have_lengths, statements_stand,
};
pub use shell::write_script;
pub use tables::write_tables;
