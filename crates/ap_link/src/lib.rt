//! Links ELF programs into one file that is a shell script, and holds the programs' headers and bytes.
#![tactic(auto)]

mod stream; // a link of files
mod linker; // a link in memory
mod held; // the files that it takes and makes
mod source; // the inputs of a link of files
mod end; // how it ends without its file
mod fault; // why an input isn't linked
mod twins; // which loads have the same content
mod content; // the content of a load, piece by piece
mod fill; // the block, filled by its claims
mod write; // the linked file, written
mod laid; // where areas end
mod areas; // the areas of an input, written
mod copy; // a part of a file, appended
mod image; // what the readings find in a linked file
mod law; // what an APE loader takes of it

pub use end::LinkEnd;
pub use fault::LinkFault;
pub use image::{ape_is_same, elf_is_same, mach_is_same, pe_is_same};
pub use law::{blocks_have_magic, statements_are_taken};
pub use linker::link;
pub use stream::link_stream;
