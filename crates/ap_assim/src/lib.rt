//! What an Actually Portable Executable (APE) file becomes for one system alone: an ELF file, or a Mach-O file (APE
//! specification, the assimilator).
#![tactic(auto)]

mod fault; // why it becomes neither
mod elf; // an ELF file
mod mach; // a Mach-O file
mod law; // what holds of the ELF file

pub use elf::{become_elf, to_elf};
pub use fault::AssimFault;
pub use law::{elf_files_have_the_bytes, elf_files_have_the_plan};
pub use mach::{become_mach, copy_to_front, to_mach};
