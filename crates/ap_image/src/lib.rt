//! Plans of memory: which addresses a file is mapped at, what stands at each of them, and the readings of files that give
//! such plans.
#![tactic(auto)]

mod plan; // plans and their regions
mod reading; // readings of files
mod cells; // what a plan has at an address
mod run; // regions that touch, as one
mod piece; // plans over files in memory, piece by piece
mod front; // the image file of a plan, before the bytes
mod image_file; // the whole of it, in memory
mod image_write; // and written to a file
mod by_address; // bytes by their addresses
mod last_read; // the part of a file that was read last
mod plan_cells; // those that a plan shows
mod import_step; // what a walk of an import directory gives
mod import_place; // where it stands
mod import_read; // what it reads
mod walk; // the walk
mod walk_laws; // what holds of walks over two memories
mod bytes; // bytes that a value holds
mod import_item; // imports, with their names
mod import_list; // the list of them

pub use ap_fields::Perms;
pub use by_address::Cells;
pub use bytes::Bytes;
pub use cells::cell;
pub use front::image_front;
pub use image_file::{DumpFault, address_count, dump};
pub use image_write::write_image;
pub use import_item::{Import, ImportEnd, Wanted};
pub use import_list::list_imports;
pub use import_step::{Ending, Step, WalkCause, WalkEnd, WalkFault, What};
pub use last_read::LastRead;
pub use piece::{Image, Piece};
pub use plan::{MOST_REGIONS, Plan, Region};
pub use plan_cells::{FileCells, PlanCells};
pub use reading::{Reading, reads_alike};
pub use run::{Run, runs};
pub use walk::Walk;
pub use walk_laws::walks_alike;
