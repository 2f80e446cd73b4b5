//! Numbers in bytes, the lowest byte first; addresses on granules; numbers in decimal digits; permissions of memory;
//! and the sizes of the file format that several crates speak of.
#![tactic(auto)]

mod number; // numbers in bytes
mod decimal; // numbers in decimal digits
mod granule; // addresses on granules
mod perms; // permissions
mod sizes; // sizes of the file format

pub use decimal::put_decimal;
pub use granule::{ceil_to, floor_to};
pub use number::{le16, le32, le64, put16, put32, put64};
pub use perms::Perms;
pub use sizes::{BLOCK, MOST_LOADS, PE_SPAN, WINDOW};
