//! The program apetool as one function, `run`, over any files and any places to print.
#![tactic(auto)]

mod command; // a run
mod end; // how it ends
mod line; // the line that says why
mod link; // files that are linked
mod format; // the formats that files are read by
mod planned; // the plan of a file, by its name
mod fetch; // the bytes of a file
mod show; // a file that is shown
mod dump; // the same, with its image file
mod listing; // a file that is shown with its imports
mod import_text; // the text of imports
mod byte_text; // and of any bytes
mod assimilate; // a file that becomes another
mod inspect; // a file that is reported on
mod trial; // a trial of the linker
mod script_run; // what a script is run with
mod script; // a file whose script is run
mod outcome; // the text of how that ends
mod law; // what holds of the definitions

pub use command::run;
pub use end::{Cause, End, ReadingFault, end_by};
pub use law::scripts_have_one_answer;
