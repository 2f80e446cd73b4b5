//! The shell meaning: what a script of the subset of the POSIX.1 Shell Command Language that apetool reads does with the
//! files of a host, and how it ends.
#![tactic(auto)]

mod types; // what a script is given, and how it ends
mod map; // the files of a host
mod state; // what a command can change
mod names; // the names of commands
mod done; // how a command ends
mod copies; // copies of texts
mod places; // files by their names
mod copy_commands; // `cp` and `chmod`
mod operands; // the operands of `dd`
mod copying; // the blocks that `dd` copies
mod dd; // `dd`
mod text_commands; // `uname`, `printf`, `command` and `[`
mod exits; // `exit` and `exec`
mod effect; // each command with its words
mod redirect; // where outputs go
mod obey; // a command, once its words, redirections and assignments are done
mod expand; // words, redirections, assignments and simple commands
mod lists; // commands in turn
mod script; // a script, from its start to its end

pub use map::{Files, HostFile};
pub use script::{run, run_script};
pub use types::{Env, Host, Outcome};
