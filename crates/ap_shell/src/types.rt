// What a script is given, and how it ends.
use crate::map::Files;
use sqlite_items::Items;

/// What a script sees of its surroundings and can't change.
#[derive(Drop)]
pub struct Env {
    /// The value of `$0`.
    pub zero: Items<u8>,
    /// The arguments, which `"$@"` stands for.
    pub args: Items<Items<u8>>,
    /// The variable TMPDIR, where it is set. No other variable is.
    pub tmpdir: Option<Items<u8>>,
    /// The process number, `$$`.
    pub pid: u32,
    /// What `uname -m` prints, without the newline.
    pub machine: Items<u8>,
    /// What `uname -s` prints, without the newline.
    pub system: Items<u8>,
    /// Whether a command `ape` is found.
    pub ape: bool,
    /// The utility calls that fail, counted from 1.
    pub fails: Items<u32>,
}

/// The files, and what was printed on output 1.
#[derive(Drop)]
pub struct Host {
    pub files: Files,
    pub out: Items<u8>,
}

/// How a script ends.
#[derive(Drop)]
pub enum Outcome {
    /// By `exec` of a file, or of the command `ape`, with these words behind its name.
    Execs {
        path: Items<u8>,
        words: Items<Items<u8>>,
    },
    Exits {
        status: u8,
    },
}
