// What a script is run with.
use ap_shparse::Nul;

/// The file whose script is run, and what it is run with.
#[derive(Clone, Copy)]
pub struct ScriptRun<'a> {
    /// What `uname -s` answers.
    pub system: &'a str,
    /// What `uname -m` answers.
    pub machine: &'a str,
    /// Whether the command `ape` is found.
    pub ape: bool,
    pub nul: Nul,
    pub file: &'a str,
}
