// What a command can change.
use crate::types::Host;
use sqlite_items::Items;

#[derive(Drop)]
pub struct Variable {
    pub name: Items<u8>,
    pub value: Items<u8>,
}

#[derive(Drop)]
pub struct State {
    /// Of several of one name the last counts.
    pub vars: Items<Variable>,
    pub host: Host,
    /// The status of the last command.
    pub status: u8,
    /// The utility calls so far.
    pub calls: u64,
    /// The status of the last `$(..)` of this command, or 0.
    pub inner: u8,
}

/// Where an output goes.
#[derive(Drop)]
pub enum Sink {
    /// To the enclosing `$(..)`, or else to `out` of the host.
    Enclosing,
    Into { name: Items<u8> },
    Nowhere,
}

/// Where outputs 1 and 2 go.
#[derive(Drop)]
pub struct Routes {
    pub one: Sink,
    pub two: Sink,
}
