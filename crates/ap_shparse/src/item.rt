use crate::tree::{Chain, Node};

/// A command of an AND-OR list.
#[derive(Drop)]
pub(crate) struct Member {
    pub(crate) node: Node,
    /// Whether it is a stopping command, where it is an item by itself.
    pub(crate) stops: bool,
}

/// An item of a list.
#[derive(Drop)]
pub(crate) struct Item {
    pub(crate) chain: Chain,
    /// Whether it is a stopping command, where no here-document waits behind it.
    pub(crate) stops: bool,
}
