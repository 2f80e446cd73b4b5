// How a command ends.
ghost use Rattle.std.specs.Prelude.{◌≡◌};
ghost use Rattle.ap_shell.specs.Ends as ends;

use crate::types::Outcome;
use sqlite_items::Items;
use std::alloc::Global;

/// What a command leaves beside the files: its status, what it prints, and an outcome where it ends the script.
#[derive(Drop)]
pub struct Done {
    pub status: u8,
    pub printed: Items<u8>,
    pub outcome: Option<Outcome>,
}

/// With a status alone.
pub fn plain(alloc: Global, status: u8) -> Done
    ensures { result ≡ ends.plain status }
{
    Done {
        status,
        printed: Items::new(alloc),
        outcome: None,
    }
}

/// With status 0, and a text on output 1.
pub fn printing(printed: Items<u8>) -> Done
    ensures { result ≡ ends.printing printed }
{
    Done {
        status: 0,
        printed,
        outcome: None,
    }
}

/// With the script's end.
pub fn stopping(alloc: Global, outcome: Outcome) -> Done
    ensures { result ≡ ends.stopping outcome }
{
    Done {
        status: 0,
        printed: Items::new(alloc),
        outcome: Some(outcome),
    }
}
