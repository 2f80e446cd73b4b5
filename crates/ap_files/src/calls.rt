// Which calls on files or on a sink in memory fail.
ghost use Rattle.std.specs.Prelude.{◌≡◌, IfOk};
ghost use Rattle.ap_files.specs.Calls.{first_numbering, is_due, after_call, count_taken};

use std::alloc::{AllocError, Global};
use std::marker::Model;

/// The numbers of the calls that fail, and the number of the next call.
#[derive(Drop)]
pub struct Calls {
    failing: Vec<u64>,
    next: Option<u64>,
}

impl Model for Calls {
    ghost use Rattle.ap_files.specs.Calls.{Numbering};

    ghost Value = { Numbering };

    ghost view = { λ c. record { failing = c.failing.items; next = c.next } };
}

impl Calls {
    /// The calls with these numbers fail, counted from 1.
    pub fn new(alloc: Global, failing: &[u64]) -> Result<Calls, AllocError>
        ensures { IfOk result (λ c. c ≡ first_numbering failing.now) }
    {
        Ok(Calls {
            failing: Vec::from_slice(alloc, failing)?,
            next: Some(1),
        })
    }

    /// Counts a call, and says whether it is one of those that fail.
    pub fn count(&mut self) -> bool
        ensures due { result ≡ is_due self.old }
        ensures next { self.new ≡ after_call self.old }
    {
        let Some(number) = self.next else {
            return false;
        };
        self.next = if number < u64::MAX {
            Some(number + 1)
        } else {
            None
        };
        self.failing.contains(&number)
    }
}

/// How many bytes of a piece of this size a call takes, where it takes at most so many, or all.
pub fn count_taken(most: Option<usize>, size: usize) -> usize
    ensures { result ≡ count_taken most size }
{
    match most {
        Some(most) => most.min(size),
        None => size,
    }
}
