// A sink in memory, of which chosen writes fail.
ghost use Rattle.std.specs.Prelude.{◌≡◌, ◌↔◌, ◌<◌, length, IfOk, IsErr, IsTrue, Some};
ghost use Rattle.ap_files.specs.Sinks.{Writes};
ghost use Rattle.ap_files.specs.Calls.{count_taken};
ghost use Rattle.ap_files.specs.MemorySinks.{sink_state_of, empty_sink, CountsWrite, is_write_failing};

use crate::calls::{Calls, count_taken};
use crate::failure::count_failure;
use crate::{Failed, NoMemory, Sink};
use std::alloc::{AllocError, Global};
use std::marker::Model;

/// A sink in memory, whose bytes are told. Its room is made by `new`, so that no write takes memory,
/// and the writes that were chosen there fail.
#[derive(Drop)]
pub struct MemorySink {
    written: Vec<u8>,
    room: usize,
    faults: u64,
    calls: Calls,
    most: Option<usize>,
}

impl Model for MemorySink {
    ghost use Rattle.std.specs.Prelude.{◌<◌, ◌≤◌, vec_len, vec_capacity};
    ghost use Rattle.std.specs.Option.{ForSome};
    ghost use Rattle.ap_files.specs.MemorySinks.{Gathered, gathered_code};

    ghost Value = { Gathered };

    ghost coded = { gathered_code };

    ghost view = { λ s. record {
      written = s.written.items;
      room = s.room;
      faults = s.faults;
      calls = s.calls;
      most = s.most;
    } };

    ghost invariant = { λ s. (vec_len s.written ≤ s.room)
        × (s.room ≤ vec_capacity s.written)
        × ForSome s.most (λ n. 0 < n) };
}

impl MemorySink {
    /// Nothing is written, and there is room for so many bytes. The k-th write fails for each k of
    /// the list, counted from 1.
    ///
    /// `NoMemory`: the room could not be made, or the list not be kept.
    pub fn new(alloc: Global, room: usize, fails: &[u64]) -> Result<MemorySink, NoMemory>
        ensures { IfOk result (λ s. s ≡ empty_sink room fails.now) }
    {
        MemorySink::made(alloc, room, fails).map_err(|_| NoMemory)
    }

    fn made(alloc: Global, room: usize, fails: &[u64]) -> Result<MemorySink, AllocError>
        ensures { IfOk result (λ s. s ≡ empty_sink room fails.now) }
    {
        Ok(MemorySink {
            written: Vec::with_capacity(alloc, room)?,
            room,
            faults: 0,
            calls: Calls::new(alloc, fails)?,
            most: None,
        })
    }

    /// From now on each write takes at most so many bytes, at least one.
    pub fn slow(&mut self, most: usize)
        requires { 0 < most }
        ensures { self.new ≡ record self.old { most = Some most } }
    {
        self.most = Some(most);
    }

    /// What was written.
    pub fn bytes(&self) -> &[u8]
        ensures { result.now ≡ self.now.written }
    {
        &self.written
    }
}

impl Sink for MemorySink {
    ghost state = { sink_state_of };

    fn write(&mut self, piece: &[u8]) -> Result<usize, Failed>
        ensures writes { Writes (sink_state_of self.old) (sink_state_of self.new) piece.now result }
        ensures failed { IsErr result ↔ IsTrue (is_write_failing self.old (length piece.now)) }
        ensures count { IfOk result (λ n. n ≡ count_taken self.old.most (length piece.now)) }
        ensures counted { CountsWrite self.old self.new }
    {
        let is_failing = self.calls.count();
        if is_failing || self.room - self.written.len() < piece.len() {
            return Err(count_failure(&mut self.faults));
        }
        let count = count_taken(self.most, piece.len());
        match self.written.extend_from_slice(&piece[..count]) {
            Ok(()) => Ok(count),
            Err(_) => unreachable!(),
        }
    }
}
