// The machine's output streams, whose failed writes are counted.
ghost use Rattle.std.specs.Prelude.{◌≡◌};
ghost use Rattle.ap_files.specs.Machine.{untold_stream};

use crate::failure::count_failure;
use crate::taken::write_some;
use crate::{Failed, Sink};
use std::io::{Stderr, Stdout, Write};
use std::marker::Model;

/// A stream of the machine, of which nothing is told.
///
/// The count rises exactly where a write answers `Failed`, which it does where the machine refuses
/// and where nothing is taken of a piece that isn't empty.
#[derive(Drop)]
pub struct StreamSink<P> {
    stream: P,
    faults: u64,
}

/// The standard output.
pub type OutSink = StreamSink<Stdout>;

/// The standard error.
pub type ErrSink = StreamSink<Stderr>;

impl<P> Model for StreamSink<P> {
    ghost use Rattle.std.specs.Prelude.{ℕ};

    ghost Value = { ℕ };

    ghost view = { λ s. s.faults };
}

impl<P: Write> StreamSink<P> {
    /// Writes to this stream.
    pub fn new(stream: P) -> StreamSink<P>
        ensures { result ≡ 0 }
    {
        StreamSink { stream, faults: 0 }
    }
}

impl<P: Write> Sink for StreamSink<P> {
    ghost state = { untold_stream };

    fn write(&mut self, piece: &[u8]) -> Result<usize, Failed> {
        match write_some(&mut self.stream, piece) {
            Ok(count) => Ok(count),
            Err(_) => Err(count_failure(&mut self.faults)),
        }
    }
}
