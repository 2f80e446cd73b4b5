// Where bytes are written, with one meaning: its state.
ghost use Rattle.ap_files.specs.Sinks.{SinkState, Writes};

use crate::Failed;

/// Where bytes are written one after another, as a program's output.
pub trait Sink {
    /// What was written, where that is told, and how many writes failed.
    ghost state: { Self → SinkState };

    /// Writes the first bytes of the piece, and answers how many; at least one where there is one.
    ///
    /// `Failed`: nothing was written.
    fn write(&mut self, piece: &[u8]) -> Result<usize, Failed>
        ensures { Writes (state self.old) (state self.new) piece.now result };
}
