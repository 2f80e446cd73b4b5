// Files by their names, with one meaning: their state.
ghost use Rattle.ap_files.specs.Files.{FileState, IsUnfinished, HasRange, Measures, ReadsAt, Starts, Adds, Finishes};
ghost use Rattle.std.specs.Prelude.{length};

use crate::Failed;

/// Files by their names, of which one at a time is written, from its first byte on.
///
/// Every failed call raises a count that its record of the specs names, and changes no file. A call
/// that does not fail leaves the counts. Where the files are told, the specs say what they hold.
pub trait Files {
    /// Which files are kept and which one is unfinished, and how many reads and writes failed and
    /// files were missing.
    ghost state: { Self → FileState };

    /// How many bytes the file has.
    ///
    /// `Failed`: the file is missing, or its size could not be read.
    fn size(&mut self, name: &str) -> Result<u64, Failed>
        ensures { Measures (state self.old) (state self.new) name.now result };

    /// Fills the buffer with the file's bytes from the byte `at` on.
    ///
    /// `Failed`: they could not be read, and then the buffer may hold anything.
    fn read_at(&mut self, name: &str, at: u64, buf: &mut [u8]) -> Result<(), Failed>
        requires { HasRange (state self.old).kept name.now at (length buf.old) }
        ensures { ReadsAt (state self.old) (state self.new) name.now at buf.old buf.new result };

    /// Makes the file, or empties it, to be written by `add`.
    ///
    /// `Failed`: it could not be made.
    fn start(&mut self, name: &str) -> Result<(), Failed>
        ensures { Starts (state self.old) (state self.new) name.now result };

    /// Appends the first bytes of the piece to the file that was started and isn't finished, and answers
    /// how many; at least one where there is one.
    ///
    /// `Failed`: nothing was appended.
    fn add(&mut self, name: &str, piece: &[u8]) -> Result<usize, Failed>
        requires { IsUnfinished (state self.old) name.now }
        ensures { Adds (state self.old) (state self.new) name.now piece.now result };

    /// Ends the writing of the file that was started and isn't finished.
    ///
    /// `Failed`: it could not be ended, and the file is unfinished as before.
    fn finish(&mut self, name: &str) -> Result<(), Failed>
        requires { IsUnfinished (state self.old) name.now }
        ensures { Finishes (state self.old) (state self.new) name.now result };
}
