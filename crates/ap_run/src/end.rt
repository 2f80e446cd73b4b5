// How a run ends.
ghost use Rattle.std.specs.Prelude.{◌≡◌};
ghost use Rattle.ap_run.specs.Ends.{status_of};
ghost use Rattle.ap_run.specs.Lines.{line_of};
ghost use Rattle.ap_run.specs.Prints.{Reports};

use crate::line::line;
use ap_check::Fault;
use ap_elf::ElfFault;
use ap_files::{Sink, print};
use ap_image::WalkFault;
use ap_loader::ApeFault;
use ap_machmap::MachFault;
use ap_pemap::PeFault;
use ap_words::Word;

/// Why a file isn't taken by a command that reads one.
#[derive(Clone, Copy, Debug, PartialEq, Eq)]
pub enum ReadingFault {
    /// The file is longer than 2^30 bytes.
    Large {
        /// Its length in bytes.
        size: u64,
    },
    /// The plan has more than 2^30 addresses.
    Wide {
        /// How many it has.
        total: u64,
    },
    /// It has no ELF reading.
    Elf(ElfFault),
    /// It has no APE reading.
    Ape(ApeFault),
    /// It has no PE reading.
    Pe(PeFault),
    /// It has no Mach-O reading.
    Mach(MachFault),
    /// Its import directory doesn't stand.
    Walk(WalkFault),
    /// Its text isn't in the shell grammar.
    Shell {
        /// The length of the text's longest whole front, in bytes.
        at: u64,
    },
    /// It is no APE file.
    NotApe,
    /// It has no statement for the machine, or no `dd` statement.
    NoStatement,
}

/// Why a run ended.
#[derive(Clone, Copy, Debug, PartialEq, Eq)]
pub enum Cause {
    /// The command did its work.
    Done,
    /// The inputs break a rule, and this is the first one.
    Refused(Fault),
    /// The file isn't taken.
    Unread(ReadingFault),
    /// The words are no command.
    Usage,
    /// The command isn't built yet.
    Unbuilt(Word),
    /// A file could not be read, or isn't there.
    ReadFault,
    /// A file could not be written.
    WriteFault,
    /// The output could not be written.
    OutFault,
    /// No memory was left.
    NoMemory,
}

/// The end of a run: its cause, and the status that the process ends with.
///
/// The status is 0 for `Done`, 1 for `Refused` and `Unread`, 2 for `Usage` and `Unbuilt`, 3 for `ReadFault`, 4 for `WriteFault` and
/// `OutFault`, and 5 for `NoMemory`.
#[derive(Clone, Copy, Debug, PartialEq, Eq)]
pub struct End {
    pub status: u8,
    pub cause: Cause,
}

/// Ends for a cause, whose line is written to `err`. Where that fails, the end is the same.
pub fn end_by<E: Sink>(err: &mut E, cause: Cause) -> End
    ensures status { result.status ≡ status_of cause }
    ensures cause { result.cause ≡ cause }
    ensures err { Reports (E.state err.old) (E.state err.new) (line_of cause) }
{
    if let Some(line) = line(&cause) {
        let _ = print(err, &line);
    }
    End {
        status: status(&cause),
        cause,
    }
}

fn status(cause: &Cause) -> u8
    ensures { result ≡ status_of cause.now }
{
    match cause {
        Cause::Done => 0,
        Cause::Refused(_) | Cause::Unread(_) => 1,
        Cause::Usage | Cause::Unbuilt(_) => 2,
        Cause::ReadFault => 3,
        Cause::WriteFault | Cause::OutFault => 4,
        Cause::NoMemory => 5,
    }
}
