// How a link of files ends without its file.
ghost use Rattle.std.specs.Prelude.{◌≡◌};
ghost use Rattle.ap_link.specs.Sources as spec;

use ap_check::{CheckEnd, Fault};
use ap_files::FileFault;

/// Why a link of files ended without its file.
#[derive(Clone, Copy, Debug, PartialEq, Eq)]
pub enum LinkEnd {
    /// The inputs break a rule, and this is the first one.
    Rule(Fault),
    /// An input isn't there, or a read failed.
    ReadFault,
    /// A write failed.
    WriteFault,
}

/// How a link ends where an input isn't taken.
pub(crate) fn end_of_check(end: CheckEnd) -> LinkEnd
    ensures { result ≡ spec.end_of_check end }
{
    match end {
        CheckEnd::Rule(fault) => LinkEnd::Rule(fault),
        CheckEnd::ReadFault => LinkEnd::ReadFault,
    }
}

/// How it ends where its file isn't made.
pub(crate) fn end_of_fault(fault: FileFault) -> LinkEnd
    ensures { result ≡ spec.end_of_fault fault }
{
    match fault {
        FileFault::Read => LinkEnd::ReadFault,
        FileFault::Write => LinkEnd::WriteFault,
    }
}
