// Pieces that are appended whole.
ghost use Rattle.std.specs.Prelude.{◌≡◌, ◌≤◌, length};
ghost use Rattle.ap_files.specs.Files.{IsUnfinished};
ghost use Rattle.ap_files.specs.Appends.{Appends, write_failure};

use crate::failure::Failed;
use crate::files::Files;

/// Appends all of a piece to the unfinished file, which has this name, in as many calls as it takes.
///
/// `Failed`: a call failed, and the first bytes of the piece are appended, or none.
pub fn append<F: Files>(files: &mut F, name: &str, piece: &[u8]) -> Result<(), Failed>
    requires { IsUnfinished (F.state files.old) name.now }
    ensures { Appends (F.state files.old) (F.state files.new) name.now piece.now
        (write_failure result) }
{
    let mut at = 0;
    while at < piece.len() {
        at += files.add(name, &piece[at..])?;
    }
    Ok(())
}
