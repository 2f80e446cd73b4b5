// What a writer takes of a piece.
ghost use Rattle.std.specs.Prelude.{◌≤◌, ◌<◌, length, IfOk};
ghost use Rattle.std.specs.Io.KnownBytes.{WriteAppends};

use std::io;
use std::io::{ErrorKind, Write};

/// One write, which takes at least a byte where there is one. It answers how many first bytes of the piece the
/// writer took, also where they are fewer than all.
///
/// An error: the writer's, or `WriteZero` where it took nothing of a piece that isn't empty.
pub fn write_some<W: Write>(writer: &mut W, piece: &[u8]) -> io::Result<usize>
    ensures bounds { IfOk result (λ n. (n ≤ length piece.now) × (0 < length piece.now → 0 < n)) }
    ensures taken { WriteAppends (W.contents writer.old) (W.contents writer.new) result piece.now }
{
    let count = writer.write(piece)?;
    if count == 0 && !piece.is_empty() {
        return Err(io::Error::from(ErrorKind::WriteZero));
    }
    Ok(count)
}
