// Texts that are made piece by piece.
ghost use Rattle.std.specs.Prelude.{◌≡◌, ◌+◌, ◌≤◌, ◌++◌, length};
ghost use Rattle.ap_fields.specs.declared.sizes.TheConstants.{WINDOW};

use ap_fields::WINDOW;
use arrayvec::ArrayVec;

/// A part of the window of a linked file.
pub(crate) type Text = ArrayVec<u8, WINDOW>;

/// Appends a piece, for which there is room.
pub(crate) fn push_text(out: &mut Text, piece: &[u8])
    requires { length out.old.items + length piece.now ≤ WINDOW }
    ensures { out.new.items ≡ out.old.items ++ piece.now }
{
    for byte in piece {
        out.push(*byte);
    }
}
