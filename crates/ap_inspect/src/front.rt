// The first lines.
ghost use Rattle.std.specs.Prelude.{◌≡◌, ◌++◌, OnOk};
ghost use Rattle.ap_inspect.specs.Fronts.{front_lines, magic_of};

use ap_loader::has_magic;
use ap_texts::push_decimal;
use std::alloc::AllocError;

/// Appends the lines of a file's size and of its magic.
#[tactic(auto, using(std::proofs::Common::append_assoc), unfolding(crate::specs::Fronts::front_lines))]
pub(crate) fn push_front(text: &mut Vec<u8>, file: &[u8]) -> Result<(), AllocError>
    ensures { OnOk result (text.new.items ≡ text.old.items ++ front_lines file.now) }
{
    text.extend_from_slice(b"size ")?;
    push_decimal(text, file.len() as u64)?;
    text.extend_from_slice(b"\nmagic ")?;
    push_magic(text, file)?;
    text.extend_from_slice(b"\n")
}

fn push_magic(text: &mut Vec<u8>, file: &[u8]) -> Result<(), AllocError>
    ensures { OnOk result (text.new.items ≡ text.old.items ++ magic_of file.now) }
{
    if has_magic(file) {
        text.extend_from_slice(&file[..file.len().min(6)])
    } else {
        text.extend_from_slice(b"none")
    }
}
