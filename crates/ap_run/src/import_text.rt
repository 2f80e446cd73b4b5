// The text of what a PE32+ file imports.
ghost use Rattle.std.specs.Prelude.{◌≡◌, ◌++◌, OnOk};
ghost use Rattle.ap_run.specs.ImportTexts.{import_line, imports_text, wanted_text};

use crate::byte_text::push_bytes;
use ap_image::{Import, Wanted};
use ap_texts::{push_decimal, push_hex};
use std::alloc::AllocError;

/// Appends a line for each import: the DLL's name, what is imported of it, and the address of its slot in 16 hexadecimal digits.
/// Of names a byte that isn't printed, and a backslash, is a backslash and three octal digits.
#[tactic(auto, using(std::proofs::Common::append_assoc))]
pub fn push_imports(text: &mut Vec<u8>, imports: &[Import]) -> Result<(), AllocError>
    ensures { OnOk result (text.new.items ≡ text.old.items ++ imports_text imports.now) }
{
    for import in imports {
        push_import(text, import)?;
    }
    Ok(())
}

#[tactic(auto, using(std::proofs::Common::append_assoc), unfolding(crate::specs::ImportTexts::import_line))]
fn push_import(text: &mut Vec<u8>, import: &Import) -> Result<(), AllocError>
    ensures { OnOk result (text.new.items ≡ text.old.items ++ import_line import.now) }
{
    text.extend_from_slice(b"import ")?;
    push_bytes(text, import.dll.as_slice())?;
    text.extend_from_slice(b" ")?;
    push_wanted(text, &import.what)?;
    text.extend_from_slice(b" ")?;
    push_hex(text, import.slot)?;
    text.extend_from_slice(b"\n")
}

#[tactic(auto, using(std::proofs::Common::append_assoc))]
fn push_wanted(text: &mut Vec<u8>, what: &Wanted) -> Result<(), AllocError>
    ensures { OnOk result (text.new.items ≡ text.old.items ++ wanted_text what.now) }
{
    match what {
        Wanted::Name { name } => push_bytes(text, name.as_slice()),
        Wanted::Ordinal { number } => {
            text.extend_from_slice(b"#")?;
            push_decimal(text, *number as u64)
        }
    }
}
