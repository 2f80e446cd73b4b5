// The rules of one input, by its name.
ghost use Rattle.std.specs.Prelude.{◌≡◌, IfOk};
ghost use Rattle.ap_files.specs.Reads.{Reads, HasSize};
ghost use Rattle.ap_elf.specs.Symbols.{located, FoundBelow};
ghost use Rattle.ap_check.specs.Bare.{IsBare};
ghost use Rattle.ap_check.specs.Ends.{ChecksFile};

use crate::bare::{Bare, check_bare_in};
use crate::end::CheckEnd;
use crate::fault::broken;
use crate::input::Input;
use crate::named::{symbols_in, with_symbols};
use ap_elf::{Located, locate_in};
use ap_files::{Failed, Files};

/// What is taken of the input `number`, the file of this name, or the first of the rules of [`crate::check_input`] that it
/// breaks. Of a file whose size breaks a rule nothing else is asked. Of any other its header and its program headers are
/// read, once each, then section headers as far as they are needed, and symbols only where `ape_` stands among their names.
///
/// `ReadFault`: the file isn't there, or a read failed.
pub fn check_input_in<F: Files>(files: &mut F, name: &str, number: u8) -> Result<Input, CheckEnd>
    ensures ends { ChecksFile (F.state files.old) (F.state files.new) name.now number result }
    ensures size { IfOk result (λ i. HasSize (F.state files.new).kept name.now i.size) }
    ensures number { IfOk result (λ i. i.number ≡ number) }
{
    let bare = check_bare_in(files, name, number)?;
    check_symbols_in(files, name, number, bare)
}

// Rule 22 of an input that keeps those before it.
fn check_symbols_in<F: Files>(
    files: &mut F,
    name: &str,
    number: u8,
    bare: Bare,
) -> Result<Input, CheckEnd>
    requires bare { IsBare (F.state files.old).kept name.now number bare }
    requires size { HasSize (F.state files.old).kept name.now bare.input.size }
    requires number { bare.input.number ≡ number }
    ensures ends { ChecksFile (F.state files.old) (F.state files.new) name.now number result }
    ensures size { IfOk result (λ i. HasSize (F.state files.new).kept name.now i.size) }
    ensures number { IfOk result (λ i. i.number ≡ number) }
{
    match found_in(files, name, &bare)? {
        Located::Part { part } => Err(CheckEnd::Rule(broken(number, 22, 0, part as u64))),
        Located::Missing => Ok(bare.input),
        Located::At(t) => {
            let symbols = symbols_in(files, name, &t)?;
            Ok(with_symbols(bare.input, symbols))
        }
    }
}

fn found_in<F: Files>(files: &mut F, name: &str, bare: &Bare) -> Result<Located, Failed>
    requires { HasSize (F.state files.old).kept name.now bare.now.input.size }
    ensures read { Reads (F.state files.old) (F.state files.new) name.now
        (λ b found. found ≡ located bare.now.input.size b bare.now.header) result }
    ensures ends { IfOk result (λ found. FoundBelow bare.now.input.size found) }
{
    locate_in(files, name, bare.input.size, &bare.header)
}
