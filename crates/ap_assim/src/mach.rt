// An APE file that becomes a Mach-O file.
ghost use Rattle.std.specs.Prelude.{◌≡◌, ◌≤◌, true};
ghost use Rattle.ap_octal.specs.DdEffect.{dd_effect};
ghost use Rattle.ap_assim.specs.Assimilated.{Becomes, Gives, BecomesMach};

use crate::fault::AssimFault;
use ap_loader::has_magic;
use ap_octal::dd_statement;
use std::alloc::Global;

/// The file as a Mach-O file: what the first `dd` statement in its first 8192 bytes makes of it, as POSIX `dd` with
/// `conv=notrunc` from the file onto itself.
///
/// `NotApe` comes exactly where it begins with none of the three magics of an APE file, and `NoStatement` where it begins with one and
/// has no `dd` statement, unless memory runs out.
pub fn to_mach(alloc: Global, file: &[u8]) -> Result<Vec<u8>, AssimFault>
    ensures { Gives (BecomesMach file.now) result }
{
    let mut bytes = match file.to_vec(alloc) {
        Ok(bytes) => bytes,
        Err(_) => return Err(AssimFault::NoMemory),
    };
    match become_mach(&mut bytes) {
        Ok(()) => Ok(bytes),
        Err(fault) => Err(fault),
    }
}

/// Makes the file a Mach-O file in place, as `to_mach` does. It takes no memory. A file that is refused stays as it is.
pub fn become_mach(file: &mut [u8]) -> Result<(), AssimFault>
    ensures { Becomes (BecomesMach file.old) file.old file.new result }
{
    if !has_magic(file) {
        return Err(AssimFault::NotApe);
    }
    match dd_statement(file) {
        Some(dd) => {
            copy_to_front(file, dd.size, dd.skip, dd.count);
            Ok(())
        }
        None => Err(AssimFault::NoStatement),
    }
}

/// Copies blocks of a file to its front, as far as the file has them: `count` blocks of `size` bytes, behind `skip` blocks.
/// It is what POSIX `dd` with `conv=notrunc` does from the file onto itself.
pub fn copy_to_front(file: &mut [u8], size: u32, skip: u32, count: u32)
    requires { 1 ≤ size }
    ensures { file.new ≡ dd_effect true size skip count file.old file.old }
{
    let size = size as usize;
    let from = skip as usize * size;
    if from >= file.len() {
        return;
    }
    let length = (count as usize * size).min(file.len() - from);
    file.copy_within(from..from + length, 0);
}
