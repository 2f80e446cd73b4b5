// An APE file that becomes an ELF file.
ghost use Rattle.std.specs.Prelude.{◌≡◌, ◌≤◌, length};
ghost use Rattle.ap_fields.specs.Bytes.{over};
ghost use Rattle.ap_elf.specs.Machines.{number_of};
ghost use Rattle.ap_assim.specs.Assimilated.{Becomes, Gives, BecomesElf};

use crate::fault::AssimFault;
use ap_elf::Machine;
use ap_elf::constants::EHDR_SIZE;
use ap_loader::{embedded, has_magic};
use std::alloc::Global;

/// The file as an ELF file for the machine: its first 64 bytes are replaced by the header that it embeds for the machine.
///
/// `NotApe` comes exactly where it begins with none of the three magics of an APE file, and `NoStatement` where it begins with one and
/// embeds no header for the machine, unless memory runs out.
pub fn to_elf(alloc: Global, file: &[u8], machine: Machine) -> Result<Vec<u8>, AssimFault>
    ensures { Gives (BecomesElf (number_of machine) file.now) result }
{
    let mut bytes = match file.to_vec(alloc) {
        Ok(bytes) => bytes,
        Err(_) => return Err(AssimFault::NoMemory),
    };
    match become_elf(&mut bytes, machine) {
        Ok(()) => Ok(bytes),
        Err(fault) => Err(fault),
    }
}

/// Makes the file an ELF file for the machine in place, as `to_elf` does. It takes no memory. A file that is refused stays as
/// it is.
pub fn become_elf(file: &mut [u8], machine: Machine) -> Result<(), AssimFault>
    ensures { Becomes (BecomesElf (number_of machine) file.old) file.old file.new result }
{
    if !has_magic(file) {
        return Err(AssimFault::NotApe);
    }
    match embedded(file, machine) {
        Some(statement) => {
            let header = statement.1;
            set_front(file, &header);
            Ok(())
        }
        None => Err(AssimFault::NoStatement),
    }
}

// The file with other bytes over its first ones.
fn set_front(file: &mut [u8], bytes: &[u8])
    requires { length bytes.now ≤ length file.old }
    ensures { file.new ≡ over file.old bytes.now }
{
    file[..bytes.len()].copy_from_slice(bytes);
}
