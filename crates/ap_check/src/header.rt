// Rules 3 to 11, of the ELF header.
ghost use Rattle.std.specs.Prelude.{◌≤◌, ◌+◌, ◌*◌, OnOk};
ghost use Rattle.ap_check.specs.Rules.{Checks, ident_rules, field_rules, header_rules};

use crate::fault::{Fault, broken, demand};
use ap_elf::Header;
use ap_elf::constants::{
    EI_CLASS, EI_DATA, EI_VERSION, ELF_MAGIC, ELFCLASS64, ELFDATA2LSB, EM_AARCH64, EM_X86_64,
    ET_EXEC, EV_CURRENT, MOST_PHDRS, PHDR_SIZE,
};
use ap_fields::le32;

/// Rules 3 to 11 of a file of `size` bytes. Where they hold, its program header table lies in it.
#[tactic(auto, using(ap_fields::proofs::FirstFaults::join_steps), unfolding(crate::specs::Rules::header_rules))]
pub fn check_header(h: &Header, size: u64, number: u8) -> Result<(), Fault>
    ensures rules { Checks result (header_rules number size h.now) }
    ensures table { OnOk result (h.now.e_phoff + 56 * h.now.e_phnum ≤ size) }
    ensures few { OnOk result (h.now.e_phnum ≤ 64) }
{
    check_ident(h, number)?;
    check_fields(h, size, number)
}

// Rules 3 to 6, of the header's first bytes.
fn check_ident(h: &Header, number: u8) -> Result<(), Fault>
    ensures { Checks result (ident_rules number h.now) }
{
    let mark = le32(&h.ident, 0);
    let (class, order, version) = (h.ident[EI_CLASS], h.ident[EI_DATA], h.ident[EI_VERSION]);
    demand(mark == ELF_MAGIC, broken(number, 3, 0, mark as u64))?;
    demand(class == ELFCLASS64, broken(number, 4, 0, class as u64))?;
    demand(order == ELFDATA2LSB, broken(number, 5, 0, order as u64))?;
    demand(version == EV_CURRENT, broken(number, 6, 0, version as u64))
}

// Rules 6 to 11, of its numbers.
fn check_fields(h: &Header, size: u64, number: u8) -> Result<(), Fault>
    ensures rules { Checks result (field_rules number size h.now) }
    ensures table { OnOk result (h.now.e_phoff + 56 * h.now.e_phnum ≤ size) }
    ensures few { OnOk result (h.now.e_phnum ≤ 64) }
{
    if h.e_version != EV_CURRENT as u32 {
        return Err(broken(number, 6, 0, h.e_version as u64));
    }
    if h.e_type != ET_EXEC {
        return Err(broken(number, 7, 0, h.e_type as u64));
    }
    if h.e_machine != EM_X86_64 && h.e_machine != EM_AARCH64 {
        return Err(broken(number, 8, 0, h.e_machine as u64));
    }
    if h.e_phentsize != PHDR_SIZE as u16 {
        return Err(broken(number, 9, 0, h.e_phentsize as u64));
    }
    if h.e_phnum < 1 || h.e_phnum > MOST_PHDRS as u16 {
        return Err(broken(number, 10, 0, h.e_phnum as u64));
    }
    let table = PHDR_SIZE as u64 * h.e_phnum as u64;
    if table > size || h.e_phoff > size - table {
        return Err(broken(number, 11, 0, h.e_phoff));
    }
    Ok(())
}
