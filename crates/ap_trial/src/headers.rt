// The headers of an input.
ghost use Rattle.std.specs.Prelude.{◌≡◌, ◌≤◌, ◌++◌, OnOk};
ghost use Rattle.ap_elf.specs.Machines.{granule_of};
ghost use Rattle.ap_elf.specs.Written as written;
ghost use Rattle.ap_trial.specs.TrialInputs.{headers_text, trial_header, trial_loads, trial_load};

use crate::places::{FIRST, places_of};
use crate::push::push_zeros;
use ap_elf::constants::{
    EHDR_SIZE, ET_EXEC, EV_CURRENT, PF_R, PF_W, PF_X, PHDR_SIZE, PT_LOAD, SHDR_SIZE,
};
use ap_elf::{Entry, Header, Machine, entry_bytes, header_bytes};
use std::alloc::AllocError;

// The bytes of the header and of the three program headers.
const HEADERS: u64 = (EHDR_SIZE + 3 * PHDR_SIZE) as u64;

// Appends the headers of the file and of its loads, up to the first granule.
#[tactic(auto, using(std::proofs::Common::append_assoc), unfolding(crate::specs::TrialInputs::headers_text))]
pub(crate) fn push_headers(
    out: &mut Vec<u8>,
    pages: u32,
    machine: Machine,
) -> Result<(), AllocError>
    requires { pages ≤ 16384 }
    ensures { OnOk result (out.new.items ≡ out.old.items ++ headers_text pages machine) }
{
    out.extend_from_slice(&header_bytes(&header(pages, machine)))?;
    push_loads(out, pages, machine)?;
    push_zeros(out, machine.granule() - HEADERS)
}

#[tactic(auto, unfolding(crate::specs::TrialInputs::trial_header))]
fn header(pages: u32, machine: Machine) -> Header
    requires { pages ≤ 16384 }
    ensures { result ≡ trial_header pages machine }
{
    Header {
        ident: [0x7f, b'E', b'L', b'F', 2, 1, 1, 0, 0, 0, 0, 0, 0, 0, 0, 0],
        e_type: ET_EXEC,
        e_machine: machine.number(),
        e_version: EV_CURRENT as u32,
        e_entry: FIRST,
        e_phoff: EHDR_SIZE as u64,
        e_shoff: places_of(pages, machine).tables_place + 64,
        e_flags: 0,
        e_ehsize: EHDR_SIZE as u16,
        e_phentsize: PHDR_SIZE as u16,
        e_phnum: 3,
        e_shentsize: SHDR_SIZE as u16,
        e_shnum: 3,
        e_shstrndx: 0,
    }
}

#[tactic(auto, using(std::proofs::Common::append_assoc), unfolding(ap_elf::specs::Written::table_bytes))]
fn push_loads(out: &mut Vec<u8>, pages: u32, machine: Machine) -> Result<(), AllocError>
    requires { pages ≤ 16384 }
    ensures { OnOk result
        (out.new.items ≡ out.old.items
        ++ written.table_bytes (trial_loads (granule_of machine) pages)) }
{
    let [first, second, third] = loads_of(pages, machine);
    out.extend_from_slice(&entry_bytes(&first))?;
    out.extend_from_slice(&entry_bytes(&second))?;
    out.extend_from_slice(&entry_bytes(&third))
}

/// The program headers of an input, which are loads.
pub(crate) fn loads_of(pages: u32, machine: Machine) -> [Entry; 3]
    requires { pages ≤ 16384 }
    ensures { result ≡ trial_loads (granule_of machine) pages }
{
    let p = places_of(pages, machine);
    let g = machine.granule();
    [
        load(g, g, FIRST, (p.part_length, p.part_length), PF_R + PF_X),
        load(g, p.data_place, p.data_address, (4096, 9096), PF_R + PF_W),
        load(g, 0, p.rest_address, (0, 10000), PF_R + PF_W),
    ]
}

#[tactic(auto, unfolding(crate::specs::TrialInputs::trial_load))]
fn load(align: u64, offset: u64, vaddr: u64, sizes: (u64, u64), flags: u32) -> Entry
    ensures { result ≡ trial_load align offset vaddr sizes.0 sizes.1 flags }
{
    Entry {
        kind: PT_LOAD,
        flags,
        offset,
        vaddr,
        paddr: 0,
        filesz: sizes.0,
        memsz: sizes.1,
        align,
    }
}
