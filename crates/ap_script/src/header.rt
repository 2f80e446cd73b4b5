// The embedded header of an input.
ghost use Rattle.std.specs.Prelude.{◌≡◌, ◌<◌, length};
ghost use Rattle.ap_layout.specs.Positions.{Fits, placed_inputs};
ghost use Rattle.ap_layout.specs.Jobs.{job_inputs};
ghost use Rattle.ap_elf.specs.Machines.{is_machine};
ghost use Rattle.ap_script.specs.Script as script;
ghost use Rattle.ap_script.specs.Tables as spec;
ghost use Rattle.ap_script.specs.Tables.{embedded_bytes, embedded_at};

use ap_check::{Input, Job, Machine};
use ap_elf::constants::{EHDR_SIZE, ET_EXEC, EV_CURRENT, PHDR_SIZE};
use ap_elf::{Header, header_bytes};
use ap_layout::{Layout, entry_count, input_count, placed_input};

/// The embedded header of input `i`, counted from 0, where the parts of the linked file have these places: the ELF header of
/// an executable file whose program header table is the one that stands in the linked file for the input.
pub fn elf_header(job: &Job<'_>, lay: &Layout, i: usize) -> [u8; EHDR_SIZE]
    requires input { i < length (job_inputs job.now) }
    requires fits { Fits job.now.options (job_inputs job.now) lay.now }
    ensures { result ≡ embedded_at (placed_inputs (job_inputs job.now) lay.now) i }
{
    let p = placed_input(job, lay, i);
    input_header(p.input, p.table)
}

/// The embedded header of the first input for a machine.
pub(crate) fn machine_header(
    job: &Job<'_>,
    lay: &Layout,
    machine: Machine,
) -> Option<[u8; EHDR_SIZE]>
    requires { Fits job.now.options (job_inputs job.now) lay.now }
    ensures { result ≡ script.header_for machine (placed_inputs (job_inputs job.now) lay.now) }
{
    for i in 0..input_count(job) {
        let p = placed_input(job, lay, i);
        if is_for(p.input, machine) {
            return Some(input_header(p.input, p.table));
        }
    }
    None
}

fn is_for(input: &Input, machine: Machine) -> bool
    ensures { result ≡ is_machine machine input.now.machine }
{
    input.machine == machine
}

fn input_header(input: &Input, at: u32) -> [u8; EHDR_SIZE]
    ensures { result ≡ embedded_bytes input.now at }
{
    header_bytes(&embedded_header(input, at))
}

#[tactic(auto, unfolding(crate::specs::Tables::embedded_header))]
fn embedded_header(input: &Input, at: u32) -> Header
    ensures { result ≡ spec.embedded_header input.now at }
{
    Header {
        ident: *b"\x7fELF\x02\x01\x01\x09\0\0\0\0\0\0\0\0",
        e_type: ET_EXEC,
        e_machine: input.machine.number(),
        e_version: EV_CURRENT as u32,
        e_entry: input.entry,
        e_phoff: u64::from(at),
        e_ehsize: EHDR_SIZE as u16,
        e_phentsize: PHDR_SIZE as u16,
        e_phnum: entry_count(input),
        ..Header::default()
    }
}
