// What of a linked file is for Windows.
ghost use Rattle.std.specs.Prelude.{◌≡◌, ◌≤◌, ◌<◌, ◌+◌, ◌^◌, length, All, IfSome};
ghost use Rattle.std.specs.Option.{option_map};
ghost use Rattle.ap_claims.specs.Lists.{Makes};
ghost use Rattle.ap_check.specs.Inputs.{Meets};
ghost use Rattle.ap_check.specs.Windows.{IsReady};
ghost use Rattle.ap_layout.specs.declared.sizes.TheConstants.{FILE_TOP};
ghost use Rattle.ap_layout.specs.Jobs.{job_inputs, placed_of, IsKnown};
ghost use Rattle.ap_layout.specs.Positions.{Fits};
ghost use Rattle.ap_pe.specs.Claims.{pe_claims};
ghost use Rattle.ap_pe.specs.Linked as spec;
ghost use Rattle.ap_pe.specs.Linked.{program_of, directory_of, table_directory, slots_directory, headers_of, claims_of, windows_claims};
ghost use Rattle.ap_pe.specs.Written as written;

use crate::constants::MOST_HEADERS;
use crate::headers::pe_headers;
use crate::program::{Directory, Program};
use crate::write::write_headers;
use ap_check::{ImportTable, Input, Job, Machine, Systems, table_of};
use ap_claims::{Block, Clash};
use ap_layout::{Area, Layout, Placement, placed_for, stack_size};
use arrayvec::ArrayVec;
use bitflags::Flags;

/// Claims the DOS fields for `Owner::Dos`, and then the PE headers for `Owner::Pe`, where Windows was chosen and the parts of the
/// linked file have these places. Nothing is claimed where it wasn't.
///
/// `Clash` comes exactly where a byte of them is held with another value, and is the first such byte in this order. Then only
/// claims in front of its own have been made.
pub fn write_pe(block: &mut Block, job: &Job<'_>, lay: &Layout) -> Result<(), Clash>
    requires { Fits job.now.options (job_inputs job.now) lay.now }
    ensures { Makes block.old block.new
        (windows_claims job.now.options (job_inputs job.now) lay.now) result }
{
    match windows_input(job, lay) {
        None => Ok(()),
        Some(p) => write_input(block, p.input, p.areas, job.base),
    }
}

/// The PE headers, as they stand in the here-document's body; nothing where Windows wasn't chosen.
pub fn pe_text(job: &Job<'_>, lay: &Layout) -> ArrayVec<u8, MOST_HEADERS>
    requires { Fits job.now.options (job_inputs job.now) lay.now }
    ensures { result.items ≡ spec.pe_text job.now.options (job_inputs job.now) lay.now }
{
    match windows_input(job, lay) {
        None => ArrayVec::new(),
        Some(p) => input_text(p.input, p.areas, job.base),
    }
}

// The input for x86-64 with its places, where Windows was chosen.
fn windows_input<'i, 'l>(job: &Job<'i>, lay: &'l Layout) -> Option<Placement<'i, 'l>>
    requires { Fits job.now.options (job_inputs job.now) lay.now }
    ensures text { headers_of (option_map placed_of result)
        ≡ spec.pe_text job.now.options (job_inputs job.now) lay.now }
    ensures claims { claims_of (option_map placed_of result)
        ≡ windows_claims job.now.options (job_inputs job.now) lay.now }
    ensures known { IfSome result (λ p. IsKnown (placed_of p)) }
    ensures ready { IfSome result (λ p. IsReady job.now.base p.input.now) }
{
    if job.options.systems.intersects(Systems::WINDOWS) {
        placed_for(job, lay, Machine::X64)
    } else {
        None
    }
}

// Claims what is for Windows of an input whose loads have these areas.
fn write_input(block: &mut Block, e: &Input, areas: &[Area], base: u64) -> Result<(), Clash>
    requires ready { IsReady base e.now }
    requires same { length areas.now ≡ length e.now.loads }
    requires places { All (λ x. x.file < FILE_TOP) areas.now }
    ensures { Makes block.old block.new (pe_claims (program_of e.now) e.now.loads areas.now) result }
{
    let program = program(e, base);
    write_headers(block, &program, &e.loads, areas)
}

// The PE headers of an input whose loads have these areas.
fn input_text(e: &Input, areas: &[Area], base: u64) -> ArrayVec<u8, MOST_HEADERS>
    requires ready { IsReady base e.now }
    requires same { length areas.now ≡ length e.now.loads }
    requires places { All (λ x. x.file < FILE_TOP) areas.now }
    ensures { result.items ≡ written.pe_headers (program_of e.now) e.now.loads areas.now }
{
    let program = program(e, base);
    pe_headers(&program, &e.loads, areas)
}

// What the headers say of an input beside its loads.
fn program(e: &Input, base: u64) -> Program
    requires ready { IsReady base e.now }
    ensures program { result ≡ program_of e.now }
    ensures meets { Meets e.now }
{
    let imports = table_of(&e.symbols);
    Program {
        base,
        entry: e.symbols.pe_entry.unwrap_or(0),
        stack: stack_size(&e.stack),
        imports: table(base, &imports),
        slots: slots(base, &imports),
    }
}

// The directory of the import table.
fn table(base: u64, imports: &Option<ImportTable>) -> Directory
    requires { IfSome imports.now (λ t. spec.IsRange base t.idata t.idata_end) }
    ensures { result ≡ table_directory base imports.now }
{
    match imports {
        None => Directory::default(),
        Some(t) => directory(base, t.idata, t.idata_end),
    }
}

// The directory of the import address tables.
fn slots(base: u64, imports: &Option<ImportTable>) -> Directory
    requires { IfSome imports.now (λ t. spec.IsRange base t.iat t.iat_end) }
    ensures { result ≡ slots_directory base imports.now }
{
    match imports {
        None => Directory::default(),
        Some(t) => directory(base, t.iat, t.iat_end),
    }
}

fn directory(base: u64, from: u64, to: u64) -> Directory
    requires { spec.IsRange base from to }
    ensures { result ≡ directory_of base from to }
{
    Directory {
        rva: (from - base) as u32,
        length: (to - from) as u32,
    }
}
