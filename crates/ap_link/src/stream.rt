// The linker over files.
ghost use Rattle.std.specs.Prelude.{◌≡◌, ◌≢◌, IfSome, Some, None, option_copied};
ghost use Rattle.ap_claims.specs.Blocks.{free_block};
ghost use Rattle.ap_check.specs.Options.{AreTaken};
ghost use Rattle.ap_fields.specs.FirstFault.{first_fault};
ghost use Rattle.ap_files.specs.Files.{ForFile};
ghost use Rattle.ap_elf.specs.declared.machine.Machine.TheVariants.{X64};
ghost use Rattle.ap_elf.specs.Machines.{is_machine};
ghost use Rattle.ap_check.specs.Both.{pair_rules};
ghost use Rattle.ap_link.specs.FileAnswers.{LinksFiles};
ghost use Rattle.ap_link.specs.Sources as spec;
ghost use Rattle.ap_link.specs.Lent.{LendsToFiles};
ghost use Rattle.ap_link.specs.Sources.{IsSource, second_name, second_taken};

use crate::end::{LinkEnd, end_of_check, end_of_fault};
use crate::fill::fill;
use crate::source::{Source, Sources};
use crate::twins::find_twins;
use crate::write::write_linked;
use ap_check::{Input, Job, Machine, Options, check_all_in, check_input_in};
use ap_claims::Block;
use ap_files::Files;
use ap_layout::place;

/// Links the file `first`, and the file `second` where there is one, into the file `out`, and answers the size of the linked
/// file in bytes. The options name no magic for debuggers together with Windows.
///
/// Nothing is started before every rule holds. Then the inputs' bytes are read and written in pieces, so that inputs of any
/// size take no memory of the heap.
///
/// - `Rule`: the inputs break a rule, and this is the first one, all of input 1 before those of input 2; no file changed.
/// - `ReadFault`: an input isn't there, or a read failed; no file changed, or `out` is unfinished with a front of the linked file.
/// - `WriteFault`: a write failed; no file changed, or `out` is unfinished with a front of the linked file.
///
/// The block, which is free, holds the first bytes of the linked file afterwards, each with the owners that claim it. Where the
/// inputs break a rule it stays as it was, and after a failure it is either.
pub fn link_stream<F: Files>(
    first: &str,
    second: Option<&str>,
    options: &Options,
    out: &str,
    files: &mut F,
    block: &mut Block,
) -> Result<u64, LinkEnd>
    requires first { first.now ≢ out.now }
    requires second { IfSome (option_copied second) (λ n. n ≢ out.now) }
    requires options { AreTaken options.now }
    requires free { block.old ≡ free_block }
    ensures block { LendsToFiles options.now (F.state files.old).kept block.old block.new first.now
        (option_copied second.entry) result }
    ensures files { LinksFiles options.now (F.state files.old) (F.state files.new) first.now
        (option_copied second.entry) out.now result }
{
    let input = match check_input_in(files, first, 1) {
        Ok(input) => input,
        Err(end) => return Err(end_of_check(end)),
    };
    let source = Source {
        name: first,
        input: &input,
    };
    match second {
        None => link_first(files, &source, options, out, block),
        Some(name) => link_second(files, &source, name, options, out, block),
    }
}

// Links the first input, which was taken, alone.
fn link_first<F: Files>(
    files: &mut F,
    first: &Source<'_>,
    options: &Options,
    out: &str,
    block: &mut Block,
) -> Result<u64, LinkEnd>
    requires first { IsSource (F.state files.old).kept 1 first.now }
    requires apart { first.now.name.now ≢ out.now }
    requires options { AreTaken options.now }
    requires free { block.old ≡ free_block }
    ensures block { LendsToFiles options.now (F.state files.old).kept block.old block.new
        first.now.name.now None result }
    ensures files { LinksFiles options.now (F.state files.old) (F.state files.new)
        first.now.name.now None out.now result }
{
    let sources = Sources {
        first: *first,
        second: None,
    };
    link_sources(files, &sources, options, out, block)
}

// Links the first input, which was taken, and the file `name`.
fn link_second<F: Files>(
    files: &mut F,
    first: &Source<'_>,
    name: &str,
    options: &Options,
    out: &str,
    block: &mut Block,
) -> Result<u64, LinkEnd>
    requires first { IsSource (F.state files.old).kept 1 first.now }
    requires apart { first.now.name.now ≢ out.now }
    requires others { name.now ≢ out.now }
    requires options { AreTaken options.now }
    requires free { block.old ≡ free_block }
    ensures block { LendsToFiles options.now (F.state files.old).kept block.old block.new
        first.now.name.now (Some name.now) result }
    ensures files { LinksFiles options.now (F.state files.old) (F.state files.new)
        first.now.name.now (Some name.now) out.now result }
{
    let input = match check_input_in(files, name, 2) {
        Ok(input) => input,
        Err(end) => return Err(end_of_check(end)),
    };
    let second = Source {
        name,
        input: &input,
    };
    let sources = Sources {
        first: *first,
        second: Some(second),
    };
    link_sources(files, &sources, options, out, block)
}

// Links inputs that were taken.
fn link_sources<F: Files>(
    files: &mut F,
    sources: &Sources<'_>,
    options: &Options,
    out: &str,
    block: &mut Block,
) -> Result<u64, LinkEnd>
    requires first { IsSource (F.state files.old).kept 1 sources.now.first }
    requires second { IfSome sources.now.second (λ s. IsSource (F.state files.old).kept 2 s) }
    requires apart { sources.now.first.name.now ≢ out.now }
    requires others { IfSome sources.now.second (λ s. s.name.now ≢ out.now) }
    requires options { AreTaken options.now }
    requires free { block.old ≡ free_block }
    ensures block { LendsToFiles options.now (F.state files.old).kept block.old block.new
        sources.now.first.name.now (second_name sources.now.second) result }
    ensures files { LinksFiles options.now (F.state files.old) (F.state files.new)
        sources.now.first.name.now (second_name sources.now.second) out.now result }
{
    let second = second_input(sources);
    match check_all_in(
        sources.first.input,
        second,
        options,
        files,
        x64_name(sources),
    ) {
        Ok(job) => link_job(files, sources, &job, out, block),
        Err(end) => Err(end_of_check(end)),
    }
}

// Links the inputs of a job.
fn link_job<F: Files>(
    files: &mut F,
    sources: &Sources<'_>,
    job: &Job<'_>,
    out: &str,
    block: &mut Block,
) -> Result<u64, LinkEnd>
    requires first { IsSource (F.state files.old).kept 1 sources.now.first }
    requires second { IfSome sources.now.second (λ s. IsSource (F.state files.old).kept 2 s) }
    requires apart { sources.now.first.name.now ≢ out.now }
    requires others { IfSome sources.now.second (λ s. s.name.now ≢ out.now) }
    requires input { job.now.first.now ≡ sources.now.first.input.now }
    requires other { option_copied job.now.second ≡ second_taken sources.now.second }
    requires rules { ForFile (F.state files.old).kept
        (spec.x64_name sources.now.first sources.now.second)
        (λ b. first_fault (pair_rules job.now.options sources.now.first.input.now
        (second_taken sources.now.second) b) ≡ None) }
    requires free { block.old ≡ free_block }
    ensures block { LendsToFiles job.now.options (F.state files.old).kept block.old block.new
        sources.now.first.name.now (second_name sources.now.second) result }
    ensures files { LinksFiles job.now.options (F.state files.old) (F.state files.new)
        sources.now.first.name.now (second_name sources.now.second) out.now result }
{
    let twins = match find_twins(files, sources) {
        Ok(twins) => twins,
        Err(_) => return Err(LinkEnd::ReadFault),
    };
    let lay = place(job, &twins);
    fill(block, job, &lay);
    match write_linked(files, sources, &lay, block.bytes(), out) {
        Ok(()) => Ok(lay.total),
        Err(fault) => Err(end_of_fault(fault)),
    }
}

// The name of the file of the input for x86-64; that of either where there is none.
fn x64_name<'a>(sources: &Sources<'a>) -> &'a str
    ensures { result.now ≡ spec.x64_name sources.now.first sources.now.second }
{
    match sources.second {
        Some(second) if !is_x64(sources.first.input) => second.name,
        _ => sources.first.name,
    }
}

fn is_x64(input: &Input) -> bool
    ensures { result ≡ is_machine X64 input.now.machine }
{
    input.machine == Machine::X64
}

fn second_input<'a>(sources: &Sources<'a>) -> Option<&'a Input>
    ensures { option_copied result ≡ second_taken sources.now.second }
{
    match sources.second {
        Some(second) => Some(second.input),
        None => None,
    }
}
