// Trials of the linker.
ghost use Rattle.std.specs.Prelude.{◌≤◌};
ghost use Rattle.ap_run.specs.Trials.{TrialEnds};

use crate::end::Cause;
use crate::show::print_text;
use ap_files::Sink;
use std::alloc::Global;

/// Prints the summary of a trial on `out`, and answers how that ended. No file is read, and none is made.
pub fn trial<O: Sink>(alloc: Global, out: &mut O, number: u64, pages: u32) -> Cause
    requires least { 1 ≤ pages }
    requires most { pages ≤ 16384 }
    ensures { TrialEnds (O.state out.old) (O.state out.new) number pages result }
{
    match ap_trial::trial(alloc, number, pages) {
        Ok(text) => print_text(out, &text),
        Err(_) => Cause::NoMemory,
    }
}
