// Files that are shown.
ghost use Rattle.ap_elf.specs.Machines.{IsPage};
ghost use Rattle.ap_run.specs.Shows.{Answers, Ends, Makes, Printed, ShowsBy};

use crate::end::Cause;
use crate::format::Format;
use crate::listing::listing_of;
use crate::planned::plan_of;
use ap_files::{Files, Sink, print};
use ap_image::Plan;
use ap_texts::plan_text;
use std::alloc::Global;

/// Prints the plan of a file by a format on `out`, with its imports where the format has them, and answers how that ended.
pub fn show<F: Files, O: Sink>(
    alloc: Global,
    files: &mut F,
    out: &mut O,
    format: &Format,
    name: &str,
) -> Cause
    requires { IsPage format.now.machine format.now.page }
    ensures { Ends (F.state files.old) (F.state files.new) (O.state out.old) (O.state out.new)
        (ShowsBy format.now) name.now result }
{
    match text_of(alloc, files, format, name) {
        Ok(text) => print_text(out, &text),
        Err(cause) => cause,
    }
}

pub fn print_text<O: Sink>(out: &mut O, text: &[u8]) -> Cause
    ensures { Printed (O.state out.old) (O.state out.new) text.now result }
{
    match print(out, text) {
        Ok(()) => Cause::Done,
        Err(_) => Cause::OutFault,
    }
}

// The text of a file by a format, or why there is none.
fn text_of<F: Files>(
    alloc: Global,
    files: &mut F,
    format: &Format,
    name: &str,
) -> Result<Vec<u8>, Cause>
    requires { IsPage format.now.machine format.now.page }
    ensures { Answers (F.state files.old) (F.state files.new) (ShowsBy format.now) name.now result }
{
    if format.imports {
        return listing_of(alloc, files, name);
    }
    match plan_of(files, format, name) {
        Ok(planned) => made_of(alloc, &planned.plan),
        Err(cause) => Err(cause),
    }
}

fn made_of(alloc: Global, plan: &Plan) -> Result<Vec<u8>, Cause>
    ensures { Makes plan.now result }
{
    plan_text(alloc, plan).map_err(|_| Cause::NoMemory)
}
