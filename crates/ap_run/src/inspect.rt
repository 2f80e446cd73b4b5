// Files that are reported on.
ghost use Rattle.ap_run.specs.Inspected.{Inspected, ReportsTo};
ghost use Rattle.ap_run.specs.Shows.{Answers, Ends};
ghost use Rattle.ap_run.specs.Whole.{MakesOf};

use crate::end::Cause;
use crate::fetch::fetch;
use crate::show::print_text;
use ap_files::{Files, Sink};
use ap_inspect::report;
use std::alloc::Global;

/// Prints the report on a file on `out`, and answers how that ended.
pub fn inspect<F: Files, O: Sink>(alloc: Global, files: &mut F, out: &mut O, name: &str) -> Cause
    ensures { Ends (F.state files.old) (F.state files.new) (O.state out.old) (O.state out.new)
        Inspected name.now result }
{
    match text_of(alloc, files, name) {
        Ok(text) => print_text(out, &text),
        Err(cause) => cause,
    }
}

// The report on a file, or why there is none. The file is read whole.
fn text_of<F: Files>(alloc: Global, files: &mut F, name: &str) -> Result<Vec<u8>, Cause>
    ensures { Answers (F.state files.old) (F.state files.new) Inspected name.now result }
{
    match fetch(alloc, files, name) {
        Ok(file) => told(alloc, &file),
        Err(cause) => Err(cause),
    }
}

// That of a file's bytes.
fn told(alloc: Global, file: &[u8]) -> Result<Vec<u8>, Cause>
    ensures { MakesOf ReportsTo file.now result }
{
    match report(alloc, file) {
        Ok(text) => Ok(text),
        Err(_) => Err(Cause::NoMemory),
    }
}
