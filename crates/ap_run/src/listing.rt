// What PE32+ files import, behind their plans.
ghost use Rattle.std.specs.Prelude.{◌≡◌, ◌++◌, IfOk};
ghost use Rattle.ap_run.specs.Shows.{Answers, Lists};
ghost use Rattle.ap_run.specs.Whole.{MakesOf, Sized};
ghost use Rattle.ap_run.specs.ImportTexts.{imports_text};
ghost use Rattle.ap_texts.specs.PlanTexts as spec;

use crate::end::{Cause, ReadingFault};
use crate::fetch::fetch;
use crate::import_text::push_imports;
use ap_files::Files;
use ap_image::{Import, Plan, Reading};
use ap_pemap::{ImportFault, PeReading, imports};
use ap_texts::plan_text;
use std::alloc::{AllocError, Global};

/// The text of the plan and the imports of a file, or why there is none. The file is read whole.
pub fn listing_of<F: Files>(alloc: Global, files: &mut F, name: &str) -> Result<Vec<u8>, Cause>
    ensures { Answers (F.state files.old) (F.state files.new) (Sized Lists) name.now result }
{
    match fetch(alloc, files, name) {
        Ok(file) => listed(alloc, &file),
        Err(cause) => Err(cause),
    }
}

// That of a file's bytes.
fn listed(alloc: Global, file: &[u8]) -> Result<Vec<u8>, Cause>
    ensures { MakesOf Lists file.now result }
{
    let plan = match PeReading.read(file) {
        Ok(plan) => plan,
        Err(fault) => return Err(Cause::Unread(ReadingFault::Pe(fault))),
    };
    let found = match imports(alloc, file, &plan) {
        Ok(found) => found,
        Err(ImportFault::Walk(fault)) => return Err(Cause::Unread(ReadingFault::Walk(fault))),
        Err(ImportFault::NoMemory) => return Err(Cause::NoMemory),
    };
    match text_with(alloc, &plan, &found) {
        Ok(text) => Ok(text),
        Err(_) => Err(Cause::NoMemory),
    }
}

fn text_with(alloc: Global, plan: &Plan, found: &[Import]) -> Result<Vec<u8>, AllocError>
    ensures { IfOk result (λ text. text.items ≡ spec.plan_text plan.now ++ imports_text found.now) }
{
    let mut text = plan_text(alloc, plan)?;
    push_imports(&mut text, found)?;
    Ok(text)
}
