// Files that are shown and dumped.
ghost use Rattle.std.specs.Prelude.{◌≡◌, ◌≤◌, ◌^◌, length, IfOk};
ghost use Rattle.ap_elf.specs.Machines.{IsPage};
ghost use Rattle.ap_image.specs.Plans.{AreBacked};
ghost use Rattle.ap_run.specs.Dumps.{ArePartsOf, DumpEnds, MakesParts};

use crate::end::{Cause, ReadingFault};
use crate::fetch::fetch;
use crate::format::Format;
use crate::planned::plan_over;
use crate::show::print_text;
use ap_files::{Files, NoMemory, Sink};
use ap_image::{Image, Plan, address_count, image_front, write_image};
use ap_texts::plan_text;
use std::alloc::Global;

/// The most addresses of a plan whose image file is made: 2^30.
const WIDEST: u64 = 1 << 30;

/// What is made of a file.
#[derive(Drop)]
pub struct Parts<'f> {
    /// Its plan, over its bytes.
    pub image: Image<'f>,
    /// What stands before the bytes of its image file.
    pub front: Vec<u8>,
    /// The text of its plan.
    pub text: Vec<u8>,
}

/// Writes the image file of a file's plan by a format, prints the plan on `out`, and answers how that ended. The file is read
/// whole, once, before anything is written; its image file is written piece by piece.
pub fn dump<F: Files, O: Sink>(
    alloc: Global,
    files: &mut F,
    out: &mut O,
    format: &Format,
    name: &str,
    image: &str,
) -> Cause
    requires { IsPage format.now.machine format.now.page }
    ensures { DumpEnds (F.state files.old) (F.state files.new) (O.state out.old) (O.state out.new)
        format.now name.now image.now result }
{
    let file = match fetch(alloc, files, name) {
        Ok(file) => file,
        Err(cause) => return cause,
    };
    let parts = match parts_of(alloc, format, &file) {
        Ok(parts) => parts,
        Err(cause) => return cause,
    };
    match write_image(files, image, &parts.front, &parts.image) {
        Ok(()) => print_text(out, &parts.text),
        Err(_) => Cause::WriteFault,
    }
}

// What is made of a file's bytes, or why nothing is.
fn parts_of<'f>(alloc: Global, format: &Format, file: &'f [u8]) -> Result<Parts<'f>, Cause>
    requires { IsPage format.now.machine format.now.page }
    ensures { MakesParts format.now file.now result }
{
    let plan = match plan_over(format, file) {
        Ok(plan) => plan,
        Err(fault) => return Err(Cause::Unread(fault)),
    };
    let total = address_count(&plan);
    if total > WIDEST {
        return Err(Cause::Unread(ReadingFault::Wide { total }));
    }
    match parts_with(alloc, plan, file) {
        Ok(parts) => Ok(parts),
        Err(_) => Err(Cause::NoMemory),
    }
}

fn parts_with<'f>(alloc: Global, plan: Plan, file: &'f [u8]) -> Result<Parts<'f>, NoMemory>
    requires { AreBacked plan.regions (length file.now) }
    ensures { IfOk result
        (λ parts. ArePartsOf (record { plan = plan; file = file.now }) parts) }
{
    let Ok(front) = image_front(alloc, &plan) else {
        return Err(NoMemory);
    };
    match plan_text(alloc, &plan) {
        Ok(text) => Ok(Parts {
            image: Image::new(plan, file),
            front,
            text,
        }),
        Err(_) => Err(NoMemory),
    }
}
