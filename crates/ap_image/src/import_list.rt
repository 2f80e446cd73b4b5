// The list of what a program imports.
ghost use Rattle.std.specs.Prelude.{◌≡◌, ◌≤◌, ◌^◌, ◌++◌, ◌∷◌, [], OnOk, Ok, Err};
ghost use Rattle.ap_image.specs.ImportWalk.{name_at};
ghost use Rattle.ap_image.specs.WalkSteps.{left_of, IsNear};
ghost use Rattle.ap_image.specs.Imports.{Gathers, ListsImports, wanted_of, fault_of};

use crate::by_address::Cells;
use crate::bytes::Bytes;
use crate::import_item::{Import, ImportEnd, Wanted};
use crate::import_place::MOST_NAME;
use crate::import_read::byte_at;
use crate::import_step::{Step, WalkCause, WalkEnd, WalkFault, What};
use crate::walk::Walk;
use std::alloc::{AllocError, Global};

/// What a program imports, by what is left of a walk of its import directory: each word with its names' bytes, in their order.
///
/// `Fault`: the walk ends in it. `ReadFault`: a byte could not be read. `NoMemory`: no memory is left for the list.
pub fn list_imports<C: Cells>(
    alloc: Global,
    mut walk: Walk,
    cells: &mut C,
) -> Result<Vec<Import>, ImportEnd>
    ensures { ListsImports (C.state cells.old) (C.state cells.new) (λ memory. left_of memory walk)
        result }
{
    let mut dll = Bytes::new(Vec::new(alloc));
    let mut imports = Vec::new(alloc);
    loop {
        match walk.step(cells) {
            Ok(Step::Done) => return Ok(imports),
            Ok(Step::Entry { dll: at }) => match read_name(alloc, cells, at) {
                Ok(name) => dll = name,
                Err(end) => return Err(end),
            },
            Ok(Step::Word { what, slot }) => {
                if let Err(end) = push_word(alloc, cells, &mut imports, &dll, what, slot) {
                    return Err(end);
                }
            }
            Err(WalkEnd::Fault(fault)) => return Err(ImportEnd::Fault(fault)),
            Err(WalkEnd::ReadFault) => return Err(ImportEnd::ReadFault),
        }
    }
}

// Appends what a word imports.
fn push_word<C: Cells>(
    alloc: Global,
    cells: &mut C,
    imports: &mut Vec<Import>,
    dll: &Bytes,
    what: What,
    slot: u64,
) -> Result<(), ImportEnd>
    requires { IsNear (Step.Word what slot) }
    ensures { Gathers (C.state cells.old) (C.state cells.new)
        (λ memory done. imports.new.items ≡ imports.old.items ++
        record { dll = dll.now; what = wanted_of memory what; slot = slot } ∷ [])
        (λ memory f. fault_of memory what f) result }
{
    let what = match read_wanted(alloc, cells, what) {
        Ok(what) => what,
        Err(end) => return Err(end),
    };
    match push_import(alloc, imports, dll, what, slot) {
        Ok(()) => Ok(()),
        Err(_) => Err(ImportEnd::NoMemory),
    }
}

fn push_import(
    alloc: Global,
    imports: &mut Vec<Import>,
    dll: &Bytes,
    what: Wanted,
    slot: u64,
) -> Result<(), AllocError>
    ensures { OnOk result
        (imports.new.items ≡ imports.old.items ++
        record { dll = dll.now; what = what; slot = slot } ∷ []) }
{
    let dll = Bytes::new(Vec::from_slice(alloc, dll.as_slice())?);
    imports.push(Import { dll, what, slot })?;
    Ok(())
}

// What a word imports, with its name.
fn read_wanted<C: Cells>(alloc: Global, cells: &mut C, what: What) -> Result<Wanted, ImportEnd>
    requires { IsNear (Step.Word what 0) }
    ensures { Gathers (C.state cells.old) (C.state cells.new)
        (λ memory wanted. wanted ≡ wanted_of memory what) (λ memory f. fault_of memory what f) result }
{
    match what {
        What::Name { at } => match read_name(alloc, cells, at) {
            Ok(name) => Ok(Wanted::Name { name }),
            Err(end) => Err(end),
        },
        What::Ordinal { number } => Ok(Wanted::Ordinal { number }),
    }
}

// The name at an address, up to its first NUL.
fn read_name<C: Cells>(alloc: Global, cells: &mut C, start: u64) -> Result<Bytes, ImportEnd>
    requires { start ≤ 2 ^ 62 }
    ensures { Gathers (C.state cells.old) (C.state cells.new)
        (λ memory name. name_at memory start ≡ Ok name) (λ memory f. name_at memory start ≡ Err f) result }
{
    let mut name = Vec::new(alloc);
    for i in 0..MOST_NAME + 1 {
        match byte_at(cells, start + i) {
            Ok(0) => return Ok(Bytes::new(name)),
            Ok(byte) => {
                if let Err(_) = name.push(byte) {
                    return Err(ImportEnd::NoMemory);
                }
            }
            Err(WalkEnd::Fault(fault)) => return Err(ImportEnd::Fault(fault)),
            Err(WalkEnd::ReadFault) => return Err(ImportEnd::ReadFault),
        }
    }
    Err(ImportEnd::Fault(WalkFault {
        cause: WalkCause::Long,
        at: start,
    }))
}
