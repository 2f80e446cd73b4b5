// Which loads of two inputs have the same content.
ghost use Rattle.std.specs.Prelude.{◌≡◌, ◌<◌, ◌≤◌, ◌+◌, ◌^◌, All, IfSome, length};
ghost use Rattle.ap_fields.specs.Granules.{IsGranule};
ghost use Rattle.ap_fields.specs.declared.sizes.TheConstants.{MOST_LOADS};
ghost use Rattle.ap_elf.specs.Machines.{granule_of};
ghost use Rattle.ap_check.specs.Inputs.{Meets};
ghost use Rattle.ap_link.specs.Sources.{FindsTwins, IsSource};
ghost use Rattle.ap_link.specs.Compared.{AreInFile, FindsMask, FindsMasks, IsBacked};

use crate::content::same_content;
use crate::source::{Source, Sources};
use ap_check::{Input, Load};
use ap_fields::MOST_LOADS;
use ap_files::{Failed, Files};
use ap_layout::Twins;
use arrayvec::ArrayVec;

/// The loads of an input, the granule of its machine, and the name of its file.
#[derive(Clone, Copy)]
pub struct Side<'a> {
    pub name: &'a str,
    pub loads: &'a [Load],
    pub granule: u64,
}

/// Which loads of the first input have the content of a load of the second, by the bytes of their files.
pub fn find_twins<F: Files>(files: &mut F, sources: &Sources<'_>) -> Result<Twins, Failed>
    requires first { IsSource (F.state files.old).kept 1 sources.now.first }
    requires second { IfSome sources.now.second (λ s. IsSource (F.state files.old).kept 2 s) }
    ensures { FindsTwins (F.state files.old) (F.state files.new) sources.now.first sources.now.second
        result }
{
    let masks = match sources.second {
        None => ArrayVec::new(),
        Some(second) => {
            let one = side_of(&sources.first, sources.first.input);
            let other = side_of(&second, second.input);
            match find_masks(files, &one, &other) {
                Ok(masks) => masks,
                Err(failed) => return Err(failed),
            }
        }
    };
    Ok(Twins { masks })
}

// What is compared of an input.
fn side_of<'a>(source: &Source<'a>, input: &'a Input) -> Side<'a>
    ensures meets { Meets input.now }
    ensures name { result.name.now ≡ source.now.name.now }
    ensures loads { result.loads.now ≡ input.now.loads }
    ensures granule { result.granule ≡ granule_of input.now.machine }
{
    Side {
        name: source.name,
        loads: &input.loads,
        granule: input.machine.granule(),
    }
}

// The masks of the loads of the other side.
fn find_masks<F: Files>(
    files: &mut F,
    one: &Side<'_>,
    other: &Side<'_>,
) -> Result<ArrayVec<u32, MOST_LOADS>, Failed>
    requires granule { IsGranule one.now.granule }
    requires others { IsGranule other.now.granule }
    requires few { length one.now.loads.now ≤ MOST_LOADS }
    requires fewer { length other.now.loads.now ≤ MOST_LOADS }
    requires ours { AreInFile (F.state files.old).kept one.now.name.now one.now.loads.now }
    requires theirs { AreInFile (F.state files.old).kept other.now.name.now other.now.loads.now }
    ensures { FindsMasks (F.state files.old) (F.state files.new) one.now other.now result }
{
    let mut masks = ArrayVec::new();
    for load in other.loads {
        match find_mask(files, one, other.name, other.granule, load) {
            Ok(mask) => masks.push(mask),
            Err(failed) => return Err(failed),
        }
    }
    Ok(masks)
}

// The mask of a load of the other side.
fn find_mask<F: Files>(
    files: &mut F,
    one: &Side<'_>,
    name: &str,
    granule: u64,
    load: &Load,
) -> Result<u32, Failed>
    requires granule { IsGranule one.now.granule }
    requires others { IsGranule granule }
    requires few { length one.now.loads.now ≤ MOST_LOADS }
    requires ours { AreInFile (F.state files.old).kept one.now.name.now one.now.loads.now }
    requires theirs { IsBacked (F.state files.old).kept name.now load.now }
    ensures { FindsMask (F.state files.old) (F.state files.new) one.now name.now granule load.now
        result }
{
    let mut mask = 0;
    let mut left = one.loads.len();
    while left > 0 {
        left -= 1;
        match same_content(files, one, &one.loads[left], name, granule, load) {
            Ok(same) => mask = 2 * mask + u32::from(same),
            Err(failed) => return Err(failed),
        }
    }
    Ok(mask)
}
