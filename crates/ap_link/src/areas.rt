// The areas of an input, written behind what stands of a linked file.
ghost use Rattle.std.specs.Prelude.{◌≡◌, ◌≢◌, ◌<◌, ◌+◌, ◌++◌, ◌^◌, length};
ghost use Rattle.ap_fields.specs.Bytes as bytes;
ghost use Rattle.ap_fields.specs.Granules.{IsGranule};
ghost use Rattle.ap_fields.specs.Readings.{bytes_in};
ghost use Rattle.ap_files.specs.Files.{IsUnfinished, HasRange, told_bytes};
ghost use Rattle.ap_files.specs.Appends.{Appends, failure_of};
ghost use Rattle.ap_layout.specs.Areas as spec;
ghost use Rattle.ap_layout.specs.Areas.{content_of};
ghost use Rattle.ap_elf.specs.Machines.{granule_of};
ghost use Rattle.ap_check.specs.Inputs.{Meets};
ghost use Rattle.ap_link.specs.Linked.{input_text};
ghost use Rattle.ap_link.specs.Nexts.{AreNext};
ghost use Rattle.ap_link.specs.Sources.{IsReadable};

use crate::copy::copy;
use ap_check::{Input, Load};
use ap_fields::ceil_to;
use ap_files::{FileFault, Files, append};
use ap_layout::Area;

/// Appends the areas of an input that are new to the file `out`, of which `from` bytes stand, by the bytes of the file `name`.
pub fn write_input<F: Files>(
    files: &mut F,
    name: &str,
    input: &Input,
    areas: &[Area],
    from: u64,
    out: &str,
) -> Result<(), FileFault>
    requires count { length areas.now ≡ length input.now.loads }
    requires next { Meets input.now
        → AreNext (granule_of input.now.machine) input.now.size from input.now.loads areas.now }
    requires readable { IsReadable (F.state files.old).kept name.now input.now.size out.now }
    requires out { IsUnfinished (F.state files.old) out.now }
    ensures { Appends (F.state files.old) (F.state files.new) out.now
        (input_text from input.now (told_bytes (F.state files.old).kept name.now) areas.now) (failure_of result) }
{
    let loads = input.loads.as_slice();
    let granule = input.machine.granule();
    let mut end = from;
    for (i, p) in loads.iter().enumerate() {
        let area = areas[i];
        if is_new(&area, end) {
            write_area(files, name, out, p, granule, area.file - end)?;
            end = area.file + area.len;
        }
    }
    Ok(())
}

/// Whether an area isn't empty and stands behind the first `end` bytes.
pub fn is_new(area: &Area, end: u64) -> bool
    ensures { result ≡ spec.is_new end area.now }
{
    area.len != 0 && end <= area.file
}

// Appends `gap` zeros and the content of a load's area.
#[tactic(auto, using(ap_fields::proofs::Granules::powers))]
fn write_area<F: Files>(
    files: &mut F,
    input: &str,
    out: &str,
    p: &Load,
    granule: u64,
    gap: u64,
) -> Result<(), FileFault>
    requires granule { IsGranule granule }
    requires gap { gap < granule }
    requires small { p.now.offset + p.now.filesz < 2 ^ 63 }
    requires apart { input.now ≢ out.now }
    requires out { IsUnfinished (F.state files.old) out.now }
    requires range { HasRange (F.state files.old).kept input.now p.now.offset p.now.filesz }
    ensures { Appends (F.state files.old) (F.state files.new) out.now
        (bytes.zeros gap ++ content_of granule (bytes_in (told_bytes (F.state files.old).kept input.now)) p.now) (failure_of result) }
{
    let zeros = [0; 1 << 15];
    let skew = p.vaddr % granule;
    let end = skew + p.filesz;
    let behind = ceil_to(end, granule) - end;
    if let Err(_) = append(files, out, &zeros[..(gap + skew) as usize]) {
        return Err(FileFault::Write);
    }
    copy(files, input, out, p.offset, p.filesz)?;
    match append(files, out, &zeros[..behind as usize]) {
        Ok(()) => Ok(()),
        Err(_) => Err(FileFault::Write),
    }
}
