// A linked file, written from its block and from the areas of one or two inputs.
ghost use Rattle.std.specs.Prelude.{◌≡◌, ◌<◌, ◌++◌, ◌^◌};
ghost use Rattle.ap_files.specs.Files.{IsUnfinished};
ghost use Rattle.ap_files.specs.Appends.{Appends, Makes, failure_of};
ghost use Rattle.ap_link.specs.Sources.{AreReadable, ArePositions, second_taken, tail_told};

use crate::areas::write_input;
use crate::laid::{areas_of, end_behind};
use crate::source::Sources;
use ap_fields::BLOCK;
use ap_files::{FileFault, Files, append};
use ap_layout::Layout;

/// Makes the file `out` of the block and of the inputs' areas, which have these places.
pub fn write_linked<F: Files>(
    files: &mut F,
    sources: &Sources<'_>,
    lay: &Layout,
    block: &[u8],
    out: &str,
) -> Result<(), FileFault>
    requires lay { ArePositions sources.now.first.input.now (second_taken sources.now.second)
        lay.now }
    requires small { lay.now.total < 2 ^ 31 }
    requires sources { AreReadable (F.state files.old).kept sources.now.first sources.now.second
        out.now }
    ensures { Makes (F.state files.old) (F.state files.new) out.now
        (block.now ++ tail_told (F.state files.old).kept sources.now.first sources.now.second lay.now.areas) (failure_of result) }
{
    if let Err(_) = files.start(out) {
        return Err(FileFault::Write);
    }
    if let Err(_) = append(files, out, block) {
        return Err(FileFault::Write);
    }
    write_inputs(files, sources, lay, out)?;
    match files.finish(out) {
        Ok(()) => Ok(()),
        Err(_) => Err(FileFault::Write),
    }
}

// Appends the areas of the first input behind the block, and those of the second behind them.
fn write_inputs<F: Files>(
    files: &mut F,
    sources: &Sources<'_>,
    lay: &Layout,
    out: &str,
) -> Result<(), FileFault>
    requires lay { ArePositions sources.now.first.input.now (second_taken sources.now.second)
        lay.now }
    requires small { lay.now.total < 2 ^ 31 }
    requires sources { AreReadable (F.state files.old).kept sources.now.first sources.now.second
        out.now }
    requires out { IsUnfinished (F.state files.old) out.now }
    ensures { Appends (F.state files.old) (F.state files.new) out.now
        (tail_told (F.state files.old).kept sources.now.first sources.now.second lay.now.areas) (failure_of result) }
{
    let first = sources.first;
    let from = BLOCK as u64;
    write_input(files, first.name, first.input, areas_of(lay, 0), from, out)?;
    match sources.second {
        None => Ok(()),
        Some(second) => {
            let end = end_behind(areas_of(lay, 0), from);
            let areas = areas_of(lay, 1);
            write_input(files, second.name, second.input, areas, end, out)
        }
    }
}
