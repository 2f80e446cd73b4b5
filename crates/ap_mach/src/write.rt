// The headers, claimed.
ghost use Rattle.std.specs.Prelude.{◌≡◌, ◌+◌, ◌≤◌, length};
ghost use Rattle.ap_fields.specs.declared.sizes.TheConstants.{BLOCK};
ghost use Rattle.ap_claims.specs.Lists.{Makes};
ghost use Rattle.ap_mach.specs.declared.constants.TheConstants.{MOST_HEADERS};
ghost use Rattle.ap_mach.specs.Written.{IsProgram, mach_claims};

use crate::headers::mach_headers;
use ap_check::Load;
use ap_claims::{Block, Clash, MachView};
use ap_layout::Area;

/// Claims the Mach-O headers for `Owner::Mach` from `at` on, of a program that starts at `start` and whose loads have these areas
/// of the linked file.
///
/// `Clash` comes exactly where a byte of them is held with another value, and is the first such byte. Then nothing is claimed.
pub fn write_headers(
    block: &mut Block,
    at: usize,
    start: u64,
    loads: &[Load],
    areas: &[Area],
) -> Result<(), Clash>
    requires room { at + MOST_HEADERS ≤ BLOCK }
    requires program { IsProgram loads.now areas.now }
    ensures { Makes block.old block.new (mach_claims at start loads.now areas.now) result }
{
    let headers = mach_headers(start, loads, areas);
    MachView::new(block, at).put_bytes(0, &headers)
}
