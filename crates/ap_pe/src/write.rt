// The headers, claimed.
ghost use Rattle.std.specs.Prelude.{◌≡◌, ◌+◌, ◌≤◌, [], ◌∷◌, length};
ghost use Rattle.ap_claims.specs.declared.owner.Owner.TheVariants.{Pe};
ghost use Rattle.ap_claims.specs.Lists.{Makes};
ghost use Rattle.ap_pe.specs.declared.constants.TheConstants.{HEADERS_PLACE, MOST_HEADERS};
ghost use Rattle.ap_pe.specs.Claims.{pe_claims};
ghost use Rattle.ap_pe.specs.Written.{IsProgram};

use crate::constants::{HEADERS_PLACE, IMAGE_DOS_SIGNATURE};
use crate::headers::pe_headers;
use crate::program::Program;
use ap_check::Load;
use ap_claims::{Block, Clash, Owner, PeView};
use ap_layout::Area;

/// Claims the DOS fields for `Owner::Dos`, and then the PE headers for `Owner::Pe`, of a program whose loads have these areas of
/// the linked file.
///
/// `Clash` comes exactly where a byte of them is held with another value, and is the first such byte in this order. Then only
/// claims in front of its own have been made.
#[tactic(auto, unfolding(ap_fields::specs::Fields::bytes_of))]
pub fn write_headers(
    block: &mut Block,
    p: &Program,
    loads: &[Load],
    areas: &[Area],
) -> Result<(), Clash>
    requires { IsProgram p.now loads.now areas.now }
    ensures { Makes block.old block.new (pe_claims p.now loads.now areas.now) result }
{
    let headers = pe_headers(p, loads, areas);
    block.claim(Owner::Dos, 0, &IMAGE_DOS_SIGNATURE.to_le_bytes())?;
    block.claim(Owner::Dos, 60, &HEADERS_PLACE.to_le_bytes())?;
    claim_headers(block, &headers)
}

fn claim_headers(block: &mut Block, headers: &[u8]) -> Result<(), Clash>
    requires { length headers.now ≤ MOST_HEADERS }
    ensures { Makes block.old block.new
        (record { owner = Pe; at = HEADERS_PLACE; bytes = headers.now } ∷ []) result }
{
    PeView::new(block, HEADERS_PLACE as usize).put_bytes(0, headers)
}
