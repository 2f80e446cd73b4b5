// The area of another input that serves a load too.
ghost use Rattle.std.specs.Prelude.{◌≡◌, get_or};
ghost use Rattle.ap_fields.specs.Granules.{IsGranule};
ghost use Rattle.ap_layout.specs.Twins as spec;

use crate::layout::Area;

/// The first of some areas whose bit is set in the mask, and which isn't empty, has the length `len` in bytes and stands on the
/// granule.
pub fn shared_area(areas: &[Area], mask: u32, granule: u64, len: u64) -> Option<Area>
    requires granule { IsGranule granule }
    ensures { result ≡ spec.shared_area granule len mask areas.now }
{
    let mut bits = mask;
    for area in areas {
        if serves(area, bits, granule, len) {
            return Some(*area);
        }
        bits /= 2;
    }
    None
}

// Whether an area, whose bit is the lowest, may serve a load.
fn serves(area: &Area, bits: u32, granule: u64, len: u64) -> bool
    requires granule { IsGranule granule }
    ensures { result ≡ spec.is_shared granule len bits area.now }
{
    bits % 2 == 1 && area.len != 0 && area.len == len && area.file % granule == 0
}

/// The mask of load `i`, which is 0 where there is none.
pub fn mask_at(masks: &[u32], i: usize) -> u32
    ensures { result ≡ get_or masks.now i 0 }
{
    if i < masks.len() { masks[i] } else { 0 }
}
