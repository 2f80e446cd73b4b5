// The areas of the loads of one input.
ghost use Rattle.std.specs.Prelude.{◌≡◌, ◌+◌, ◌*◌, ◌^◌, ◌<◌, ◌≤◌, length, All, IfSome};
ghost use Rattle.ap_fields.specs.Granules.{IsGranule};
ghost use Rattle.ap_fields.specs.declared.sizes.TheConstants.{MOST_LOADS};
ghost use Rattle.ap_check.specs.Inputs.{Meets, bytes_of_loads};
ghost use Rattle.ap_layout.specs.declared.sizes.TheConstants.{MOST_AREAS, MOST_BESIDE};
ghost use Rattle.ap_layout.specs.Areas.{area_of, areas_of, content_length, end_of, end_from};
ghost use Rattle.ap_layout.specs.Positions.{input_areas, no_sharing, shared_with};
ghost use Rattle.ap_layout.specs.Twins as twins;
ghost use Rattle.ap_layout.specs.Twins.{sharing};

use crate::layout::Area;
use crate::shared::{mask_at, shared_area};
use ap_check::{Input, Load};
use ap_fields::{MOST_LOADS, ceil_to};
use arrayvec::ArrayVec;

/// The areas of an input's loads, and where the cursor stands behind them.
#[derive(Drop)]
pub struct Placed {
    pub areas: ArrayVec<Area, MOST_LOADS>,
    pub end: u64,
}

/// The areas of an input from the cursor `from` on, which stands behind the block.
pub fn areas_alone(e: &Input, from: u64) -> Placed
    requires small { from < 2 ^ 30 }
    ensures meets { Meets e.now }
    ensures areas { result.areas.items ≡ input_areas no_sharing e.now from }
    ensures end { result.end ≡ end_from from (input_areas no_sharing e.now from) }
    ensures bound { result.end ≤ from + MOST_AREAS }
{
    areas_of_loads(&e.loads, e.machine.granule(), from, &[], &[])
}

/// The areas of an input from the cursor `from` on, which stands behind another input's areas: one of those serves a load too
/// where the load's mask tells so.
pub fn areas_beside(e: &Input, from: u64, masks: &[u32], others: &[Area]) -> Placed
    requires small { from < 2 ^ 30 }
    requires others { All (λ a. end_of a ≤ from) others.now }
    ensures meets { Meets e.now }
    ensures areas { result.areas.items
        ≡ input_areas (shared_with masks.now others.now e.now) e.now from }
    ensures end { result.end
        ≡ end_from from (input_areas (shared_with masks.now others.now e.now) e.now from) }
    ensures bound { result.end ≤ from + MOST_AREAS }
{
    areas_of_loads(&e.loads, e.machine.granule(), from, masks, others)
}

fn areas_of_loads(loads: &[Load], granule: u64, from: u64, masks: &[u32], others: &[Area]) -> Placed
    requires granule { IsGranule granule }
    requires few { length loads.now ≤ MOST_LOADS }
    requires small { from + (bytes_of_loads loads.now + MOST_BESIDE * length loads.now) < 2 ^ 62 }
    requires others { All (λ a. end_of a ≤ from) others.now }
    ensures areas { result.areas.items
        ≡ areas_of (sharing masks.now others.now granule loads.now) 0 granule loads.now from }
    ensures end { result.end
        ≡ end_from from (areas_of (sharing masks.now others.now granule loads.now) 0 granule loads.now from) }
    ensures bound { result.end
        ≤ from + (bytes_of_loads loads.now + MOST_BESIDE * length loads.now) }
{
    let mut areas = ArrayVec::new();
    let mut end = from;
    for (i, load) in loads.iter().enumerate() {
        let shared = shared_for(load, mask_at(masks, i), granule, others);
        let area = area(load, granule, end, shared);
        end = end.max(area.file + area.len);
        areas.push(area);
    }
    Placed { areas, end }
}

// The area of others that serves a load with this mask.
#[tactic(auto, using(crate::proofs::Rounded::area_steps))]
fn shared_for(load: &Load, mask: u32, granule: u64, others: &[Area]) -> Option<Area>
    requires granule { IsGranule granule }
    requires small { load.now.filesz < 2 ^ 62 }
    ensures { result ≡ twins.shared_area granule (content_length granule load.now) mask others.now }
{
    shared_area(others, mask, granule, length_of_content(load, granule))
}

// How long the content of a load's area is.
#[tactic(auto, using(crate::proofs::Rounded::area_steps), unfolding(crate::specs::Areas::content_length))]
fn length_of_content(load: &Load, granule: u64) -> u64
    requires granule { IsGranule granule }
    requires small { load.now.filesz < 2 ^ 62 }
    ensures { result ≡ content_length granule load.now }
{
    ceil_to(load.vaddr % granule + load.filesz, granule)
}

// The area of a load where the cursor stands at `cursor`.
#[tactic(auto, using(crate::proofs::Rounded::area_steps))]
fn area(load: &Load, granule: u64, cursor: u64, shared: Option<Area>) -> Area
    requires granule { IsGranule granule }
    requires small { cursor + load.now.filesz < 2 ^ 62 }
    requires shared { IfSome shared (λ a. end_of a ≤ cursor) }
    ensures area { result ≡ area_of shared granule load.now cursor }
    ensures bound { end_of result ≤ cursor + load.now.filesz + MOST_BESIDE }
{
    if load.filesz == 0 {
        return Area { file: 0, len: 0 };
    }
    match shared {
        Some(area) => area,
        None => Area {
            file: ceil_to(cursor, granule),
            len: length_of_content(load, granule),
        },
    }
}
