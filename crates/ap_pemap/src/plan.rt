// The plan of headers and sections, wherever these were read.
ghost use Rattle.std.specs.Prelude.{◌≡◌, ◌++◌, ◌≤◌, ◌<◌, ◌∷◌, [], ◌^◌, ◌&&◌, nat_lt, nat_le, length, map, IfOk, OnOk};
ghost use Rattle.ap_elf.specs.declared.constants.TheConstants.{ADDRESS_TOP};
ghost use Rattle.ap_image.specs.Plans.{AreBacked};
ghost use Rattle.ap_pe.specs.declared.constants.TheConstants.{MOST_SECTIONS};
ghost use Rattle.ap_pe.specs.PeReading.{Checks, extent_rules, image_rules, sections_rules, end_behind, headers_extent};
ghost use Rattle.ap_pe.specs.Stages.{AreTaken};
ghost use Rattle.ap_pemap.specs.PePlans as spec;
ghost use Rattle.ap_pemap.specs.PePlans.{region_of, mapped_plan};

use crate::extents::{headers_extent, rounded};
use crate::sections::push_sections;
use ap_elf::constants::ADDRESS_TOP;
use ap_fields::Perms;
use ap_image::{MOST_REGIONS, Plan, Region};
use ap_pe::PeCause::{Entry, HeadersSize, ImageSize, Top};
use ap_pe::{PeFault, PeHeaders, PeSection, check_rules, refusal};
use arrayvec::ArrayVec;

/// The plan of headers that aren't refused and of sections, in a file of `size` bytes, or the first rule that they break.
#[tactic(auto, using(ap_fields::proofs::FirstFaults::join_steps))]
pub fn plan_by(size: u64, h: &PeHeaders, sections: &[PeSection]) -> Result<Plan, PeFault>
    requires taken { AreTaken size h.now }
    requires few { length sections.now ≤ MOST_SECTIONS }
    ensures plan { result ≡ mapped_plan size h.now sections.now }
    ensures backed { IfOk result (λ plan. AreBacked plan.regions size) }
{
    check_extent(size, h)?;
    let mut regions: ArrayVec<Region, MOST_REGIONS> = ArrayVec::new();
    regions.push(headers_region(h));
    let end = push_sections(&mut regions, h, sections, size)?;
    check_image(h, end)?;
    Ok(Plan {
        regions,
        entry: h.base + h.entry as u64,
    })
}

// The rule of how much of the file the headers show.
fn check_extent(size: u64, h: &PeHeaders) -> Result<(), PeFault>
    ensures { Checks result (extent_rules size h.now) }
{
    let shown = h.headers > 0 && h.headers as u64 <= size;
    check_rules(&[(shown, refusal(HeadersSize, 0, h.headers as u64))])
}

// The rules of an image that ends at `end`, from the image base on.
fn check_image(h: &PeHeaders, end: u64) -> Result<(), PeFault>
    requires end { end < 2 ^ 34 }
    requires base { h.now.base < ADDRESS_TOP }
    requires align { 0 < h.now.section_align }
    ensures { Checks result (image_rules h.now end) }
{
    check_rules(&[
        (
            rounded(h.image, h.section_align) == end,
            refusal(ImageSize, 0, h.image as u64),
        ),
        (h.base + end <= ADDRESS_TOP, refusal(Top, 0, h.base)),
        ((h.entry as u64) < end, refusal(Entry, 0, h.entry as u64)),
    ])
}

// The region of the headers.
#[tactic(auto, unfolding(crate::specs::PePlans::headers_region))]
fn headers_region(h: &PeHeaders) -> Region
    requires { 0 < h.now.section_align }
    ensures { result ≡ spec.headers_region h.now }
{
    Region {
        start: h.base,
        span: headers_extent(h),
        backed: h.headers as u64,
        at: 0,
        perms: Perms::R,
    }
}
