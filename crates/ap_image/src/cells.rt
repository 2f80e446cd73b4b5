// What a plan has at an address.
ghost use Rattle.std.specs.Prelude.{◌≡◌, ◌≤◌, ◌<◌, ◌+◌, ◌-◌, ◌∷◌, ◌^◌, ℕ, List, length, drop, nat_le, IfSome};
ghost use Rattle.std.specs.Option.{option_map};
ghost use Rattle.ap_fields.specs.Readings.{bytes_in};
ghost use Rattle.ap_image.specs.Plans.{AreAscendingFrom, AreBacked, end_of, region_byte, region_at, cell_in, cell_of};
ghost use Rattle.ap_image.specs.declared.plan.Region.{Region};
ghost use Rattle.ap_image.specs.PlanCells.{shown_by, byte_by, LiesIn};

use crate::plan::{Plan, Region};
use ap_fields::Perms;

/// The byte and the permissions at the address `a` of a plan over a file: the byte of the file that the region of `a`
/// shows there, or 0 behind what it shows of the file. `None` exactly where no region has `a`.
#[tactic(auto, using(crate::proofs::RegionCells::cell_steps))]
pub fn cell(plan: &Plan, file: &[u8], a: u64) -> Option<(u8, Perms)>
    requires { AreBacked plan.now.regions (length file.now) }
    ensures { cell_of result ≡ cell_in (bytes_in file.now) plan.now.regions a }
{
    let regions = plan.regions.as_slice();
    let r = regions.get(ended(regions, a))?;
    if a < r.start {
        return None;
    }
    Some((byte(r, file, a), r.perms))
}

/// What a plan shows at an address: the byte of the file at a place, or a zero behind what the region shows of the file.
pub(crate) enum Shown {
    File(u64),
    Zero,
}

/// What a plan over a file of `size` bytes shows at the address `a`. `None` exactly where no region has `a`.
#[tactic(auto, using(crate::proofs::RegionCells::cell_steps))]
pub(crate) fn look_up(plan: &Plan, size: u64, a: u64) -> Option<Shown>
    requires { AreBacked plan.now.regions size }
    ensures place { (byte : ℕ → ℕ) → shown_by byte plan.now.regions a ≡ option_map (byte_by byte)
        result }
    ensures within { IfSome result (λ s. LiesIn size s) }
{
    let regions = plan.regions.as_slice();
    let r = regions.get(ended(regions, a))?;
    if a < r.start {
        return None;
    }
    Some(part(r, a))
}

// What a region shows at an address that isn't below it.
fn part(r: &Region, a: u64) -> Shown
    requires address { r.now.start ≤ a }
    requires small { r.now.at + r.now.backed < 2 ^ 64 }
    ensures place { (byte : ℕ → ℕ) → region_byte byte r.now a ≡ byte_by byte result }
    ensures within { LiesIn (r.now.at + r.now.backed) result }
{
    let offset = a - r.start;
    if offset < r.backed {
        Shown::File(r.at + offset)
    } else {
        Shown::Zero
    }
}

/// How many regions end at or before an address.
#[tactic(auto, using(crate::proofs::RegionCells::cell_steps))]
pub(crate) fn ended(regions: &[Region], a: u64) -> usize
    requires { AreAscendingFrom 0 regions.now }
    ensures few { result ≤ length regions.now }
    ensures before { (byte : ℕ → ℕ) → cell_in byte (drop result regions.now) a ≡ cell_in byte
        regions.now a }
    ensures region { region_at (drop result regions.now) a ≡ region_at regions.now a }
    ensures behind { (r : Region) (rest : List Region) → drop result regions.now ≡ r ∷ rest → a <
        end_of r }
{
    let mut low = 0;
    let mut high = regions.len();
    while low < high {
        let middle = low + (high - low) / 2;
        if ends_by(&regions[middle], a) {
            low = middle + 1;
        } else {
            high = middle;
        }
    }
    low
}

fn ends_by(r: &Region, a: u64) -> bool
    ensures { result ≡ nat_le (end_of r.now) a }
{
    r.start <= a && r.span <= a - r.start
}

// The byte at an address that isn't below a region.
fn byte(r: &Region, file: &[u8], a: u64) -> u8
    requires address { r.now.start ≤ a }
    requires backed { r.now.at + r.now.backed ≤ length file.now }
    ensures { result ≡ region_byte (bytes_in file.now) r.now a }
{
    match part(r, a) {
        Shown::File(at) => file[at as usize],
        Shown::Zero => 0,
    }
}
