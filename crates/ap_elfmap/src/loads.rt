// The loads: what is asked of them, and their regions.
ghost use Rattle.std.specs.Prelude.{◌≡◌, ◌≤◌, ◌<◌, ◌+◌, ◌%◌, length, map, IfOk, OnOk};
ghost use Rattle.ap_fields.specs.Granules.{IsGranule};
ghost use Rattle.ap_elf.specs.declared.constants.TheConstants.{MOST_PHDRS};
ghost use Rattle.ap_elf.specs.ElfReading.{load_rules, loads_rules};
ghost use Rattle.ap_elfmap.specs.ElfPlans as spec;
ghost use Rattle.ap_elfmap.specs.ElfPlans.{Checks, region_of, IsLoad};

use crate::fault::{check, fault};
use ap_elf::ElfCause::{Congruent, Order, Range, Sizes, Top};
use ap_elf::constants::{ADDRESS_TOP, MOST_PHDRS};
use ap_elf::{ElfFault, Entry, load_end, load_perms};
use ap_fields::floor_to;
use ap_image::{MOST_REGIONS, Region};
use arrayvec::ArrayVec;

/// The regions of loads of a file of `size` bytes, or the first rule that a load breaks, load by load.
#[tactic(auto, using(ap_fields::proofs::FirstFaults::join_steps))]
pub fn regions(
    loads: &[Entry],
    size: u64,
    page: u64,
) -> Result<ArrayVec<Region, MOST_REGIONS>, ElfFault>
    requires page { IsGranule page }
    requires few { length loads.now ≤ MOST_PHDRS }
    ensures rules { Checks result (loads_rules page size 1 0 loads.now) }
    ensures regions { IfOk result (λ found. found.items ≡ map (region_of page size) loads.now) }
{
    let mut regions = ArrayVec::new();
    let mut low = 0;
    let mut k = 1;
    for p in loads {
        check_load(p, k, low, size, page)?;
        regions.push(region(p, size, page));
        low = load_end(p, page);
        k += 1;
    }
    Ok(regions)
}

// The rules of the load number `k`, where the pages of the load before it end at `low`.
#[tactic(auto, using(ap_fields::proofs::Granules::powers))]
fn check_load(p: &Entry, k: u16, low: u64, size: u64, page: u64) -> Result<(), ElfFault>
    requires { IsGranule page }
    ensures rules { Checks result (load_rules page size k low p.now) }
    ensures load { OnOk result (IsLoad page size p.now) }
{
    let bare = p.filesz == 0;
    let within = p.filesz <= size && p.offset <= size - p.filesz;
    check(&[
        (p.filesz <= p.memsz, fault(Sizes, k, p.filesz)),
        (bare || within, fault(Range, k, p.offset)),
        (
            p.memsz <= ADDRESS_TOP && p.vaddr <= ADDRESS_TOP - p.memsz,
            fault(Top, k, p.vaddr),
        ),
        (
            bare || p.offset % page == p.vaddr % page,
            fault(Congruent, k, p.offset),
        ),
        (low <= floor_to(p.vaddr, page), fault(Order, k, p.vaddr)),
    ])
}

// The region of a load that meets its rules.
#[tactic(auto, using(ap_fields::proofs::Granules::powers, crate::specs::Laws::load_facts), unfolding(crate::specs::ElfPlans::region_of))]
fn region(p: &Entry, size: u64, page: u64) -> Region
    requires page { IsGranule page }
    requires load { IsLoad page size p.now }
    ensures { result ≡ region_of page size p.now }
{
    let start = floor_to(p.vaddr, page);
    let span = load_end(p, page) - start;
    let perms = load_perms(p);
    if p.filesz == 0 {
        return Region {
            start,
            span,
            backed: 0,
            at: 0,
            perms,
        };
    }
    let skew = p.vaddr % page;
    let at = p.offset - skew;
    let backed = if p.filesz < p.memsz {
        skew + p.filesz
    } else {
        span.min(size - at)
    };
    Region {
        start,
        span,
        backed,
        at,
        perms,
    }
}
