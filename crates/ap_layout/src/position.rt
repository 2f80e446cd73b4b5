// The positions of a linked file's parts.
ghost use Rattle.std.specs.Prelude.{◌≡◌, ◌+◌, ◌≤◌, [], None, Some, option_copied};
ghost use Rattle.ap_fields.specs.declared.sizes.TheConstants.{BLOCK};
ghost use Rattle.ap_layout.specs.declared.sizes.TheConstants.{TABLES, MOST_HEADERS};
ghost use Rattle.ap_layout.specs.Apart.{AllApart, Ascend, FittingIsApart, first_areas};
ghost use Rattle.ap_check.specs.Inputs.{inputs_of};
ghost use Rattle.ap_check.specs.Windows.{AreReady};
ghost use Rattle.ap_check.specs.Mac.{AreForMac};
ghost use Rattle.ap_layout.specs.MachPlaces.{mach_start, mach_length};
ghost use Rattle.ap_layout.specs.Positions.{positions_of, tables_start, joined, Fits};

use crate::areas::{areas_alone, areas_beside};
use crate::headers::pe_length;
use crate::layout::Layout;
use crate::mach::{MachPlace, mach_place};
use crate::sizes::TABLES;
use crate::tables::table_length;
use crate::twins::Twins;
use ap_check::{Input, Job};
use ap_fields::BLOCK;
use arrayvec::ArrayVec;

/// The positions of a linked file's parts: one area for each load that has bytes in its input's file, on the granules of
/// its input's machine, in the order of the inputs and of their loads behind the block; and the program header tables,
/// one behind the other.
///
/// A load of the second input gets no area of its own where its mask has a bit of a load of the first whose area isn't empty,
/// has the length that it needs and stands on its granule: the first such area serves it too. A bit of no load, or of an
/// empty area, is passed over, and a load without a mask shares no area.
pub fn place(job: &Job<'_>, twins: &Twins) -> Layout
    ensures positions { result
        ≡ positions_of job.now.options job.now.first.now (option_copied job.now.second) twins.now.masks.items }
    ensures fits { Fits job.now.options (inputs_of job.now.first.now (option_copied job.now.second))
        result }
    ensures apart { AllApart (joined result.areas) }
    ensures ascend { Ascend BLOCK (first_areas result.areas) }
{
    let start = TABLES + pe_length(job);
    let mach = mach_place(job);
    match job.second {
        None => place_one(job, start, mach),
        Some(second) => place_two(job, second, twins, start, mach),
    }
}

/// Any two areas of positions that fit are the same, or don't overlap.
pub fn areas_are_apart()
    ensures { FittingIsApart }
{}

// The positions of the first input alone, whose program header table stands at `start`.
fn place_one(job: &Job<'_>, start: u32, mach: MachPlace) -> Layout
    requires start { start ≡ tables_start job.now.options (inputs_of job.now.first.now None) }
    requires small { start ≤ TABLES + MOST_HEADERS }
    requires mach_at { mach.at ≡ mach_start job.now.options (inputs_of job.now.first.now None) }
    requires mach_len { mach.len ≡ mach_length job.now.options (inputs_of job.now.first.now None) }
    requires ready { AreReady job.now.options (inputs_of job.now.first.now None) }
    requires mac { AreForMac job.now.options (inputs_of job.now.first.now None) }
    ensures positions { result ≡ positions_of job.now.options job.now.first.now None [] }
    ensures fits { Fits job.now.options (inputs_of job.now.first.now None) result }
{
    let placed = areas_alone(job.first, BLOCK as u64);
    let mut tables = ArrayVec::new();
    tables.push(start);
    Layout {
        areas: [placed.areas, ArrayVec::new()],
        tables,
        mach_at: mach.at,
        mach_len: mach.len,
        body_end: start + table_length(job.first),
        total: placed.end,
    }
}

// The positions of both inputs.
fn place_two(job: &Job<'_>, second: &Input, twins: &Twins, start: u32, mach: MachPlace) -> Layout
    requires start { start
        ≡ tables_start job.now.options (inputs_of job.now.first.now (Some second.now)) }
    requires small { start ≤ TABLES + MOST_HEADERS }
    requires mach_at { mach.at
        ≡ mach_start job.now.options (inputs_of job.now.first.now (Some second.now)) }
    requires mach_len { mach.len
        ≡ mach_length job.now.options (inputs_of job.now.first.now (Some second.now)) }
    requires ready { AreReady job.now.options (inputs_of job.now.first.now (Some second.now)) }
    requires mac { AreForMac job.now.options (inputs_of job.now.first.now (Some second.now)) }
    ensures positions { result
        ≡ positions_of job.now.options job.now.first.now (Some second.now) twins.now.masks.items }
    ensures fits { Fits job.now.options (inputs_of job.now.first.now (Some second.now)) result }
{
    let placed = areas_alone(job.first, BLOCK as u64);
    let behind = areas_beside(second, placed.end, &twins.masks, &placed.areas);
    let table = start + table_length(job.first);
    let mut tables = ArrayVec::new();
    tables.push(start);
    tables.push(table);
    Layout {
        areas: [placed.areas, behind.areas],
        tables,
        mach_at: mach.at,
        mach_len: mach.len,
        body_end: table + table_length(second),
        total: behind.end,
    }
}
