// What the commands so far put into memory.
ghost use Rattle.std.specs.Prelude.{◌≡◌, ◌++◌, ◌+◌, ◌≤◌, [], None, length, IfOk, OnOk};
ghost use Rattle.ap_image.specs.Plans.{AreBacked};
ghost use Rattle.ap_mach.specs.MachReading.{Checks, command_rules, kind_rules, segment_rules, low_behind};
ghost use Rattle.ap_mach.specs.MachReading as reading;
ghost use Rattle.ap_machmap.specs.Steps.{has_start, start_behind, region_if, region_by, left_plan, AreMapped};

use crate::segments::region;
use ap_image::{MOST_REGIONS, Plan, Region};
use ap_mach::constants::{LC_SEGMENT_64, LC_UNIXTHREAD};
use ap_mach::{
    CommandParts, MachCause, MachFault, SegmentCommand, check_command, check_segment, check_thread,
    maps, refusal,
};
use arrayvec::ArrayVec;

/// What the commands so far put into memory.
#[derive(Drop)]
pub struct Mapped {
    /// The regions of the segments.
    pub regions: ArrayVec<Region, MOST_REGIONS>,
    /// Where the last of them ends, or 0.
    pub low: u64,
    /// Where the program starts, if there was a thread command.
    pub start: Option<u64>,
}

impl Mapped {
    /// Before the first command.
    pub fn new() -> Mapped
        ensures regions { result.regions.items ≡ [] }
        ensures low { result.low ≡ 0 }
        ensures start { result.start ≡ None }
    {
        Mapped {
            regions: ArrayVec::new(),
            low: 0,
            start: None,
        }
    }

    /// Takes in the command number `k` of a file of `len` bytes whose commands end at `end`, or answers the first rule that it
    /// breaks.
    pub fn add(&mut self, len: u64, end: u64, k: u16, p: &CommandParts) -> Result<(), MachFault>
        requires place { p.now.front.at ≤ end }
        requires mapped { AreMapped len self.old.low self.old.regions.items }
        ensures rules { Checks result (command_rules len end k self.old.low
            (length self.old.regions.items) (has_start self.old.start) p.now) }
        ensures regions { OnOk result
            (self.new.regions.items ≡ self.old.regions.items ++ region_by p.now) }
        ensures low { OnOk result (self.new.low ≡ low_behind self.old.low p.now) }
        ensures start { OnOk result (self.new.start ≡ start_behind self.old.start p.now) }
        ensures fits { OnOk result (p.now.front.at + p.now.front.size ≤ end) }
        ensures mapped { OnOk result (AreMapped len self.new.low self.new.regions.items) }
    {
        check_command(end, k, &p.front)?;
        self.add_kind(len, k, p)
    }

    // The same by the command's kind, of which more is asked.
    fn add_kind(&mut self, len: u64, k: u16, p: &CommandParts) -> Result<(), MachFault>
        requires mapped { AreMapped len self.old.low self.old.regions.items }
        ensures rules { Checks result (kind_rules len k self.old.low
            (length self.old.regions.items) (has_start self.old.start) p.now) }
        ensures regions { OnOk result
            (self.new.regions.items ≡ self.old.regions.items ++ region_by p.now) }
        ensures low { OnOk result (self.new.low ≡ low_behind self.old.low p.now) }
        ensures start { OnOk result (self.new.start ≡ start_behind self.old.start p.now) }
        ensures mapped { OnOk result (AreMapped len self.new.low self.new.regions.items) }
    {
        if p.front.kind == LC_SEGMENT_64 {
            return self.add_segment(len, k, p.front.size, &p.segment);
        }
        if p.front.kind == LC_UNIXTHREAD {
            check_thread(k, self.start.is_some(), p.front.size, &p.thread)?;
            self.start = Some(p.thread.start);
        }
        Ok(())
    }

    // Takes in a segment command of `size` bytes.
    fn add_segment(
        &mut self,
        len: u64,
        k: u16,
        size: u32,
        s: &SegmentCommand,
    ) -> Result<(), MachFault>
        requires mapped { AreMapped len self.old.low self.old.regions.items }
        ensures rules { Checks result (segment_rules len k self.old.low
            (length self.old.regions.items) size s.now) }
        ensures regions { OnOk result (self.new.regions.items
            ≡ self.old.regions.items ++ region_if s.now) }
        ensures low { OnOk result (self.new.low ≡ reading.low_after self.old.low s.now) }
        ensures start { self.new.start ≡ self.old.start }
        ensures mapped { OnOk result (AreMapped len self.new.low self.new.regions.items) }
    {
        check_segment(len, k, self.low, self.regions.len(), size, s)?;
        if maps(s) {
            self.regions.push(region(s));
            self.low = s.vmaddr + s.vmsize;
        }
        Ok(())
    }

    /// The plan behind all commands; or the refusal where there was no thread command.
    pub fn finish(self, len: u64, end: u64, k: u16) -> Result<Plan, MachFault>
        requires { AreMapped len self.low self.regions.items }
        ensures plan { result ≡ left_plan len end k self.low self.regions.items self.start [] }
        ensures backed { IfOk result (λ plan. AreBacked plan.regions len) }
    {
        match self.start {
            None => Err(refusal(MachCause::NoThread, 0, 0)),
            Some(entry) => Ok(Plan {
                regions: self.regions,
                entry,
            }),
        }
    }
}
