// The bytes that a plan shows, of bytes in memory and of a file by its name.
ghost use Rattle.ap_image.specs.Plans.{AreBacked};
ghost use Rattle.ap_image.specs.LastReads.{IsPart};
ghost use Rattle.ap_image.specs.PlanCells.{plan_state, file_state, IsSized, AreBacked-prop};
ghost use Rattle.std.specs.Prelude.{length};

use crate::by_address::Cells;
use crate::cells::{Shown, cell, look_up};
use crate::last_read::LastRead;
use crate::plan::Plan;
use ap_files::{Failed, Files};

/// The bytes that a plan shows of a file in memory. They are told, and none fails to be read.
#[derive(Clone, Copy)]
pub struct PlanCells<'a> {
    pub plan: &'a Plan,
    pub file: &'a [u8],
    ghost backed: { AreBacked plan.now.regions (length file.now) } by { AreBacked-prop plan.now.regions (length file.now) },
}

impl Cells for PlanCells<'_> {
    ghost state = { λ c. plan_state c.file.now c.plan.now.regions };

    fn byte(&mut self, a: u64) -> Result<Option<u8>, Failed> {
        match cell(self.plan, self.file, a) {
            Some((byte, _)) => Ok(Some(byte)),
            None => Ok(None),
        }
    }
}

/// The bytes that a plan shows of a file by its name, which is read in small parts.
#[derive(Drop)]
pub struct FileCells<'f, 'n, 'p, F: Files> {
    pub files: &'f mut F,
    pub name: &'n str,
    pub plan: &'p Plan,
    /// The file's length in bytes.
    pub size: u64,
    /// What was read of it last.
    pub last: LastRead,
    ghost held: { IsPart (F.state files.now).kept name.now last },
    ghost sized: { IsSized (F.state files.now).kept name.now size },
    ghost backed: { AreBacked plan.now.regions size } by { AreBacked-prop plan.now.regions size },
}

impl<F: Files> Cells for FileCells<'_, '_, '_, F> {
    ghost state = { λ c. file_state (F.state c.files.now) c.name.now c.plan.now.regions c.files.ghost_name };

    fn byte(&mut self, a: u64) -> Result<Option<u8>, Failed> {
        match look_up(self.plan, self.size, a) {
            Some(Shown::File(at)) => match self.last.get(at) {
                Some(byte) => Ok(Some(byte)),
                None => {
                    let byte = self.last.read(self.files, self.name, at, self.size)?;
                    Ok(Some(byte))
                }
            },
            Some(Shown::Zero) => Ok(Some(0)),
            None => Ok(None),
        }
    }
}
