// The reading of Mach-O programs.
ghost use Rattle.ap_mach.specs.Looks.{Looks};
ghost use Rattle.ap_mach.specs.MachReading.{mach_reading};
ghost use Rattle.ap_machmap.specs.MachPlans.{mach_plan};
ghost use Rattle.ap_machmap.specs.Laws.{cells-mach, frame-mach};

use ap_files::SliceFiles;
use ap_image::{Plan, Reading};
use ap_mach::MachFault;

/// The reading of Mach-O programs for x86-64.
///
/// A file is refused by the rules of [`MachCause`](crate::MachCause), in its order, those of a command command by command. Each
/// segment that maps something maps its bytes of the file, and zeros behind them up to its size in memory (loader.h,
/// `segment_command_64`). The program starts where register 16 of its thread command says.
#[derive(Clone, Copy, Debug, PartialEq, Eq)]
pub struct MachReading;

impl Reading for MachReading {
    type Fault = MachFault;

    ghost is_well_formed = { λ r. Unit {0} };

    ghost reading = { λ r f. mach_reading f };

    ghost plan = { λ r f. mach_plan f };

    ghost looks = { λ r f. Looks f };

    #[tactic(auto, using(ap_files::proofs::SliceLemmas::slice_steps))]
    fn read(&self, file: &[u8]) -> Result<Plan, MachFault> {
        let mut files = SliceFiles { bytes: file };
        match self.read_in(&mut files, "", file.len() as u64) {
            Ok(plan) => plan,
            Err(_) => unreachable!(),
        }
    }

    ghost cells = { λ r f is. cells-mach f };

    ghost frame = { λ r f g is len agree. frame-mach f g len agree };
}
