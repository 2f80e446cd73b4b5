// The reading of PE32+ files.
ghost use Rattle.ap_pe.specs.Looks.{Looks};
ghost use Rattle.ap_pe.specs.PeReading.{pe_reading};
ghost use Rattle.ap_pemap.specs.PePlans.{pe_plan};
ghost use Rattle.ap_pemap.specs.Laws.{cells-pe, frame-pe};

use ap_files::SliceFiles;
use ap_image::{Plan, Reading};
use ap_pe::PeFault;

/// The reading of PE32+ files for x86-64.
///
/// A file is refused by the rules of [`PeCause`](crate::PeCause), in its order, those of a section section by section. The
/// headers are mapped at the image base, as many bytes as they say, and zeros behind them up to the alignment of sections. The
/// sections follow without a gap: each maps its size in memory, or in the file where it says none, in whole alignments, and
/// shows its bytes of the file, also those behind its size in memory, and zeros (PE/COFF, "Section Table").
#[derive(Clone, Copy, Debug, PartialEq, Eq)]
pub struct PeReading;

impl Reading for PeReading {
    type Fault = PeFault;

    ghost is_well_formed = { λ r. Unit {0} };

    ghost reading = { λ r f. pe_reading f };

    ghost plan = { λ r f. pe_plan f };

    ghost looks = { λ r f. Looks f };

    #[tactic(auto, using(ap_files::proofs::SliceLemmas::slice_steps))]
    fn read(&self, file: &[u8]) -> Result<Plan, PeFault> {
        let mut files = SliceFiles { bytes: file };
        match self.read_in(&mut files, "", file.len() as u64) {
            Ok(plan) => plan,
            Err(_) => unreachable!(),
        }
    }

    ghost cells = { λ r f is. cells-pe f };

    ghost frame = { λ r f g is len agree. frame-pe f g len agree };
}
