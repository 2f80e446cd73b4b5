// Readings of files.
ghost use Rattle.std.specs.Prelude.{◌≡◌, ℕ, List, Result, length, IfOk};
ghost use Rattle.ap_fields.specs.Readings.{MemoryImage};
ghost use Rattle.ap_image.specs.Plans.{Mapping, AreBacked};
ghost use Rattle.ap_image.specs.Reading.{IsPlanOf, AgreeAt, AgreeOnPlan};

use crate::plan::Plan;

/// A format of programs: which memory a file is, or why it isn't of the format.
pub trait Reading {
    /// Why a file is refused.
    type Fault;

    /// Whether there is such a reading, where a format has parameters.
    ghost is_well_formed: { Self → Type 0 };

    /// The format's definition: what a file puts into memory, address by address, or the first refusal.
    ghost reading: { Self → List ℕ → Result MemoryImage Self.Fault };

    /// The regions by which the format maps a file, and its entry, or the first refusal.
    ghost plan: { Self → List ℕ → Result Mapping Self.Fault };

    /// The places of a file that the definition looks at, beside those that the plan's regions show.
    ghost looks: { Self → List ℕ → ℕ → Type 0 };

    /// The plan of a file. Each region shows bytes that lie in the file. `Err` comes exactly where the format refuses
    /// the file, and is its first refusal.
    fn read(&self, file: &[u8]) -> Result<Plan, Self::Fault>
        requires { is_well_formed self.now }
        ensures plan { result ≡ plan self.now file.now }
        ensures image { IsPlanOf result file.now (reading self.now file.now) }
        ensures backed { IfOk result (λ plan. AreBacked plan.regions (length file.now)) };

    /// The plan shows what the definition says, address by address.
    ghost cells: { (r : Self) (f : List ℕ) → is_well_formed r → IsPlanOf (plan r f) f (reading r f) };

    /// Two files of equal length that agree where the definition looks have the same plan or the same refusal.
    ghost frame: { (r : Self) (f g : List ℕ) → is_well_formed r → length f ≡ length g → AgreeAt (looks r f) f g → plan r f ≡ plan r g };
}

/// What holds of each reading that is well formed, and of any two files of equal length that agree where its definition
/// looks: they have the same plan or the same refusal; and if they agree on the bytes that the first file's plan shows,
/// too, they put the same into memory.
pub fn reads_alike<R: Reading>()
    ensures plans { (r : R) (f g : List ℕ) → R.is_well_formed r → length f ≡ length g → AgreeAt
        (R.looks r f) f g → R.plan r f ≡ R.plan r g }
    ensures images { (r : R) (f g : List ℕ) → R.is_well_formed r → length f ≡ length g → AgreeAt
        (R.looks r f) f g → AgreeOnPlan (R.plan r f) f g → R.reading r f ≡ R.reading r g }
{}
