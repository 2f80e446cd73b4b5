// What holds of the ELF file that a file becomes.
ghost use Rattle.std.specs.Prelude.{◌≡◌, ◌≤◌, ℕ, List, length, IfOk};
ghost use Rattle.ap_fields.specs.Readings.{bytes_in};
ghost use Rattle.ap_elf.specs.declared.constants.TheConstants.{EHDR_SIZE};
ghost use Rattle.ap_elfmap.specs.ElfPlans.{elf_plan};
ghost use Rattle.ap_loader.specs.ApeReading.{as_ape, ape_plan};
ghost use Rattle.ap_assim.specs.Assimilated.{elf_of};

/// The ELF reading maps the ELF file that a file becomes by the plan of the file's APE reading, or refuses it with the fault
/// that stands there, at every page size.
pub fn elf_files_have_the_plan()
    ensures { (machine page : ℕ) (file : List ℕ) → IfOk (elf_of machine file)
        (λ bytes. as_ape (elf_plan machine page bytes) ≡ ape_plan machine page file) }
{}

/// The ELF file that a file becomes has the file's length, and its bytes behind the first 64.
#[tactic(auto, using(crate::proofs::Plans::same_bytes))]
pub fn elf_files_have_the_bytes()
    ensures { (machine : ℕ) (file : List ℕ) → IfOk (elf_of machine file)
        (λ bytes. (length bytes ≡ length file)
        × ((k : ℕ) → EHDR_SIZE ≤ k → bytes_in bytes k ≡ bytes_in file k)) }
{}
