// Laws of the inputs of a trial.
ghost use Rattle.std.specs.Prelude.{◌≡◌, ◌≤◌, ◌+◌, ℕ, List, length, Some, None};
ghost use Rattle.ap_elf.specs.declared.machine.Machine.{Machine};
ghost use Rattle.ap_elf.specs.declared.machine.Machine.TheVariants.{X64, A64};
ghost use Rattle.ap_elf.specs.Machines.{granule_of};
ghost use Rattle.ap_elf.specs.Fields.{header_of, entries_of};
ghost use Rattle.ap_check.specs.Both.{first_fault_of_both};
ghost use Rattle.ap_trial.specs.TrialInputs.{trial_input, trial_header, trial_loads, tables_place};
ghost use Rattle.ap_trial.specs.Trials.{all_systems, AreNumbers, IsTrial};
ghost use Rattle.ap_trial.specs.InputFolds.{input_fold, HaveFolds};
ghost use Rattle.ap_trial.specs.declared.numbers.SummaryNumbers.{SummaryNumbers};

/// Of at most 16384 pages, the header and the program headers of an input are read as they were written. An input of any pages
/// has 256 bytes behind its loads.
pub fn inputs_are_read_back()
    ensures header { (number pages : ℕ) (machine : Machine) → pages ≤ 16384
        → header_of (trial_input number pages machine) ≡ trial_header pages machine }
    ensures entries { (number pages : ℕ) (machine : Machine) → pages ≤ 16384
        → entries_of (trial_input number pages machine) ≡ trial_loads (granule_of machine) pages }
    ensures length { (number pages : ℕ) (machine : Machine)
        → length (trial_input number pages machine)
        ≡ tables_place (granule_of machine) pages + 256 }
{}

/// The inputs of a number, of 1 to 16384 pages, break no rule together, that for x86-64 first, for all five systems.
pub fn inputs_meet_the_rules()
    ensures { (number pages : ℕ) → 1 ≤ pages → pages ≤ 16384
        → first_fault_of_both all_systems (trial_input number pages X64)
        (Some (trial_input number pages A64)) ≡ None }
{}

/// A trial has one summary.
pub fn trials_have_one_summary()
    ensures { (number pages : ℕ) (a b : List ℕ) → IsTrial number pages a → IsTrial number pages b
        → a ≡ b }
{}

/// Of 1 to 16384 pages, what each reading of the linked file finds at the addresses of an input's loads is what the input has
/// there: four readings that for x86-64, three that for AArch64.
pub fn readings_find_the_inputs()
    ensures { (number pages : ℕ) (n : SummaryNumbers) → 1 ≤ pages → pages ≤ 16384
        → AreNumbers number pages n
        → HaveFolds (input_fold number pages X64) (input_fold number pages A64) n.folds }
{}
