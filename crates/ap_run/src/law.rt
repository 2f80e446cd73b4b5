// What holds of the definitions themselves.
ghost use Rattle.std.specs.Prelude.{◌≡◌, ℕ, List, Result};
ghost use Rattle.ap_run.specs.Scripted.{Scripted};
ghost use Rattle.ap_run.specs.ScriptRuns.{ScriptRun};
ghost use Rattle.ap_run.specs.declared.end.ReadingFault.{ReadingFault};

/// What a file's script does has one answer, which is the text of its outcome or the refusal of the file.
pub fn scripts_have_one_answer()
    ensures some { (run : ScriptRun) (file : List ℕ)
        → (answer : Result (List ℕ) ReadingFault) × Scripted run file answer }
    ensures one { (run : ScriptRun) (file : List ℕ) (a b : Result (List ℕ) ReadingFault)
        → Scripted run file a → Scripted run file b → a ≡ b }
{}
