// What holds of reports.
ghost use Rattle.std.specs.Prelude.{◌≡◌, ℕ, List};
ghost use Rattle.ap_inspect.specs.Reports.{IsReport};

/// A file has one report.
pub fn files_have_one_report()
    ensures { (file a b : List ℕ) → IsReport file a → IsReport file b → a ≡ b }
{}
