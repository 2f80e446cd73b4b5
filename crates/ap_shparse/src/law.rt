//! What holds of the grammar itself.
ghost use Rattle.std.specs.Prelude.{List, Some, ℕ, ◌++◌, ◌≡◌};
ghost use Rattle.ap_shparse.specs.FrontRules.{IsWholeFront};
ghost use Rattle.ap_shparse.specs.Fronts.{front};
ghost use Rattle.ap_shparse.specs.Grammar.{IsLineFront, IsScript, IsStopped, IsUnstopped, seen};
ghost use Rattle.ap_shparse.specs.ScriptRules.{IsProgram};
ghost use Rattle.ap_shparse.specs.declared.script.Turn.{Turn};
ghost use Rattle.ap_shparse.specs.declared.tree.Chain.{Chain};
ghost use Rattle.ap_shparse.specs.declared.tree.Nul.{Nul};

/// What is read of a text is what the rules of the grammar say that it spells, and what they say is read.
pub fn scripts_are_programs()
    ensures obeys { (n : Nul) (t : List ℕ) (cs : List Chain) → IsScript n t cs → IsProgram n t cs }
    ensures whole { (n : Nul) (t : List ℕ) (cs : List Chain) → IsProgram n t cs → IsScript n t cs }
{}

/// The whole fronts that are read, each with its items, are those that the rules of the grammar have.
pub fn fronts_are_lists()
    ensures obeys { (n : Nul) (a : List ℕ) (ts : List Turn)
        → front (seen n a) ≡ Some ts → IsWholeFront n a ts }
    ensures whole { (n : Nul) (a : List ℕ) (ts : List Turn)
        → IsWholeFront n a ts → front (seen n a) ≡ Some ts }
{}

/// Whole lines without a stopping command, and a text of the grammar behind them, are in the grammar, and the script is
/// the items of both in order. Lines are a whole front that is empty or ends with a newline.
pub fn lines_then_text()
    ensures { (n : Nul) (a b : List ℕ) (cs ds : List Chain)
        → IsLineFront n a cs → IsScript n b ds → IsScript n (a ++ b) (cs ++ ds) }
{}

/// A text that begins with a whole front which has a stopping command is in the grammar, whatever follows, and its script
/// is the items as far as the first such command.
pub fn stopped_fronts_are_scripts()
    ensures { (n : Nul) (a b : List ℕ) (cs : List Chain) → IsStopped n a cs → IsScript n (a ++ b) cs }
{}

/// A whole front without a stopping command is in the grammar, and its script is its items.
pub fn whole_fronts_are_scripts()
    ensures { (n : Nul) (a : List ℕ) (cs : List Chain) → IsUnstopped n a cs → IsScript n a cs }
{}

/// A text has at most one script.
pub fn texts_have_one_script()
    ensures { (n : Nul) (t : List ℕ) (cs ds : List Chain)
        → IsScript n t cs → IsScript n t ds → cs ≡ ds }
{}
