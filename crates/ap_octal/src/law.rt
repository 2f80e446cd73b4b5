// What holds of octal text and of `dd` themselves.
ghost use Rattle.std.specs.Prelude.{◌≡◌, ◌+◌, ◌*◌, ◌<◌, ◌≤◌, ◌↔◌, ℕ, Bool, true, if◌then◌else◌, List, take, drop, length, Some};
ghost use Rattle.std.specs.List.{All};
ghost use Rattle.ap_fields.specs.Bytes.{over};
ghost use Rattle.ap_octal.specs.DdEffect.{dd_effect};
ghost use Rattle.ap_octal.specs.OctalText.{IsOctal};
ghost use Rattle.ap_octal.specs.OctalReading.{octal_bytes_of};
ghost use Rattle.ap_octal.specs.Statement.{octals_of};

/// A text stands for at most one list of bytes.
pub fn octal_texts_are_exact()
    ensures { (text a b : List ℕ) → IsOctal text a → IsOctal text b → a ≡ b }
{}

/// What stands between the quotes of a canonical statement is octal text of its bytes.
pub fn statements_are_octal()
    ensures { (header : List ℕ) → All (λ c. c < 256) header → IsOctal (octals_of header) header }
{}

/// What is read of a text from left to right is what it stands for.
pub fn octal_texts_are_read()
    ensures { (text bytes : List ℕ) → IsOctal text bytes ↔ octal_bytes_of text ≡ Some bytes }
{}

/// `dd` from a file onto itself, whose skipped and copied blocks the file has: the copied blocks stand over the file's
/// front, and the rest stays.
pub fn dd_moves_a_file_to_its_front()
    ensures { (size skip count : ℕ) (file : List ℕ) → 0 < size → (skip + count) * size ≤ length file
        → dd_effect true size skip count file file
        ≡ over file (take (count * size) (drop (skip * size) file)) }
{}

/// `dd` that skips all of its input changes nothing.
pub fn dd_past_the_end_does_nothing()
    ensures { (itself : Bool) (size skip count : ℕ) (input output : List ℕ)
        → length (if itself then output else input) ≤ skip * size
        → dd_effect itself size skip count input output ≡ output }
{}
