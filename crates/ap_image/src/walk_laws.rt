// What holds of walks over memories of which one has the bytes of the other.
ghost use Rattle.std.specs.Prelude.{◌≡◌, ℕ, Option, None};
ghost use Rattle.ap_image.specs.Cells.{Memory, StandsIn};
ghost use Rattle.ap_image.specs.ImportWalk.{items_of};
ghost use Rattle.ap_image.specs.Imports.{imports_of};
ghost use Rattle.ap_image.specs.declared.import_step.Ending.TheVariants as ends;

/// A walk that ends at the entry which closes the table gives the same items, with the same names, without an end of the table,
/// and where other bytes stand beside those of the memory.
#[tactic(auto, using(crate::proofs::WalksAlike::alike_steps))]
pub fn walks_alike()
    ensures items { (memory other : Memory) (base table : ℕ) (end : Option ℕ) →
        StandsIn memory other → (items_of memory base table end).ending ≡ ends.Done
        → items_of other base table None ≡ items_of memory base table end }
    ensures imports { (memory other : Memory) (base table : ℕ) (end : Option ℕ) →
        StandsIn memory other → (items_of memory base table end).ending ≡ ends.Done
        → imports_of other (items_of other base table None) ≡ imports_of memory (items_of memory base table end) }
{}
