// The notes of an input.
ghost use Rattle.std.specs.Prelude.{◌≡◌, ◌++◌, ◌∷◌, [], take, filter};
ghost use Rattle.ap_check.specs.Inputs as spec;

use crate::load::Load;
use crate::part::in_part;
use ap_elf::Entry;
use ap_elf::constants::PT_NOTE;
use arrayvec::ArrayVec;

/// The first five entries of type `PT_NOTE` that have bytes, all of them in the file part of one load.
#[tactic(auto, using(crate::proofs::Firsts::first_steps))]
pub fn notes(entries: &[Entry], loads: &[Load]) -> ArrayVec<Entry, 5>
    ensures { result.items ≡ take 5 (filter (spec.is_note loads.now) entries.now) }
{
    let mut notes = ArrayVec::new();
    for p in entries {
        if is_note(p, loads) {
            keep(&mut notes, p);
        }
    }
    notes
}

// Keeps a note, where there is room.
#[tactic(auto, using(crate::proofs::Firsts::first_steps))]
fn keep(notes: &mut ArrayVec<Entry, 5>, p: &Entry)
    ensures { notes.new.items ≡ take 5 (notes.old.items ++ p.now ∷ []) }
{
    if !notes.is_full() {
        notes.push(*p);
    }
}

fn is_note(p: &Entry, loads: &[Load]) -> bool
    ensures { result ≡ spec.is_note loads.now p.now }
{
    p.kind == PT_NOTE && p.filesz != 0 && in_part(loads, p.vaddr, p.filesz)
}
