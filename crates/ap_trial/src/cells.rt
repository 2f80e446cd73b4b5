// The fold of the cells that a plan has at the addresses of loads.
ghost use Rattle.std.specs.Prelude.{◌≡◌, ℕ, ◌+◌, ◌-◌, ◌<◌, ◌≤◌, length, None};
ghost use Rattle.ap_image.specs.Plans.{cell_in};
ghost use Rattle.ap_trial.specs.Folds.{folded_all, cells_of, cell_numbers, piece_numbers, fold_over};

use crate::fold::{fold_above, fold_same};
use ap_elf::Entry;
use ap_image::{Image, Perms, Piece, Plan};
use bitflags::Flags;

// The fold of what a plan has at all addresses of loads, in their order.
#[tactic(auto, using(crate::proofs::CellLemmas::load_steps))]
pub(crate) fn fold_image(image: &Image<'_>, loads: &[Entry]) -> u64
    ensures { result ≡ fold_over (cells_of image.now) 0 loads.now }
{
    let mut h = 0;
    for load in loads {
        h = fold_span(image, h, load.vaddr, load.memsz);
    }
    h
}

// A fold that takes the cells at so many addresses.
fn fold_span(image: &Image<'_>, h: u64, a: u64, count: u64) -> u64
    ensures { result ≡ folded_all h (cell_numbers (cells_of image.now) a count) }
{
    let end = stop(image, a, count);
    let h = fold_pieces(image, h, a, end);
    fold_same(h, 0, count - (end - a))
}

// The address behind so many, or one that no region reaches, if it comes first.
fn stop(image: &Image<'_>, a: u64, count: u64) -> u64
    ensures from { a ≤ result }
    ensures most { result ≤ a + count }
    ensures bare { (b : ℕ) → result ≤ b → b < a + count → cells_of image.now b ≡ None }
{
    let end = a.saturating_add(count);
    end.min(top(image.plan()).max(a))
}

// The address behind all regions.
fn top(plan: &Plan) -> u64
    ensures { (byte : ℕ → ℕ) → (a : ℕ) → result ≤ a → cell_in byte plan.now.regions a ≡ None }
{
    match plan.regions.as_slice().last() {
        Some(r) => r.start + r.span,
        None => 0,
    }
}

// A fold that takes the cells from one address up to another, piece by piece.
fn fold_pieces(image: &Image<'_>, mut h: u64, a: u64, end: u64) -> u64
    requires { a ≤ end }
    ensures { result ≡ folded_all h (cell_numbers (cells_of image.now) a (end - a)) }
{
    let mut at = a;
    while at < end {
        let piece = piece_at(image, at, end - at);
        h = fold_piece(h, &piece);
        at += piece.bytes.len() as u64 + piece.zeros;
    }
    h
}

// The piece at an address. What no region has counts as one zero with no permissions.
fn piece_at<'f>(image: &Image<'f>, a: u64, most: u64) -> Piece<'f>
    requires { 0 < most }
    ensures some { 0 < length result.bytes.now + result.zeros }
    ensures most { length result.bytes.now + result.zeros ≤ most }
    ensures numbers { cell_numbers (cells_of image.now) a (length result.bytes.now + result.zeros) ≡
        piece_numbers result }
{
    match image.piece(a, most) {
        Some(piece) => piece,
        None => Piece {
            bytes: b"",
            zeros: 1,
            perms: Perms::from_bits_retain(0),
        },
    }
}

// A fold that takes the cells of a piece.
fn fold_piece(h: u64, piece: &Piece<'_>) -> u64
    ensures { result ≡ folded_all h (piece_numbers piece.now) }
{
    let above = 256 * u64::from(piece.perms.bits());
    let h = fold_above(h, piece.bytes, above);
    fold_same(h, above, piece.zeros)
}
