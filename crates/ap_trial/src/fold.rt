// The folds of a trial.
ghost use Rattle.std.specs.Prelude.{◌≡◌, ◌+◌, ◌<◌, ◌^◌, map, replicate};
ghost use Rattle.ap_trial.specs.Folds.{folded, folded_all};

const FACTOR: u64 = 1099511628211;

/// The fold of bytes.
pub(crate) fn fold_bytes(bytes: &[u8]) -> u64
    ensures { result ≡ folded_all 0 bytes.now }
{
    fold_above(0, bytes, 0)
}

// A fold that takes bytes, a number added to each.
#[tactic(auto, using(crate::proofs::FoldLemmas::above_steps))]
pub(crate) fn fold_above(mut h: u64, bytes: &[u8], above: u64) -> u64
    requires { above < 2 ^ 16 }
    ensures { result ≡ folded_all h (map (λ byte. byte + above) bytes.now) }
{
    for byte in bytes {
        h = fold_in(h, u64::from(*byte) + above);
    }
    h
}

// A fold that takes a number so many times.
#[tactic(auto, using(crate::proofs::FoldLemmas::same_steps))]
pub(crate) fn fold_same(mut h: u64, v: u64, count: u64) -> u64
    ensures { result ≡ folded_all h (replicate count v) }
{
    for _ in 0..count {
        h = fold_in(h, v);
    }
    h
}

// A fold that takes a number.
#[tactic(auto, using(crate::proofs::FoldLemmas::wrap_steps))]
fn fold_in(h: u64, v: u64) -> u64
    ensures { result ≡ folded h v }
{
    h.wrapping_mul(FACTOR).wrapping_add(v).wrapping_add(1)
}
