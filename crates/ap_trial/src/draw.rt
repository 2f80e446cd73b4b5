// The bytes of a number's sequence.
ghost use Rattle.std.specs.Prelude.{◌≡◌, ◌++◌, OnOk};
ghost use Rattle.ap_trial.specs.Draws.{next_of, byte_of, stepped, drawn};

use std::alloc::AllocError;

const FACTOR: u64 = 6364136223846793005;

const SUMMAND: u64 = 1442695040888963407;

// Appends so many bytes of the sequence behind a number, and goes on to the last number that was taken.
#[tactic(auto, using(std::proofs::Common::append_assoc, crate::proofs::DrawLemmas::draw_steps))]
pub(crate) fn push_drawn(out: &mut Vec<u8>, x: &mut u64, count: u64) -> Result<(), AllocError>
    ensures bytes { OnOk result (out.new.items ≡ out.old.items ++ drawn x.old count) }
    ensures last { OnOk result (x.new ≡ stepped x.old count) }
{
    for _ in 0..count {
        *x = next(*x);
        out.push(byte(*x))?;
    }
    Ok(())
}

fn next(x: u64) -> u64
    ensures { result ≡ next_of x }
{
    x.wrapping_mul(FACTOR).wrapping_add(SUMMAND)
}

fn byte(x: u64) -> u8
    ensures { result ≡ byte_of x }
{
    (x >> 56) as u8
}
