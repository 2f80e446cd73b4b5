// Runs: regions that touch and have equal permissions, as one.
ghost use Rattle.std.specs.Prelude.{◌≡◌, ℕ, IfOk};
ghost use Rattle.ap_image.specs.Plans.{AreAscendingFrom};
ghost use Rattle.ap_image.specs.Runs as spec;
ghost use Rattle.ap_image.specs.Runs.{runs_of, AreApart, perms_in, perms_at};

use crate::plan::{Plan, Region};
use ap_fields::Perms;
use ap_files::NoMemory;
use std::alloc::{AllocError, Global};

/// Addresses with equal permissions.
#[derive(Clone, Copy, PartialEq, Eq, Debug)]
pub struct Run {
    /// The first address.
    pub start: u64,
    /// How many addresses there are.
    pub length: u64,
    pub perms: Perms,
}

/// The runs of a plan: its regions in order, where regions that touch and have equal permissions are joined.
#[tactic(auto, using(crate::proofs::RunLemmas::run_steps))]
pub fn runs(alloc: Global, plan: &Plan) -> Result<Vec<Run>, NoMemory>
    ensures joined { IfOk result (λ runs. runs.items ≡ runs_of plan.now.regions) }
    ensures addresses { IfOk result
        (λ runs. (a : ℕ) → perms_in runs.items a ≡ perms_at plan.now.regions a) }
    ensures apart { IfOk result (λ runs. AreApart runs.items) }
{
    joined(alloc, plan.regions.as_slice()).map_err(|_| NoMemory)
}

/// The runs of regions.
#[tactic(auto, using(std::proofs::Common::append_assoc, crate::proofs::RunLemmas::run_bounds))]
pub(crate) fn joined(alloc: Global, regions: &[Region]) -> Result<Vec<Run>, AllocError>
    requires { AreAscendingFrom 0 regions.now }
    ensures { IfOk result (λ runs. runs.items ≡ runs_of regions.now) }
{
    let mut runs = Vec::new(alloc);
    let Some((first, rest)) = regions.split_first() else {
        return Ok(runs);
    };
    let mut run = run_of(first);
    for r in rest {
        if continues(&run, r) {
            run.length += r.span;
        } else {
            runs.push(run)?;
            run = run_of(r);
        }
    }
    runs.push(run)?;
    Ok(runs)
}

fn run_of(r: &Region) -> Run
    ensures { result ≡ spec.run_of r.now }
{
    Run {
        start: r.start,
        length: r.span,
        perms: r.perms,
    }
}

// Whether a region begins where a run ends, and has its permissions.
fn continues(run: &Run, r: &Region) -> bool
    ensures { result ≡ spec.continues run.now r.now }
{
    run.start <= r.start && r.start - run.start == run.length && run.perms == r.perms
}
