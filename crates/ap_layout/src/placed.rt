// The inputs of a job with the places of their parts.
ghost use Rattle.std.specs.Prelude.{◌≡◌, ◌+◌, ◌<◌, ◌≤◌, ◌∷◌, length, drop, IfSome};
ghost use Rattle.std.specs.Option.{option_map};
ghost use Rattle.ap_layout.specs.Positions.{Fits, placed_inputs};
ghost use Rattle.ap_elf.specs.Machines.{is_machine};
ghost use Rattle.ap_layout.specs.Jobs as spec;
ghost use Rattle.ap_layout.specs.Jobs.{job_inputs, placed_of, IsKnown};

use crate::layout::Layout;
use crate::placement::Placement;
use ap_check::{Input, Job, Machine};

/// How many inputs a job has.
pub fn input_count(job: &Job<'_>) -> usize
    ensures count { result ≡ length (job_inputs job.now) }
    ensures few { result ≤ 2 }
{
    match job.second {
        None => 1,
        Some(_) => 2,
    }
}

/// Input `i`, counted from 0, with its places.
pub fn placed_input<'i, 'l>(job: &Job<'i>, lay: &'l Layout, i: usize) -> Placement<'i, 'l>
    requires input { i < length (job_inputs job.now) }
    requires fits { Fits job.now.options (job_inputs job.now) lay.now }
    ensures next { drop i (placed_inputs (job_inputs job.now) lay.now) ≡ placed_of result
        ∷ drop (i + 1) (placed_inputs (job_inputs job.now) lay.now) }
    ensures known { IsKnown (placed_of result) }
{
    Placement {
        input: input_at(job, i),
        areas: &lay.areas[i],
        table: lay.tables[i],
    }
}

/// The first input for a machine, with its places.
pub fn placed_for<'i, 'l>(
    job: &Job<'i>,
    lay: &'l Layout,
    machine: Machine,
) -> Option<Placement<'i, 'l>>
    requires { Fits job.now.options (job_inputs job.now) lay.now }
    ensures place { option_map placed_of result
        ≡ spec.placed_for machine (placed_inputs (job_inputs job.now) lay.now) }
    ensures known { IfSome result (λ p. IsKnown (placed_of p)) }
{
    for i in 0..input_count(job) {
        let p = placed_input(job, lay, i);
        if is_for(p.input, machine) {
            return Some(p);
        }
    }
    None
}

fn is_for(input: &Input, machine: Machine) -> bool
    ensures { result ≡ is_machine machine input.now.machine }
{
    input.machine == machine
}

// Input `i`, counted from 0.
fn input_at<'a>(job: &Job<'a>, i: usize) -> &'a Input
    requires { i < length (job_inputs job.now) }
    ensures { drop i (job_inputs job.now) ≡ result.now ∷ drop (i + 1) (job_inputs job.now) }
{
    match job.second {
        Some(second) if i == 1 => second,
        _ => job.first,
    }
}
