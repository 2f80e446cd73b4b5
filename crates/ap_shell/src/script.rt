// A script, from its start to its end.
ghost use Rattle.std.specs.Prelude.{◌≡◌, IfOk};
ghost use Rattle.ap_shell.specs.Meaning as means;
ghost use Rattle.ap_shell.specs.Runs.{Runs};

use crate::copies::copy;
use crate::lists::in_turn;
use crate::map::Files;
use crate::state::{State, Variable};
use crate::types::{Env, Host, Outcome};
use ap_shparse::{Nul, Script, ShellFault, parse};
use sqlite_items::Items;
use std::alloc::{AllocError, Global};
use std::mem;

/// Runs a text as a script: its outcome, and the host afterwards, are those of the meaning of the script that the shell
/// grammar gives it.
///
/// `Outside`: the text isn't in the grammar, by `parse`. The host is as it was.
/// `NoMemory`: the script couldn't be held, or what it makes. Nothing is said of the host.
pub fn run_script(
    alloc: Global,
    text: &[u8],
    nul: Nul,
    env: &Env,
    host: &mut Host,
) -> Result<Outcome, ShellFault>
    ensures { Runs nul text.now env.now host.old result host.new }
{
    let script = parse(alloc, text, nul)?;
    match run(alloc, &script, env, host) {
        Ok(outcome) => Ok(outcome),
        Err(_) => Err(ShellFault::NoMemory),
    }
}

/// Runs a script: the outcome and the host afterwards are those of its meaning. An error is want of memory, after which
/// nothing is said of the host.
#[tactic(auto, unfolding(crate::specs::Meaning::shell_meaning))]
pub fn run(
    alloc: Global,
    script: &Script,
    env: &Env,
    host: &mut Host,
) -> Result<Outcome, AllocError>
    ensures { IfOk result (λ o. means.shell_meaning env.now script.now.items host.old
        ≡ (o, host.new)) }
{
    let mut state = start(alloc, env, host)?;
    let ended = in_turn(alloc, env, script.items.as_slice(), &mut state)?;
    Ok(finish(ended, state, host))
}

// The state at a script's start, which has the host from then on.
fn start(alloc: Global, env: &Env, host: &mut Host) -> Result<State, AllocError>
    ensures { IfOk result (λ s. s ≡ means.started env.now host.old) }
{
    let vars = at_first(alloc, &env.tmpdir)?;
    let files = mem::replace(&mut host.files, Files::new(alloc));
    let out = mem::replace(&mut host.out, Items::new(alloc));
    Ok(State {
        vars,
        host: Host { files, out },
        status: 0,
        calls: 0,
        inner: 0,
    })
}

// TMPDIR, where it is set.
fn at_first(alloc: Global, tmpdir: &Option<Items<u8>>) -> Result<Items<Variable>, AllocError>
    ensures { IfOk result (λ v. v ≡ means.at_first tmpdir.now) }
{
    let mut vars = Items::new(alloc);
    if let Some(value) = tmpdir {
        let name = copy(alloc, b"TMPDIR")?;
        let value = copy(alloc, value.as_slice())?;
        vars.push(Variable { name, value })?;
    }
    Ok(vars)
}

// The outcome at a script's end, after which the host is given back.
fn finish(ended: Option<Outcome>, state: State, host: &mut Host) -> Outcome
    ensures { means.finished (ended, state) ≡ (result, host.new) }
{
    *host = state.host;
    match ended {
        Some(outcome) => outcome,
        None => Outcome::Exits {
            status: state.status,
        },
    }
}
