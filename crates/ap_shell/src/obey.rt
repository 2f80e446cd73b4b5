// A command, once its words, redirections and assignments are done. Each error is want of memory.
ghost use Rattle.std.specs.Prelude.{◌≡◌, IfOk, OnOk};
ghost use Rattle.ap_shell.specs.Places.{file_at};
ghost use Rattle.ap_shell.specs.Obeying as spec;

use crate::copies::{as_one, copy};
use crate::done::Done;
use crate::effect::done_by;
use crate::map::{Files, HostFile};
use crate::names::{Command, command_of, is_special, is_utility, keeps};
use crate::places::{NEW_MODE, file_at, with_file};
use crate::state::{Routes, Sink, State, Variable};
use crate::types::{Env, Host, Outcome};
use sqlite_items::Items;
use std::alloc::{AllocError, Global};

/// Sets a variable to what its word gave.
pub fn assign(
    alloc: Global,
    name: &[u8],
    words: Items<Items<u8>>,
    state: &mut State,
) -> Result<(), AllocError>
    ensures { OnOk result (state.new ≡ spec.name_to name.now (words, state.old)) }
{
    let value = as_one(alloc, words.as_slice())?;
    let name = copy(alloc, name)?;
    state.vars.push(Variable { name, value })
}

/// The command, after its assignments. `before` are the variables before them.
pub fn obey(
    alloc: Global,
    env: &Env,
    inside: bool,
    before: Items<Variable>,
    words: &[Items<u8>],
    routes: Routes,
    state: &mut State,
) -> Result<Option<Outcome>, AllocError>
    ensures { IfOk result (λ o. spec.obeyed env.now inside before words.now routes state.old
        ≡ (o, state.new)) }
{
    let [name, more @ ..] = words else {
        state.status = state.inner;
        return Ok(None);
    };
    let command = command_of(inside, name.as_slice());
    let ended = call(alloc, env, inside, command, more, routes, state)?;
    if !keeps(command) {
        state.vars = before;
    }
    Ok(ended)
}

/// The command, where no variable is put back after it.
pub fn obey_plain(
    alloc: Global,
    env: &Env,
    inside: bool,
    words: &[Items<u8>],
    routes: Routes,
    state: &mut State,
) -> Result<Option<Outcome>, AllocError>
    ensures { IfOk result (λ o. spec.obeyed env.now inside state.old.vars words.now routes state.old
        ≡ (o, state.new)) }
{
    let [name, more @ ..] = words else {
        state.status = state.inner;
        return Ok(None);
    };
    let command = command_of(inside, name.as_slice());
    call(alloc, env, inside, command, more, routes, state)
}

/// What a redirection that failed leaves.
pub fn fail(inside: bool, words: &[Items<u8>], state: &mut State) -> Option<Outcome>
    ensures { spec.failed inside words.now state.old ≡ (result, state.new) }
{
    if let Some(name) = words.first() {
        if !inside && is_special(command_of(inside, name.as_slice())) {
            return Some(Outcome::Exits { status: 1 });
        }
    }
    state.status = 1;
    None
}

fn call(
    alloc: Global,
    env: &Env,
    inside: bool,
    command: Option<Command>,
    words: &[Items<u8>],
    routes: Routes,
    state: &mut State,
) -> Result<Option<Outcome>, AllocError>
    ensures { IfOk result (λ o. spec.called env.now inside command words.now routes state.old
        ≡ (o, state.new)) }
{
    let Some(command) = command else {
        state.status = 127;
        return Ok(None);
    };
    if is_utility(command) {
        state.calls = state.calls.saturating_add(1);
        if is_failing(env, state.calls) {
            state.status = 1;
            return Ok(None);
        }
    }
    let done = done_by(
        alloc,
        env,
        inside,
        command,
        words,
        state.status,
        &mut state.host.files,
    )?;
    leave(alloc, routes, done, state)
}

fn is_failing(env: &Env, call: u64) -> bool
    ensures { result ≡ spec.is_failing env.now call }
{
    env.fails.as_slice().iter().any(|k| *k as u64 == call)
}

// What a command leaves of output and status, beside the files.
fn leave(
    alloc: Global,
    routes: Routes,
    done: Done,
    state: &mut State,
) -> Result<Option<Outcome>, AllocError>
    ensures { IfOk result (λ o. spec.left_by routes (done, state.old.host.files) state.old
        ≡ (o, state.new)) }
{
    let Done {
        status,
        printed,
        outcome,
    } = done;
    deliver(alloc, &routes.one, printed, &mut state.host)?;
    state.status = status;
    Ok(outcome)
}

fn deliver(alloc: Global, sink: &Sink, text: Items<u8>, host: &mut Host) -> Result<(), AllocError>
    ensures { OnOk result (host.new ≡ spec.delivered sink.now text host.old) }
{
    if text.is_empty() {
        return Ok(());
    }
    match sink {
        Sink::Enclosing => host.out.append(text),
        Sink::Into { name } => overwrite(alloc, name.as_slice(), text, &mut host.files),
        Sink::Nowhere => Ok(()),
    }
}

fn overwrite(
    alloc: Global,
    name: &[u8],
    text: Items<u8>,
    files: &mut Files,
) -> Result<(), AllocError>
    ensures { OnOk result (files.new
        ≡ spec.overwritten name.now (file_at name.now files.old) text files.old) }
{
    let (old, mode) = match file_at(alloc, name, files)? {
        Some(file) => (file.bytes, file.mode),
        None => (Items::new(alloc), NEW_MODE),
    };
    let mut bytes = text;
    let kept = old.len().min(bytes.len());
    bytes.append(copy(alloc, &old.as_slice()[kept..])?)?;
    with_file(alloc, name, HostFile { bytes, mode }, files)
}
