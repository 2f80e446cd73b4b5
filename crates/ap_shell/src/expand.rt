// Words, redirections, assignments and simple commands. Each error is want of memory.
ghost use Rattle.std.specs.Prelude.{◌≡◌, IfOk, OnOk, Some, map};
ghost use Rattle.ap_shell.specs.Simples as simples;
ghost use Rattle.ap_shell.specs.Words as texts;
ghost use Rattle.ap_shell.specs.Redirecting as routing;
ghost use Rattle.ap_shell.specs.Obeying as obeying;

use crate::copies::{copy, copy_vars, copy_words, decimal, trimmed, unless_empty, value_of};
use crate::obey::{assign, fail, obey, obey_plain};
use crate::redirect::{open_emptied, open_ensured, open_there, plainly, same};
use crate::state::{Routes, State};
use crate::types::{Env, Outcome};
use ap_shparse::{Assign, Part, Redirection, Simple, Target, Word};
use sqlite_items::Items;
use std::alloc::{AllocError, Global};
use std::mem;

/// What a part gives.
#[cycle(expand)]
pub fn part(
    alloc: Global,
    env: &Env,
    part: &Part,
    state: &mut State,
) -> Result<Items<u8>, AllocError>
    ensures { IfOk result (λ t. simples.part_meaning env.now part.now state.old ≡ (t, state.new)) }
{
    match part {
        Part::Text { bytes } => copy(alloc, bytes.as_slice()),
        Part::Variable { name } => value_of(alloc, name.as_slice(), state.vars.as_slice()),
        Part::Fallback { name, other } => {
            let value = value_of(alloc, name.as_slice(), state.vars.as_slice())?;
            unless_empty(alloc, value, other.as_slice())
        }
        Part::Zero => copy(alloc, env.zero.as_slice()),
        Part::Process => decimal(alloc, env.pid),
        Part::Output { simple } => within(alloc, env, simple, state),
    }
}

/// What a `$(..)` prints.
#[cycle(expand)]
fn within(
    alloc: Global,
    env: &Env,
    command: &Simple,
    state: &mut State,
) -> Result<Items<u8>, AllocError>
    ensures { IfOk result (λ t. texts.within (simples.simple_meaning env.now command.now) state.old
        ≡ (t, state.new)) }
{
    let vars = copy_vars(alloc, state.vars.as_slice())?;
    let status = state.status;
    let out = mem::replace(&mut state.host.out, Items::new(alloc));
    let _ended = simple(alloc, env, command, true, state)?;
    let printed = mem::replace(&mut state.host.out, out);
    state.inner = state.status;
    state.status = status;
    state.vars = vars;
    trimmed(alloc, printed.as_slice())
}

/// The parts of a word, joined.
#[cycle(expand)]
fn joined(
    alloc: Global,
    env: &Env,
    parts: &[Part],
    state: &mut State,
) -> Result<Items<u8>, AllocError>
    ensures { IfOk result (λ t. texts.joined (map (simples.part_meaning env.now) parts.now) state.old
        ≡ (t, state.new)) }
{
    let mut text = Items::new(alloc);
    for one in parts {
        text.append(part(alloc, env, one, state)?)?;
    }
    Ok(text)
}

/// What a word gives.
#[cycle(expand)]
fn word(
    alloc: Global,
    env: &Env,
    word: &Word,
    state: &mut State,
) -> Result<Items<Items<u8>>, AllocError>
    ensures { IfOk result (λ t. simples.word_meaning env.now word.now state.old ≡ (t, state.new)) }
{
    match word {
        Word::Args => copy_words(alloc, env.args.as_slice()),
        Word::Parts { parts } => {
            let text = joined(alloc, env, parts.as_slice(), state)?;
            let mut words = Items::new(alloc);
            words.push(text)?;
            Ok(words)
        }
    }
}

/// What some words give.
#[cycle(expand)]
fn listed(
    alloc: Global,
    env: &Env,
    words: &[Word],
    state: &mut State,
) -> Result<Items<Items<u8>>, AllocError>
    ensures { IfOk result (λ t. texts.listed (map (simples.word_meaning env.now) words.now) state.old
        ≡ (t, state.new)) }
{
    let mut out = Items::new(alloc);
    for one in words {
        out.append(word(alloc, env, one, state)?)?;
    }
    Ok(out)
}

/// What a redirection makes of the routes, or none where it fails.
#[cycle(expand)]
fn target(
    alloc: Global,
    env: &Env,
    to: &Target,
    number: u8,
    routes: Routes,
    state: &mut State,
) -> Result<Option<Routes>, AllocError>
    ensures { IfOk result (λ o. simples.target_meaning env.now to.now number routes state.old
        ≡ (o, state.new)) }
{
    match to {
        Target::Write { word: w } => {
            let words = word(alloc, env, w, state)?;
            open_emptied(alloc, number, words, routes, state)
        }
        Target::Both { word: w } => {
            let words = word(alloc, env, w, state)?;
            open_ensured(alloc, number, words, routes, state)
        }
        Target::Read { word: w } => {
            let words = word(alloc, env, w, state)?;
            open_there(alloc, words, routes, state)
        }
        Target::Same { number: from } => same(alloc, number, *from, routes),
        Target::Here { .. } => Ok(Some(routes)),
    }
}

/// The redirections of a command, or none where one fails.
#[cycle(expand)]
fn redirected(
    alloc: Global,
    env: &Env,
    all: &[Redirection],
    first: Routes,
    state: &mut State,
) -> Result<Option<Routes>, AllocError>
    ensures { IfOk result (λ o. routing.redirected (map (simples.redirection_meaning env.now) all.now) first state.old
        ≡ (o, state.new)) }
{
    let mut routes = first;
    for one in all {
        match target(alloc, env, &one.to, one.number, routes, state)? {
            None => return Ok(None),
            Some(next) => routes = next,
        }
    }
    Ok(Some(routes))
}

/// The assignments of a command.
#[cycle(expand)]
fn assigned(alloc: Global, env: &Env, all: &[Assign], state: &mut State) -> Result<(), AllocError>
    ensures { OnOk result (obeying.assigned (map (simples.assign_meaning env.now) all.now) state.old
        ≡ state.new) }
{
    for one in all {
        let words = word(alloc, env, &one.value, state)?;
        assign(alloc, one.name.as_slice(), words, state)?;
    }
    Ok(())
}

/// A command's assignments, and then the command.
#[cycle(expand)]
fn performed(
    alloc: Global,
    env: &Env,
    inside: bool,
    assigns: &[Assign],
    words: &[Items<u8>],
    routes: Routes,
    state: &mut State,
) -> Result<Option<Outcome>, AllocError>
    ensures { IfOk result (λ o. obeying.performed env.now inside
        (map (simples.assign_meaning env.now) assigns.now) words.now (Some routes) state.old
        ≡ (o, state.new)) }
{
    // Nothing is put back then, and so nothing is copied.
    if assigns.is_empty() || words.is_empty() {
        assigned(alloc, env, assigns, state)?;
        return obey_plain(alloc, env, inside, words, routes, state);
    }
    let before = copy_vars(alloc, state.vars.as_slice())?;
    assigned(alloc, env, assigns, state)?;
    obey(alloc, env, inside, before, words, routes, state)
}

/// A simple command.
#[cycle(expand)]
pub fn simple(
    alloc: Global,
    env: &Env,
    command: &Simple,
    inside: bool,
    state: &mut State,
) -> Result<Option<Outcome>, AllocError>
    ensures { IfOk result (λ o. simples.simple_meaning env.now command.now inside state.old
        ≡ (o, state.new)) }
{
    state.inner = 0;
    let redirections = command.redirections.as_slice();
    let words = listed(alloc, env, command.words.as_slice(), state)?;
    let opened = redirected(alloc, env, redirections, plainly(), state)?;
    match opened {
        None => Ok(fail(inside, words.as_slice(), state)),
        Some(routes) => {
            let assigns = command.assigns.as_slice();
            performed(alloc, env, inside, assigns, words.as_slice(), routes, state)
        }
    }
}
