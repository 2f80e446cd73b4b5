// Commands in turn. Each error is want of memory.
ghost use Rattle.std.specs.Prelude.{◌≡◌, IfOk, map};
ghost use Rattle.ap_shell.specs.Meaning as means;

use crate::expand::simple;
use crate::state::State;
use crate::types::{Env, Outcome};
use ap_shparse::{Chain, Joined, Node};
use std::alloc::{AllocError, Global};

/// One command.
#[cycle(lists)]
fn node(
    alloc: Global,
    env: &Env,
    node: &Node,
    state: &mut State,
) -> Result<Option<Outcome>, AllocError>
    ensures { IfOk result (λ o. means.node_meaning env.now node.now state.old ≡ (o, state.new)) }
{
    match node {
        Node::Simple { simple: command } => simple(alloc, env, command, false, state),
        Node::If { test, yes, no } => {
            if let Some(ended) = in_turn(alloc, env, test.as_slice(), state)? {
                return Ok(Some(ended));
            }
            if state.status == 0 {
                branch(alloc, env, yes.as_slice(), state)
            } else {
                branch(alloc, env, no.as_slice(), state)
            }
        }
    }
}

#[cycle(lists)]
fn branch(
    alloc: Global,
    env: &Env,
    all: &[Chain],
    state: &mut State,
) -> Result<Option<Outcome>, AllocError>
    ensures { IfOk result (λ o. means.branch (map (means.chain_meaning env.now) all.now) state.old
        ≡ (o, state.new)) }
{
    if all.is_empty() {
        state.status = 0;
        return Ok(None);
    }
    in_turn(alloc, env, all, state)
}

/// Commands joined by `||` and `&&`.
#[cycle(lists)]
fn chain(
    alloc: Global,
    env: &Env,
    chain: &Chain,
    state: &mut State,
) -> Result<Option<Outcome>, AllocError>
    ensures { IfOk result (λ o. means.chain_meaning env.now chain.now state.old ≡ (o, state.new)) }
{
    if let Some(ended) = node(alloc, env, &chain.first, state)? {
        return Ok(Some(ended));
    }
    joined(alloc, env, chain.rest.as_slice(), state)
}

#[cycle(lists)]
fn joined(
    alloc: Global,
    env: &Env,
    all: &[Joined],
    state: &mut State,
) -> Result<Option<Outcome>, AllocError>
    ensures { IfOk result (λ o. means.joined_on (map (means.joined_meaning env.now) all.now) state.old
        ≡ (o, state.new)) }
{
    for one in all {
        if let Some(ended) = one_joined(alloc, env, one, state)? {
            return Ok(Some(ended));
        }
    }
    Ok(None)
}

fn runs(or: bool, status: u8) -> bool
    ensures { result ≡ means.runs or status }
{
    if or { status != 0 } else { status == 0 }
}

#[cycle(lists)]
fn one_joined(
    alloc: Global,
    env: &Env,
    one: &Joined,
    state: &mut State,
) -> Result<Option<Outcome>, AllocError>
    ensures { IfOk result (λ o. means.one_joined (means.joined_meaning env.now one.now) state.old
        ≡ (o, state.new)) }
{
    if runs(one.or, state.status) {
        return node(alloc, env, &one.node, state);
    }
    Ok(None)
}

/// Items, one after another.
#[cycle(lists)]
pub fn in_turn(
    alloc: Global,
    env: &Env,
    all: &[Chain],
    state: &mut State,
) -> Result<Option<Outcome>, AllocError>
    ensures { IfOk result (λ o. means.in_turn (map (means.chain_meaning env.now) all.now) state.old
        ≡ (o, state.new)) }
{
    for one in all {
        if let Some(ended) = chain(alloc, env, one, state)? {
            return Ok(Some(ended));
        }
    }
    Ok(None)
}
