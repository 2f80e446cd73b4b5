// Where outputs go. Each error is want of memory.
ghost use Rattle.std.specs.Prelude.{◌≡◌, IfOk, OnOk, Some};
ghost use Rattle.ap_shell.specs.Places.{file_at};
ghost use Rattle.ap_shell.specs.Redirecting as spec;

use crate::copies::{as_one, copy};
use crate::map::HostFile;
use crate::places::{NEW_MODE, is_null, mode_at, with_file};
use crate::state::{Routes, Sink, State};
use sqlite_items::Items;
use std::alloc::{AllocError, Global};

/// `>`, with what its word gave.
pub fn open_emptied(
    alloc: Global,
    number: u8,
    words: Items<Items<u8>>,
    routes: Routes,
    state: &mut State,
) -> Result<Option<Routes>, AllocError>
    ensures { IfOk result (λ o. spec.opens_emptied number words routes state.old ≡ (o, state.new)) }
{
    let name = as_one(alloc, words.as_slice())?;
    make_empty(alloc, name.as_slice(), state)?;
    opened(alloc, number, name.as_slice(), routes)
}

/// `<>`, with what its word gave.
pub fn open_ensured(
    alloc: Global,
    number: u8,
    words: Items<Items<u8>>,
    routes: Routes,
    state: &mut State,
) -> Result<Option<Routes>, AllocError>
    ensures { IfOk result (λ o. spec.opens_ensured number words routes state.old ≡ (o, state.new)) }
{
    let name = as_one(alloc, words.as_slice())?;
    ensure(alloc, name.as_slice(), state)?;
    opened(alloc, number, name.as_slice(), routes)
}

/// `<`, with what its word gave.
pub fn open_there(
    alloc: Global,
    words: Items<Items<u8>>,
    routes: Routes,
    state: &State,
) -> Result<Option<Routes>, AllocError>
    ensures { IfOk result (λ o. spec.opens_there words routes state.now ≡ (o, state.now)) }
{
    let name = as_one(alloc, words.as_slice())?;
    Ok(only_there(name.as_slice(), routes, state))
}

/// `>&`.
pub fn same(
    alloc: Global,
    number: u8,
    from: u8,
    routes: Routes,
) -> Result<Option<Routes>, AllocError>
    ensures { IfOk result (λ o. o ≡ Some (spec.routed number (spec.source_of from routes) routes)) }
{
    let sink = if from == 1 {
        copy_sink(alloc, &routes.one)?
    } else {
        copy_sink(alloc, &routes.two)?
    };
    Ok(Some(routed(number, sink, routes)))
}

/// Where the outputs go without a redirection.
pub fn plainly() -> Routes
    ensures { result ≡ spec.plainly }
{
    Routes {
        one: Sink::Enclosing,
        two: Sink::Nowhere,
    }
}

fn make_empty(alloc: Global, name: &[u8], state: &mut State) -> Result<(), AllocError>
    ensures { OnOk result (state.new ≡ spec.with_files (spec.emptied name.now) state.old) }
{
    let mode = mode_at(name, &state.host.files).unwrap_or(NEW_MODE);
    let bytes = Items::new(alloc);
    with_file(alloc, name, HostFile { bytes, mode }, &mut state.host.files)
}

fn ensure(alloc: Global, name: &[u8], state: &mut State) -> Result<(), AllocError>
    ensures { OnOk result (state.new ≡ spec.with_files
        (spec.ensured (file_at name.now state.old.host.files) name.now) state.old) }
{
    if mode_at(name, &state.host.files).is_some() {
        return Ok(());
    }
    let file = HostFile {
        bytes: Items::new(alloc),
        mode: NEW_MODE,
    };
    with_file(alloc, name, file, &mut state.host.files)
}

fn only_there(name: &[u8], routes: Routes, state: &State) -> Option<Routes>
    ensures { (result, state.now)
        ≡ spec.only_there (file_at name.now state.now.host.files) routes state.now }
{
    match mode_at(name, &state.host.files) {
        None => None,
        Some(_) => Some(routes),
    }
}

fn opened(
    alloc: Global,
    number: u8,
    name: &[u8],
    routes: Routes,
) -> Result<Option<Routes>, AllocError>
    ensures { IfOk result (λ o. o ≡ spec.opened number name.now routes) }
{
    let sink = sink_of(alloc, name)?;
    Ok(Some(routed(number, sink, routes)))
}

fn routed(number: u8, sink: Sink, routes: Routes) -> Routes
    ensures { result ≡ spec.routed number sink routes }
{
    let Routes { one, two } = routes;
    if number == 1 {
        Routes { one: sink, two }
    } else if number == 2 {
        Routes { one, two: sink }
    } else {
        Routes { one, two }
    }
}

fn sink_of(alloc: Global, name: &[u8]) -> Result<Sink, AllocError>
    ensures { IfOk result (λ s. s ≡ spec.sink_of name.now) }
{
    if is_null(name) {
        return Ok(Sink::Nowhere);
    }
    let name = copy(alloc, name)?;
    Ok(Sink::Into { name })
}

fn copy_sink(alloc: Global, sink: &Sink) -> Result<Sink, AllocError>
    ensures { IfOk result (λ s. s ≡ sink.now) }
{
    match sink {
        Sink::Enclosing => Ok(Sink::Enclosing),
        Sink::Nowhere => Ok(Sink::Nowhere),
        Sink::Into { name } => {
            let name = copy(alloc, name.as_slice())?;
            Ok(Sink::Into { name })
        }
    }
}
