// A script as text: each item with a `;` behind it; assignments and redirections with a space behind each.
use ap_shparse::{Chain, Node, Part, Redirection, Script, Simple, Target, Word};
use std::alloc::{AllocError, Global};

pub(super) fn show(alloc: Global, script: &Script) -> Result<Vec<u8>, AllocError> {
    let mut out = Vec::new(alloc);
    show_chains(&mut out, script.items.as_slice())?;
    Ok(out)
}

#[cycle(chains)]
fn show_chains(out: &mut Vec<u8>, chains: &[Chain]) -> Result<(), AllocError> {
    for chain in chains {
        show_chain(out, chain)?;
    }
    Ok(())
}

#[cycle(chains)]
fn show_chain(out: &mut Vec<u8>, chain: &Chain) -> Result<(), AllocError> {
    show_node(out, &chain.first)?;
    for joined in chain.rest.as_slice() {
        out.extend_from_slice(if joined.or { b"||" } else { b"&&" })?;
        show_node(out, &joined.node)?;
    }
    out.extend_from_slice(b";")
}

#[cycle(chains)]
fn show_node(out: &mut Vec<u8>, node: &Node) -> Result<(), AllocError> {
    match node {
        Node::Simple { simple } => show_simple(out, simple),
        Node::If { test, yes, no } => {
            out.extend_from_slice(b"if ")?;
            show_chains(out, test.as_slice())?;
            out.extend_from_slice(b"then ")?;
            show_chains(out, yes.as_slice())?;
            out.extend_from_slice(b"else ")?;
            show_chains(out, no.as_slice())?;
            out.extend_from_slice(b"fi")
        }
    }
}

#[cycle(words)]
fn show_simple(out: &mut Vec<u8>, simple: &Simple) -> Result<(), AllocError> {
    for assign in simple.assigns.as_slice() {
        out.extend_from_slice(assign.name.as_slice())?;
        out.extend_from_slice(b"=")?;
        show_word(out, &assign.value)?;
        out.extend_from_slice(b" ")?;
    }
    for word in simple.words.as_slice() {
        show_word(out, word)?;
    }
    for redirection in simple.redirections.as_slice() {
        show_redirection(out, redirection)?;
    }
    Ok(())
}

#[cycle(words)]
fn show_redirection(out: &mut Vec<u8>, redirection: &Redirection) -> Result<(), AllocError> {
    out.extend_from_slice(&[b'0'.wrapping_add(redirection.number)])?;
    match &redirection.to {
        Target::Write { word } => {
            out.extend_from_slice(b">")?;
            show_word(out, word)?;
        }
        Target::Read { word } => {
            out.extend_from_slice(b"<")?;
            show_word(out, word)?;
        }
        Target::Both { word } => {
            out.extend_from_slice(b"<>")?;
            show_word(out, word)?;
        }
        Target::Same { number } => {
            out.extend_from_slice(b">&")?;
            out.extend_from_slice(&[b'0'.wrapping_add(*number)])?;
        }
        Target::Here { body } => {
            out.extend_from_slice(b"<<")?;
            show_text(out, body.as_slice())?;
        }
    }
    out.extend_from_slice(b" ")
}

#[cycle(words)]
fn show_word(out: &mut Vec<u8>, word: &Word) -> Result<(), AllocError> {
    match word {
        Word::Args => out.extend_from_slice(b"<@>"),
        Word::Parts { parts } => {
            out.extend_from_slice(b"<")?;
            for part in parts.as_slice() {
                show_part(out, part)?;
            }
            out.extend_from_slice(b">")
        }
    }
}

#[cycle(words)]
fn show_part(out: &mut Vec<u8>, part: &Part) -> Result<(), AllocError> {
    match part {
        Part::Text { bytes } => show_text(out, bytes.as_slice()),
        Part::Variable { name } => {
            out.extend_from_slice(b"$")?;
            out.extend_from_slice(name.as_slice())
        }
        Part::Fallback { name, other } => {
            out.extend_from_slice(b"${")?;
            out.extend_from_slice(name.as_slice())?;
            out.extend_from_slice(b":-")?;
            out.extend_from_slice(other.as_slice())?;
            out.extend_from_slice(b"}")
        }
        Part::Zero => out.extend_from_slice(b"$0"),
        Part::Process => out.extend_from_slice(b"$$"),
        Part::Output { simple } => {
            out.extend_from_slice(b"$(")?;
            show_simple(out, simple)?;
            out.extend_from_slice(b")")
        }
    }
}

fn show_text(out: &mut Vec<u8>, text: &[u8]) -> Result<(), AllocError> {
    out.extend_from_slice(b"'")?;
    out.extend_from_slice(text)?;
    out.extend_from_slice(b"'")
}
