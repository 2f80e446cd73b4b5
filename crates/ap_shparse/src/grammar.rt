//! The script of a text.
ghost use Rattle.std.specs.Prelude.{◌≡◌, IfOk, IfErr, List};
ghost use Rattle.ap_shparse.specs.Grammar.{IsRefused, IsScript, ReadsAs};
ghost use Rattle.ap_shparse.specs.ScriptRules.{IsProgram};
ghost use Rattle.ap_shparse.specs.declared.tree.Chain.{Chain};

use crate::script::script;
use crate::seen;
use crate::tree::{Nul, Script, ShellFault};
use std::alloc::Global;

/// The script that the grammar gives the text.
///
/// `Outside`: the text isn't in the grammar. Its place is the length of the text's longest whole front: of the longest
/// prefix that is a list in which each item of the outermost list has its newline or `;` and each here-document its
/// closing line with a newline.
/// `NoMemory`: the text or its script couldn't be held.
pub fn parse(alloc: Global, text: &[u8], nul: Nul) -> Result<Script, ShellFault>
    // What is answered is what the rules of the grammar say that the text spells.
    ensures program { IfOk result (λ s. IsProgram nul text.now s.items) }
    // A text that the rules have isn't refused, unless memory runs out.
    ensures taken { (cs : List Chain) → IsProgram nul text.now cs → ReadsAs cs result }
    // The same, by the reading functions.
    ensures script { IfOk result (λ s. IsScript nul text.now s.items) }
    ensures only { (cs : List Chain) → IsScript nul text.now cs → ReadsAs cs result }
    ensures outside { IfErr result (IsRefused nul text.now) }
{
    match nul {
        Nul::Keep => kept(alloc, text),
        Nul::Drop => dropped(alloc, text),
    }
}

fn kept(alloc: Global, text: &[u8]) -> Result<Script, ShellFault>
    ensures program { IfOk result (λ s. IsProgram Nul.Keep text.now s.items) }
    ensures taken { (cs : List Chain) → IsProgram Nul.Keep text.now cs → ReadsAs cs result }
    ensures script { IfOk result (λ s. IsScript Nul.Keep text.now s.items) }
    ensures only { (cs : List Chain) → IsScript Nul.Keep text.now cs → ReadsAs cs result }
    ensures outside { IfErr result (IsRefused Nul.Keep text.now) }
{
    match script(alloc, text) {
        Ok(items) => Ok(Script { items }),
        Err(ShellFault::NoMemory) => Err(ShellFault::NoMemory),
        Err(ShellFault::Outside { at }) => Err(ShellFault::Outside { at }),
    }
}

fn dropped(alloc: Global, text: &[u8]) -> Result<Script, ShellFault>
    ensures program { IfOk result (λ s. IsProgram Nul.Drop text.now s.items) }
    ensures taken { (cs : List Chain) → IsProgram Nul.Drop text.now cs → ReadsAs cs result }
    ensures script { IfOk result (λ s. IsScript Nul.Drop text.now s.items) }
    ensures only { (cs : List Chain) → IsScript Nul.Drop text.now cs → ReadsAs cs result }
    ensures outside { IfErr result (IsRefused Nul.Drop text.now) }
{
    let seen = seen::without_nul(alloc, text)?;
    match script(alloc, &seen) {
        Ok(items) => Ok(Script { items }),
        Err(ShellFault::NoMemory) => Err(ShellFault::NoMemory),
        Err(ShellFault::Outside { at }) => Err(ShellFault::Outside {
            at: seen::past_nul(text, at as usize) as u64,
        }),
    }
}
