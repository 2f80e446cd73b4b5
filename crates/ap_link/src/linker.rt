// The linker, in memory.
ghost use Rattle.std.specs.Prelude.{◌≡◌, option_copied};
ghost use Rattle.ap_claims.specs.Blocks.{free_block};
ghost use Rattle.ap_check.specs.Options.{AreTaken};
ghost use Rattle.ap_link.specs.Answers.{LinkAnswers};
ghost use Rattle.ap_link.specs.Lent.{Lends};

use crate::end::LinkEnd;
use crate::fault::LinkFault;
use crate::held::{HeldFiles, ONE, OUT, second_name};
use crate::stream::link_stream;
use ap_check::Options;
use ap_claims::Block;
use std::alloc::Global;

/// Links one or two programs, for different machines, and answers the bytes of the linked file.
///
/// The answer is `Rule` exactly where the inputs break a rule, with the fault of the first one that they break, all of input 1
/// before input 2; and `NoMemory` where they break none and there is no memory for the linked file. The options name no
/// magic for debuggers together with Windows.
///
/// The block, which is free, holds the first bytes of the linked file afterwards, each with the owners that claim it. Where the
/// inputs break a rule it stays as it was, and where memory ran out it is either.
pub fn link(
    alloc: Global,
    first: &[u8],
    second: Option<&[u8]>,
    options: &Options,
    block: &mut Block,
) -> Result<Vec<u8>, LinkFault>
    requires options { AreTaken options.now }
    requires free { block.old ≡ free_block }
    ensures file { LinkAnswers options.now result first.now (option_copied second.entry) }
    ensures block { Lends options.now block.old block.new first.now (option_copied second.entry)
        result }
{
    let mut files = HeldFiles {
        first,
        second,
        out: Vec::new(alloc),
        is_made: false,
        is_open: false,
    };
    match link_stream(ONE, second_name(second), options, OUT, &mut files, block) {
        Ok(_) => Ok(files.out),
        Err(LinkEnd::Rule(fault)) => Err(LinkFault::Rule(fault)),
        Err(LinkEnd::WriteFault) => Err(LinkFault::NoMemory),
        Err(LinkEnd::ReadFault) => unreachable!(),
    }
}
