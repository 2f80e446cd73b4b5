// Texts written to a sink.
ghost use Rattle.ap_files.specs.Prints.{Prints};

use crate::{Failed, Sink};

/// Writes a text, in as many calls as it takes.
///
/// `Failed`: a write failed, and the text's first bytes are written, or none.
pub fn print<S: Sink>(sink: &mut S, text: &[u8]) -> Result<(), Failed>
    ensures { Prints (S.state sink.old) (S.state sink.new) text.now result }
{
    let mut at = 0;
    while at < text.len() {
        at += sink.write(&text[at..])?;
    }
    Ok(())
}
