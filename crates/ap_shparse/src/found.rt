ghost use Rattle.std.specs.Prelude.{◌≡◌, OnOk, IfOk, ◌∷◌, []};
ghost use Rattle.ap_shparse.specs.Pieces.{none_found, parts_of, with_bytes, with_part};

use crate::tree::Part;
use sqlite_items::Items;
use std::alloc::{AllocError, Global};
use std::mem;

/// What was found of a word so far.
#[derive(Drop)]
pub(crate) struct Found {
    pub(crate) parts: Items<Part>,
    /// The text behind the parts, which isn't a part yet.
    pub(crate) text: Items<u8>,
    /// Whether double quotes are open.
    pub(crate) inside: bool,
    /// Whether an expansion stands outside quotes.
    pub(crate) dollar: bool,
    /// Whether a `~` stands outside quotes.
    pub(crate) tilde: bool,
}

impl Found {
    pub(crate) fn new(alloc: Global) -> Found
        ensures { result ≡ none_found }
    {
        Found {
            parts: Items::new(alloc),
            text: Items::new(alloc),
            inside: false,
            dollar: false,
            tilde: false,
        }
    }

    pub(crate) fn push(&mut self, byte: u8) -> Result<(), AllocError>
        ensures { OnOk result (self.new ≡ with_bytes self.old (byte ∷ [])) }
    {
        self.text.push(byte)
    }

    pub(crate) fn push_bytes(&mut self, alloc: Global, bytes: &[u8]) -> Result<(), AllocError>
        ensures { OnOk result (self.new ≡ with_bytes self.old bytes.now) }
    {
        self.text.append(Items::from_slice(alloc, bytes)?)
    }

    pub(crate) fn push_part(&mut self, alloc: Global, part: Part) -> Result<(), AllocError>
        ensures { OnOk result (self.new ≡ with_part self.old part) }
    {
        self.end_text(alloc)?;
        self.parts.push(part)
    }

    // The text is a part.
    fn end_text(&mut self, alloc: Global) -> Result<(), AllocError>
        ensures { OnOk result (self.new ≡ record self.old { parts = parts_of self.old; text = [] }) }
    {
        let bytes = mem::replace(&mut self.text, Items::new(alloc));
        if !bytes.is_empty() {
            self.parts.push(Part::Text { bytes })?;
        }
        Ok(())
    }

    pub(crate) fn into_parts(self) -> Result<Items<Part>, AllocError>
        ensures { IfOk result (λ ps. ps ≡ parts_of self) }
    {
        let Found {
            mut parts,
            text,
            ..
        } = self;
        if !text.is_empty() {
            parts.push(Part::Text { bytes: text })?;
        }
        Ok(parts)
    }
}
