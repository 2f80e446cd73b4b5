// The part of a file that was read last.
ghost use Rattle.std.specs.Prelude.{◌≡◌, ◌<◌, ℕ, List, Option, IfSome, slice_index};
ghost use Rattle.ap_files.specs.Files.{FileMap};
ghost use Rattle.ap_files.specs.Reads.{Reads, HasSize};
ghost use Rattle.ap_image.specs.LastReads.{IsPartOf, IsPart};

use ap_files::{Failed, Files};

/// How many bytes are read at once.
const PART: usize = 512;

/// The part of a file that was read last.
#[derive(Drop)]
pub struct LastRead {
    from: u64,
    count: usize,
    bytes: [u8; PART],
}

impl LastRead {
    /// None so far.
    pub fn new() -> LastRead
        ensures { (kept : Option FileMap) (name : List ℕ) → IsPart kept name result }
    {
        LastRead {
            from: 0,
            count: 0,
            bytes: [0; PART],
        }
    }

    /// The byte at a place, if it is in the part.
    #[tactic(auto, using(crate::proofs::LastReadLemmas::part_steps))]
    pub(crate) fn get(&self, at: u64) -> Option<u8>
        ensures { IfSome result
            (λ byte. (file : List ℕ) → IsPartOf file self.now → byte ≡ slice_index file at) }
    {
        if at >= self.from && at - self.from < self.count.min(PART) as u64 {
            Some(self.bytes[(at - self.from) as usize])
        } else {
            None
        }
    }

    /// The byte at a place of a file of `size` bytes, which is read with those behind it.
    pub(crate) fn read<F: Files>(
        &mut self,
        files: &mut F,
        name: &str,
        at: u64,
        size: u64,
    ) -> Result<u8, Failed>
        requires place { at < size }
        requires size { HasSize (F.state files.old).kept name.now size }
        ensures read { Reads (F.state files.old) (F.state files.new) name.now
            (λ file byte. byte ≡ slice_index file at) result }
        ensures part { IsPart (F.state files.new).kept name.now self.new }
    {
        self.count = 0;
        let count = (size - at).min(PART as u64) as usize;
        let mut bytes = [0; PART];
        files.read_at(name, at, &mut bytes[..count])?;
        self.from = at;
        self.count = count;
        self.bytes = bytes;
        Ok(bytes[0])
    }
}
