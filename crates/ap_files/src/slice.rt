// Bytes in memory as a file: what reads files by their names reads them too.
ghost use Rattle.ap_files.specs.Slices.{slice_state};

use crate::memory::copy_part;
use crate::{Failed, Files};

/// One file, whose name is empty and whose bytes are borrowed.
///
/// It is told, and no read of it fails. Nothing can be written: `start`, `add` and `finish` always fail.
#[derive(Clone, Copy)]
pub struct SliceFiles<'a> {
    pub bytes: &'a [u8],
}

impl Files for SliceFiles<'_> {
    ghost state = { λ s. slice_state s.bytes.now };

    fn size(&mut self, name: &str) -> Result<u64, Failed> {
        if name == "" {
            Ok(self.bytes.len() as u64)
        } else {
            Err(Failed)
        }
    }

    fn read_at(&mut self, name: &str, at: u64, buf: &mut [u8]) -> Result<(), Failed> {
        let _ = name;
        copy_part(self.bytes, at as usize, buf);
        Ok(())
    }

    fn start(&mut self, name: &str) -> Result<(), Failed> {
        let _ = name;
        Err(Failed)
    }

    fn add(&mut self, name: &str, piece: &[u8]) -> Result<usize, Failed> {
        let _ = name;
        let _ = piece;
        Err(Failed)
    }

    fn finish(&mut self, name: &str) -> Result<(), Failed> {
        let _ = name;
        Err(Failed)
    }
}
