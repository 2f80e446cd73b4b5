// Inputs in memory, and the linked file that is written there.
ghost use Rattle.std.specs.Prelude.{◌≡◌, ◌+◌, ◌≤◌, length, take, drop};
ghost use Rattle.std.specs.Option.{option_copied};
ghost use Rattle.ap_link.specs.Held.{held_file, held_out, held_state, two_of};

use ap_files::{Failed, Files};

/// The name of the first input.
pub const ONE: &str = "a";

/// The name of the second input.
pub const TWO: &str = "b";

/// The name of the linked file.
pub const OUT: &str = "o";

/// One or two inputs, and the linked file, which takes memory as it grows. The inputs never fail to be read.
#[derive(Drop)]
pub struct HeldFiles<'a> {
    pub first: &'a [u8],
    pub second: Option<&'a [u8]>,
    pub out: Vec<u8>,
    pub is_made: bool,
    pub is_open: bool,
}

impl HeldFiles<'_> {
    fn file(&self, name: &str) -> Option<&[u8]>
        ensures { option_copied result
            ≡ held_file self.now.first.now (option_copied self.now.second)
            (held_out self.now.is_made self.now.out.items) name.now }
    {
        if name == OUT {
            if self.is_made { Some(&self.out) } else { None }
        } else if name == TWO {
            self.second
        } else if name == ONE {
            Some(self.first)
        } else {
            None
        }
    }
}

impl Files for HeldFiles<'_> {
    ghost state = { λ h. held_state h.first.now (option_copied h.second) h.out.items h.is_made h.is_open };

    fn size(&mut self, name: &str) -> Result<u64, Failed> {
        match self.file(name) {
            Some(bytes) => Ok(bytes.len() as u64),
            None => Err(Failed),
        }
    }

    fn read_at(&mut self, name: &str, at: u64, buf: &mut [u8]) -> Result<(), Failed> {
        let Some(bytes) = self.file(name) else {
            unreachable!()
        };
        copy_part(bytes, at as usize, buf);
        Ok(())
    }

    fn start(&mut self, name: &str) -> Result<(), Failed> {
        if name != OUT {
            return Err(Failed);
        }
        self.out.clear();
        self.is_made = true;
        self.is_open = true;
        Ok(())
    }

    fn add(&mut self, name: &str, piece: &[u8]) -> Result<usize, Failed> {
        let _ = name;
        match self.out.extend_from_slice(piece) {
            Ok(()) => Ok(piece.len()),
            Err(_) => Err(Failed),
        }
    }

    fn finish(&mut self, name: &str) -> Result<(), Failed> {
        let _ = name;
        self.is_open = false;
        Ok(())
    }
}

/// Fills the buffer with the bytes from a place on.
fn copy_part(bytes: &[u8], at: usize, buf: &mut [u8])
    requires { at + length buf.old ≤ length bytes.now }
    ensures { buf.new ≡ take (length buf.old) (drop at bytes.now) }
{
    buf.copy_from_slice(&bytes[at..at + buf.len()]);
}

/// The name of the second input, where there is one.
pub fn second_name(second: Option<&[u8]>) -> Option<&'static str>
    ensures { option_copied result ≡ two_of (option_copied second.entry) }
{
    match second {
        Some(_) => Some(TWO),
        None => None,
    }
}
