// How much of a file is read by a command that shows it.
ghost use Rattle.ap_files.specs.Machine.{no_faults, untold_files};

use super::{DUMP, LOAD, MAP, PLAIN, linked, obey};
use ap_files::{Failed, Files, SteadyFiles, SteadySink};

/// The file `in`, and how many bytes of it were read.
#[derive(Drop)]
struct Counted<'a> {
    files: SteadyFiles<'a>,
    read: usize,
}

impl Files for Counted<'_> {
    ghost state = { λ _. untold_files no_faults };

    fn size(&mut self, name: &str) -> Result<u64, Failed> {
        self.files.size(name)
    }

    fn read_at(&mut self, name: &str, at: u64, buf: &mut [u8]) -> Result<(), Failed> {
        self.read = self.read.saturating_add(buf.len());
        self.files.read_at(name, at, buf)
    }

    fn start(&mut self, name: &str) -> Result<(), Failed> {
        self.files.start(name)
    }

    fn add(&mut self, name: &str, piece: &[u8]) -> Result<usize, Failed> {
        self.files.add(name, piece)
    }

    fn finish(&mut self, name: &str) -> Result<(), Failed> {
        self.files.finish(name)
    }
}

// The linked file has two program headers and 20480 bytes; what is dumped is read once.
#[test]
fn what_a_format_looks_at_is_read_alone(rt: HostRuntime) {
    let whole = linked(&rt, rt.alloc());
    for (words, bytes, expected) in [
        (LOAD, whole.as_slice(), 8192 + 112),
        (MAP, PLAIN, 64 + 56),
        (DUMP, &whole, 20480),
    ] {
        let files = SteadyFiles::of("in", bytes);
        let mut files = Counted { files, read: 0 };
        obey(&rt, rt.alloc(), &mut files, words, &mut SteadySink::new());
        assert!(rt; files.read == expected, "{words:?}");
    }
}
