// Files of which only the size may be asked.
ghost use Rattle.ap_files.specs.Machine.{no_faults, untold_files};

use super::{LINK, LINK_TWO, LOAD, PLAIN, SCRIPT, obey};
use ap_check::Fault;
use ap_files::{Failed, Files, SteadyFiles, SteadySink};
use ap_run::{Cause, ReadingFault};

/// The program as the file `in`, unless it is too large; and a file `other`, of which only the size may be asked.
#[derive(Drop)]
struct Large<'a> {
    files: SteadyFiles<'a>,
    size: Option<u64>,
    others: u64,
}

impl Large<'_> {
    fn count(&mut self, name: &str) {
        if name != "in" || self.size.is_some() {
            self.others = self.others.saturating_add(1);
        }
    }
}

impl Files for Large<'_> {
    ghost state = { λ _. untold_files no_faults };

    fn size(&mut self, name: &str) -> Result<u64, Failed> {
        match self.size {
            Some(size) => Ok(size),
            None if name == "other" => Ok(268435457),
            None => self.files.size(name),
        }
    }

    fn read_at(&mut self, name: &str, at: u64, buf: &mut [u8]) -> Result<(), Failed> {
        self.count(name);
        self.files.read_at(name, at, buf)
    }

    fn start(&mut self, name: &str) -> Result<(), Failed> {
        self.count(name);
        self.files.start(name)
    }

    fn add(&mut self, name: &str, piece: &[u8]) -> Result<usize, Failed> {
        self.count(name);
        self.files.add(name, piece)
    }

    fn finish(&mut self, name: &str) -> Result<(), Failed> {
        self.count(name);
        self.files.finish(name)
    }
}

#[test]
fn of_a_file_that_is_too_large_only_the_size_is_asked(rt: HostRuntime) {
    let fault = |input: u8| Cause::Refused(Fault {
        rule: 1,
        input,
        item: 0,
        value: 268435457,
    });
    let large = ReadingFault::Large { size: 1073741825 };
    for (words, size, cause) in [
        (LINK, Some(268435457), fault(1)),
        (LINK_TWO, None, fault(2)),
        (LOAD, Some(1073741825), Cause::Unread(large)),
        (SCRIPT, Some(1073741825), Cause::Unread(large)),
    ] {
        let mut files = Large {
            files: SteadyFiles::of("in", PLAIN),
            size,
            others: 0,
        };
        let end = obey(&rt, rt.alloc(), &mut files, words, &mut SteadySink::new());
        assert!(rt;
            end.status == 1 && end.cause == cause && files.others == 0,
            "{words:?}"
        );
    }
}
