// What stands on the machine after calls on its files. What a link leaves there, by names, links, devices and pipes, is tried
// by scripts/files.sh.
use ap_files::{DiskFiles, Failed, Files};
use std::path::PathBuf;
use std::test::Fail;
use std::{fs, io};

/// A step of a case, by names in a folder of its own.
#[derive(Clone, Copy)]
enum Step {
    /// A file is made with these bytes, or removed, by another program.
    Make(&'static str, &'static [u8]),
    Remove(&'static str),
    /// The calls of `Files` and of `DiskFiles`.
    Size(&'static str, u64),
    Read(&'static str, u64, &'static [u8]),
    Start(&'static str),
    Add(&'static str, &'static [u8]),
    Finish(&'static str),
    Discard,
    /// A file has these bytes.
    Holds(&'static str, &'static [u8]),
    /// The folder has so many names.
    Names(usize),
}

/// The steps of each case, and whether each is done.
static CASES: [&[(Step, bool)]; 4] = [
    // a file stands under its name once it is finished, and whole
    &[
        (Step::Start("out"), true),
        (Step::Add("out", b"ab"), true),
        (Step::Add("out", b""), true),
        (Step::Holds("out", b"ab"), false),
        (Step::Add("out", b"c"), true),
        (Step::Finish("out"), true),
        (Step::Holds("out", b"abc"), true),
        (Step::Discard, true),
        (Step::Names(1), true),
        (Step::Size("out", 3), true),
    ],
    // an unfinished file is removed, and what stood there stays
    &[
        (Step::Make("out", b"old"), true),
        (Step::Start("out"), true),
        (Step::Add("out", b"new"), true),
        (Step::Names(2), true),
        (Step::Discard, true),
        (Step::Names(1), true),
        (Step::Holds("out", b"old"), true),
        (Step::Add("out", b"new"), false),
    ],
    // what is open is used on, although its name is gone
    &[
        (Step::Make("in", b"abc"), true),
        (Step::Size("in", 3), true),
        (Step::Remove("in"), true),
        (Step::Start("out"), true),
        (Step::Read("in", 0, b"abc"), true),
        (Step::Remove(".ape0"), true),
        (Step::Add("out", b"a"), true),
        (Step::Read("in", 1, b"bc"), true),
        (Step::Add("out", b"b"), true),
        (Step::Read("in", 2, b"c."), false),
        (Step::Size("in", 3), false),
    ],
    // what the machine refuses fails
    &[
        (Step::Size(".", 0), false),
        (Step::Size("missing", 0), false),
        (Step::Read("missing", 0, b""), false),
        (Step::Start("."), false),
        (Step::Start("missing/out"), false),
        (Step::Add("missing/out", b"a"), false),
        (Step::Finish("missing/out"), false),
        (Step::Names(0), true),
    ],
];

/// A machine's files, and a new folder in which the names of the steps are.
#[derive(Drop)]
struct Scene {
    rt: HostRuntime,
    folder: PathBuf,
    files: DiskFiles<HostRuntime>,
}

#[test]
fn files_stand_as_asked(rt: HostRuntime) -> Result<(), Fail> {
    for (number, steps) in CASES.iter().enumerate() {
        let mut scene = Scene {
            rt,
            folder: new_folder(rt)?,
            files: DiskFiles::new(rt),
        };
        for (place, (step, wanted)) in steps.iter().enumerate() {
            let is_done = scene.is_done(*step).unwrap_or(false);
            assert!(rt; is_done == *wanted, "case {number}, step {place}");
        }
        fs::remove_dir_all(&rt, scene.folder.as_path())?;
    }
    Ok(())
}

impl Scene {
    fn is_done(&mut self, step: Step) -> io::Result<bool> {
        match step {
            Step::Make(name, bytes) => self.make(name, bytes),
            Step::Remove(name) => self.remove(name),
            Step::Holds(name, bytes) => self.holds(name, bytes),
            Step::Names(wanted) => Ok(self.names()? == wanted),
            Step::Discard => {
                self.files.discard();
                Ok(true)
            }
            Step::Size(name, wanted) => Ok(self.size(name)? == Ok(wanted)),
            Step::Read(name, at, wanted) => self.reads(name, at, wanted),
            Step::Start(name) => self.start(name),
            Step::Add(name, piece) => self.add(name, piece),
            Step::Finish(name) => self.finish(name),
        }
    }

    fn path(&self, name: &str) -> io::Result<String> {
        let path = self.folder.join(self.rt.alloc(), name)?;
        Ok(path.into_string())
    }

    fn make(&self, name: &str, bytes: &[u8]) -> io::Result<bool> {
        fs::write(&self.rt, self.path(name)?, bytes)?;
        Ok(true)
    }

    fn remove(&self, name: &str) -> io::Result<bool> {
        fs::remove_file(&self.rt, self.path(name)?)?;
        Ok(true)
    }

    fn holds(&self, name: &str, bytes: &[u8]) -> io::Result<bool> {
        let held = fs::read(&self.rt, self.path(name)?)?;
        Ok(held.as_slice() == bytes)
    }

    fn names(&self) -> io::Result<usize> {
        let mut count = 0usize;
        for entry in fs::read_dir(&self.rt, self.folder.as_path())? {
            let _ = entry?;
            count = count.saturating_add(1);
        }
        Ok(count)
    }

    fn size(&mut self, name: &str) -> io::Result<Result<u64, Failed>> {
        let path = self.path(name)?;
        Ok(self.files.size(path.as_str()))
    }

    fn reads(&mut self, name: &str, at: u64, wanted: &[u8]) -> io::Result<bool> {
        let path = self.path(name)?;
        let mut buf = [0u8; 8];
        let count = wanted.len().min(8);
        let read = self.files.read_at(path.as_str(), at, &mut buf[..count]);
        Ok(read.is_ok() && &buf[..count] == wanted)
    }

    fn start(&mut self, name: &str) -> io::Result<bool> {
        let path = self.path(name)?;
        Ok(self.files.start(path.as_str()).is_ok())
    }

    fn add(&mut self, name: &str, piece: &[u8]) -> io::Result<bool> {
        let path = self.path(name)?;
        Ok(self.files.add(path.as_str(), piece) == Ok(piece.len()))
    }

    fn finish(&mut self, name: &str) -> io::Result<bool> {
        let path = self.path(name)?;
        Ok(self.files.finish(path.as_str()).is_ok())
    }
}

/// A new folder of the machine's.
fn new_folder(rt: HostRuntime) -> io::Result<PathBuf> {
    for number in 0..1000 {
        let path = format!(in rt.alloc(); "/tmp/ap_files.{number}")?;
        if fs::create_dir(&rt, path.as_str()).is_ok() {
            return Ok(PathBuf::from_str(rt.alloc(), path.as_str())?);
        }
    }
    Err(io::Error::from(io::ErrorKind::AlreadyExists))
}
