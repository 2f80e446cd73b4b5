// The machine's files, read and written by names: the trusted edge, of which no clause says what is read or written.
ghost use Rattle.std.specs.Prelude.{◌≤◌, ◌<◌, length, IfOk};

use crate::taken::write_some;
use std::fs::{File, OpenOptions};
use std::io::ErrorKind;
use std::os::unix::fs::{FileExt, PermissionsExt};
use std::path::PathBuf;
use std::rt::Files;
use std::{fs, io};

/// A file that is open, and the name that it was opened by.
#[derive(Drop)]
struct OpenedFile {
    name: String,
    file: File,
}

/// A file that is written, and what becomes of it when it is finished.
#[derive(Drop)]
struct WrittenFile {
    name: String,
    file: File,
    place: Place,
}

/// Where a file that is written stands.
#[derive(Drop)]
enum Place {
    /// In place, as a device or a pipe.
    Itself,
    /// In a new file of the same folder, which takes the path `target` at last.
    New { path: String, target: String },
}

/// The files of a machine. The two files that were read last stay open, and so does the one that is
/// written.
#[derive(Drop)]
pub struct Disk<R> {
    machine: R,
    last: Option<OpenedFile>,
    other: Option<OpenedFile>,
    written: Option<WrittenFile>,
}

impl<R: Files<File = File> + AllocGlobal + Drop> Disk<R> {
    pub fn new(machine: R) -> Disk<R> {
        Disk {
            machine,
            last: None,
            other: None,
            written: None,
        }
    }

    /// How many bytes a file has. A folder has no size.
    pub fn size(&mut self, name: &str) -> io::Result<u64> {
        let opened = self.opened(name)?;
        let size = opened.file.metadata()?.len();
        self.keep(opened);
        Ok(size)
    }

    /// Fills the buffer with a file's bytes from the byte `at` on.
    pub fn read_at(&mut self, name: &str, at: u64, buf: &mut [u8]) -> io::Result<()> {
        let opened = self.opened(name)?;
        opened.file.read_exact_at(buf, at)?;
        self.keep(opened);
        Ok(())
    }

    /// The file of this name that is open, or opened now. It isn't kept until `keep`.
    fn opened(&mut self, name: &str) -> io::Result<OpenedFile> {
        if let Some(opened) = take_named(&mut self.last, name) {
            return Ok(opened);
        }
        match take_named(&mut self.other, name) {
            Some(opened) => Ok(opened),
            None => open_to_read(&self.machine, name),
        }
    }

    /// Keeps a file open that was read now, and the one that was read before it.
    fn keep(&mut self, opened: OpenedFile) {
        if let Some(before) = self.last.replace(opened) {
            self.other = Some(before);
        }
    }

    /// Begins the writing of a file, and gives up one that isn't finished.
    ///
    /// A device or a pipe is written in place. Anything else is written as a new file in the same
    /// folder, so that what stands under the name stays as it is until `finish`.
    pub fn start(&mut self, name: &str) -> io::Result<()> {
        self.discard();
        let kept_name = String::from_str(self.machine.alloc(), name)?;
        let (file, place) = open_to_write(&self.machine, name)?;
        self.written = Some(WrittenFile {
            name: kept_name,
            file,
            place,
        });
        Ok(())
    }

    /// Appends the first bytes of a piece to the file that is written, and answers how many.
    pub fn add(&mut self, name: &str, piece: &[u8]) -> io::Result<usize>
        ensures { IfOk result (λ n. (n ≤ length piece.now) × (0 < length piece.now → 0 < n)) }
    {
        match &mut self.written {
            Some(written) if written.name.as_str() == name => write_some(&mut written.file, piece),
            _ => Err(io::Error::from(ErrorKind::NotFound)),
        }
    }

    /// Ends the writing of a file: a new one may be run by all, and takes the file's name.
    pub fn finish(&mut self, name: &str) -> io::Result<()> {
        match &self.written {
            Some(written) if written.name.as_str() == name => publish(&self.machine, written)?,
            _ => return Err(io::Error::from(ErrorKind::NotFound)),
        }
        self.written = None;
        Ok(())
    }

    /// Removes the new file that was started and not finished, where there is one and it can be.
    pub fn discard(&mut self) {
        if let Some(written) = self.written.take()
            && let Place::New { path, .. } = &written.place
        {
            let _ = fs::remove_file(&self.machine, path.as_str());
        }
    }
}

/// The file that is kept, where it has this name; it isn't kept any more then.
fn take_named(kept: &mut Option<OpenedFile>, name: &str) -> Option<OpenedFile> {
    match kept.take() {
        Some(opened) if opened.name.as_str() == name => Some(opened),
        another => {
            *kept = another;
            None
        }
    }
}

fn open_to_read<R: Files<File = File> + AllocGlobal>(
    machine: &R,
    name: &str,
) -> io::Result<OpenedFile> {
    let file = fs::open(machine, name)?;
    if file.metadata()?.is_dir() {
        return Err(io::Error::from(ErrorKind::IsADirectory));
    }
    let name = String::from_str(machine.alloc(), name)?;
    Ok(OpenedFile { name, file })
}

fn open_to_write<R: Files<File = File> + AllocGlobal>(
    machine: &R,
    name: &str,
) -> io::Result<(File, Place)> {
    match fs::metadata(machine, name) {
        Ok(about) if !about.is_file() => {
            let file = OpenOptions::new().write(true).open(machine, name)?;
            Ok((file, Place::Itself))
        }
        Err(error) if error.kind() != ErrorKind::NotFound => Err(error),
        _ => create_beside(machine, followed(machine, name)?),
    }
}

/// The most symbolic links that a name may lead through, as in Linux (path_resolution(7)).
const MOST_LINKS: u32 = 40;

/// The path that a name leads to by symbolic links, also where nothing stands there.
fn followed<R: Files + AllocGlobal>(machine: &R, name: &str) -> io::Result<String> {
    let mut path = PathBuf::from_str(machine.alloc(), name)?;
    for _ in 0..MOST_LINKS {
        match fs::read_link(machine, path.as_path()) {
            Ok(link) => {
                path.pop();
                path.push(link.as_path())?;
            }
            Err(_) => return Ok(path.into_string()),
        }
    }
    Err(io::Error::from(ErrorKind::FilesystemLoop))
}

/// A new file beside a path, whose name is short, so that it is taken beside the longest: by the least number
/// that is free.
fn create_beside<R: Files<File = File> + AllocGlobal>(
    machine: &R,
    target: String,
) -> io::Result<(File, Place)> {
    for number in 0..u32::MAX {
        let path = beside(machine, target.as_str(), number)?;
        match File::create_new(machine, path.as_str()) {
            Ok(file) => return Ok((file, Place::New { path, target })),
            Err(error) if error.kind() == ErrorKind::AlreadyExists => {}
            Err(error) => return Err(error),
        }
    }
    Err(io::Error::from(ErrorKind::AlreadyExists))
}

/// The path of this number in the folder of another.
fn beside<R: AllocGlobal>(machine: &R, target: &str, number: u32) -> io::Result<String> {
    let name = format!(in machine.alloc(); ".ape{number}")?;
    let mut path = PathBuf::from_str(machine.alloc(), target)?;
    path.pop();
    path.push(name.as_str())?;
    Ok(path.into_string())
}

fn publish<R: Files>(machine: &R, written: &WrittenFile) -> io::Result<()> {
    match &written.place {
        Place::Itself => Ok(()),
        Place::New { path, target } => {
            written
                .file
                .set_permissions(fs::Permissions::from_mode(0o755))?;
            fs::rename(machine, path.as_str(), target.as_str())
        }
    }
}
