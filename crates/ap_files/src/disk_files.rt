// The machine's files, whose failed calls are counted.
ghost use Rattle.std.specs.Prelude.{◌≡◌};
ghost use Rattle.ap_files.specs.Machine.{no_faults, untold_files};

use crate::disk::Disk;
use crate::failure::count_failure;
use crate::{Failed, Files};
use std::fs::File;
use std::marker::Model;
use std::rt;

/// The files of a machine by their paths, of which nothing is told.
///
/// The count of a call rises exactly where it answers `Failed`, which it does where the machine
/// refuses, where a folder is read and where nothing is taken of a piece that isn't empty. No call
/// counts an absence.
///
/// A file is written under a new name in the same folder, and `finish` gives it the mode 0755 and
/// its own name, in the place of what stood there. Only what is there and is no regular file, as a
/// device or a pipe, is written in place.
///
/// The two files that were read last stay open, so that their bytes are those of the files whose sizes
/// were asked, whatever becomes of their names.
#[derive(Drop)]
pub struct DiskFiles<R> {
    disk: Disk<R>,
    read_faults: u64,
    write_faults: u64,
}

impl<R> Model for DiskFiles<R> {
    ghost use Rattle.ap_files.specs.Machine.{Faults};

    ghost Value = { Faults };

    ghost view = { λ d. record { read_faults = d.read_faults; write_faults = d.write_faults } };
}

impl<R: rt::Files<File = File> + AllocGlobal + Drop> DiskFiles<R> {
    /// The files of this machine.
    pub fn new(machine: R) -> DiskFiles<R>
        ensures { result ≡ no_faults }
    {
        DiskFiles {
            disk: Disk::new(machine),
            read_faults: 0,
            write_faults: 0,
        }
    }

    /// Removes what a file that was started and not finished left behind, where that can be done.
    pub fn discard(&mut self)
        ensures { self.new ≡ self.old }
    {
        self.disk.discard();
    }
}

impl<R: rt::Files<File = File> + AllocGlobal + Drop> Files for DiskFiles<R> {
    ghost state = { untold_files };

    fn size(&mut self, name: &str) -> Result<u64, Failed> {
        match self.disk.size(name) {
            Ok(size) => Ok(size),
            Err(_) => Err(count_failure(&mut self.read_faults)),
        }
    }

    fn read_at(&mut self, name: &str, at: u64, buf: &mut [u8]) -> Result<(), Failed> {
        match self.disk.read_at(name, at, buf) {
            Ok(()) => Ok(()),
            Err(_) => Err(count_failure(&mut self.read_faults)),
        }
    }

    fn start(&mut self, name: &str) -> Result<(), Failed> {
        match self.disk.start(name) {
            Ok(()) => Ok(()),
            Err(_) => Err(count_failure(&mut self.write_faults)),
        }
    }

    fn add(&mut self, name: &str, piece: &[u8]) -> Result<usize, Failed> {
        match self.disk.add(name, piece) {
            Ok(count) => Ok(count),
            Err(_) => Err(count_failure(&mut self.write_faults)),
        }
    }

    fn finish(&mut self, name: &str) -> Result<(), Failed> {
        match self.disk.finish(name) {
            Ok(()) => Ok(()),
            Err(_) => Err(count_failure(&mut self.write_faults)),
        }
    }
}
