// The files of a host, as a finite map from names to files.
ghost use Rattle.std.specs.Prelude.{◌≡◌, OnOk};
ghost use Rattle.std.specs.FinMap as fin;
ghost use Rattle.std.specs.Option.{option_copied};

use sqlite_items::Items;
use std::alloc::{AllocError, Global};
use std::collections::BTreeMap;
use std::marker::Model;

/// A file: its bytes, and its mode as POSIX.1 `chmod` sets it.
#[derive(Drop)]
pub struct HostFile {
    pub bytes: Items<u8>,
    pub mode: u16,
}

/// Files by their names, which are any bytes.
#[derive(Drop)]
pub struct Files {
    map: BTreeMap<Vec<u8>, HostFile>,
}

impl Model for Files {
    ghost use Rattle.std.specs.FinMap as fin;
    ghost use Rattle.ap_shell.specs.Files.{files_in, file_code};
    ghost use Rattle.std.specs.Ordering.{nat_cmp};
    ghost use Rattle.std.specs.Cmp.Lexicographic.{slice_cmp};
    ghost use Rattle.std.specs.Coded.{coded_ℕ, coded_list};
    ghost use Rattle.ap_shell.specs.declared.map.HostFile.{HostFile};

    ghost Value = { fin.FinMap (slice_cmp nat_cmp) HostFile };

    ghost coded = { fin.code (coded_list coded_ℕ) file_code };

    ghost view = { λ f. files_in f.map };
}

impl Files {
    /// No files.
    pub fn new(alloc: Global) -> Files
        ensures { result ≡ fin.empty }
    {
        Files {
            map: BTreeMap::new(alloc),
        }
    }

    /// The file with this name.
    pub fn get(&self, name: &[u8]) -> Option<&HostFile>
        ensures { option_copied result ≡ fin.get self.now name.now }
    {
        self.map.get(name)
    }

    /// Puts a file at this name, in the place of one that was there. An error is want of memory.
    pub fn insert(&mut self, alloc: Global, name: &[u8], file: HostFile) -> Result<(), AllocError>
        ensures { OnOk result (self.new ≡ fin.insert self.old name.now file) }
    {
        let name = Vec::from_slice(alloc, name)?;
        self.map.insert(name, file)?;
        Ok(())
    }
}
