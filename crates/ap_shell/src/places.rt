// Files by their names, `/dev/null` among them. Each error is want of memory.
ghost use Rattle.std.specs.Prelude.{◌≡◌, IfOk, OnOk, option_map};
ghost use Rattle.ap_shell.specs.Places as places;

use crate::copies::copy;
use crate::map::{Files, HostFile};
use sqlite_items::Items;
use std::alloc::{AllocError, Global};

/// The mode of a file that is made.
pub const NEW_MODE: u16 = 0o600;

#[tactic(auto, unfolding(crate::specs::Places::is_null))]
pub fn is_null(name: &[u8]) -> bool
    ensures { result ≡ places.is_null name.now }
{
    name == b"/dev/null".as_slice()
}

/// A copy of the host's file of this name.
#[tactic(auto, unfolding(crate::specs::Places::host_file))]
pub fn host_file(alloc: Global, name: &[u8], files: &Files) -> Result<Option<HostFile>, AllocError>
    ensures { IfOk result (λ o. o ≡ places.host_file name.now files.now) }
{
    if is_null(name) {
        return Ok(None);
    }
    match files.get(name) {
        None => Ok(None),
        Some(file) => {
            let bytes = copy(alloc, file.bytes.as_slice())?;
            let mode = file.mode;
            Ok(Some(HostFile { bytes, mode }))
        }
    }
}

/// A copy of what is read at this name.
#[tactic(auto, unfolding(crate::specs::Places::file_at))]
pub fn file_at(alloc: Global, name: &[u8], files: &Files) -> Result<Option<HostFile>, AllocError>
    ensures { IfOk result (λ o. o ≡ places.file_at name.now files.now) }
{
    if is_null(name) {
        return Ok(Some(HostFile {
            bytes: Items::new(alloc),
            mode: NEW_MODE,
        }));
    }
    host_file(alloc, name, files)
}

/// The mode of what is read at this name, if anything is.
#[tactic(auto, unfolding(crate::specs::Places::file_at, crate::specs::Places::host_file))]
pub fn mode_at(name: &[u8], files: &Files) -> Option<u16>
    ensures { result ≡ option_map (λ f. f.mode) (places.file_at name.now files.now) }
{
    if is_null(name) {
        return Some(NEW_MODE);
    }
    match files.get(name) {
        None => None,
        Some(file) => Some(file.mode),
    }
}

/// Writes a file at this name.
#[tactic(auto, unfolding(crate::specs::Places::with_file))]
pub fn with_file(
    alloc: Global,
    name: &[u8],
    file: HostFile,
    files: &mut Files,
) -> Result<(), AllocError>
    ensures { OnOk result (files.new ≡ places.with_file name.now file files.old) }
{
    if is_null(name) {
        return Ok(());
    }
    files.insert(alloc, name, file)
}
