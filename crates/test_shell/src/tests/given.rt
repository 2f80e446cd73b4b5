// What scripts are given, and how they ended.
use ap_shell::Outcome;
use ap_shparse::ShellFault;
use sqlite_items::Items;
use std::alloc::{AllocError, Global};

/// The arguments `1` and `2 3`.
pub(super) fn arguments(alloc: Global) -> Result<Items<Items<u8>>, AllocError> {
    let mut args = Items::new(alloc);
    args.push(Items::from_slice(alloc, b"1")?)?;
    args.push(Items::from_slice(alloc, b"2 3")?)?;
    Ok(args)
}

/// How a script ended: `exits` and a status, `execs` and a path with words in brackets, or `outside` and a place.
pub(super) fn end_text(
    alloc: Global,
    ended: &Result<Outcome, ShellFault>,
) -> Result<Vec<u8>, AllocError> {
    let mut shown = Vec::new(alloc);
    match ended {
        Ok(Outcome::Exits { status }) => {
            let line = format!(in alloc; "exits {status}")?;
            shown.extend_from_slice(line.as_bytes())?;
        }
        Ok(Outcome::Execs { path, words }) => {
            shown.extend_from_slice(b"execs ")?;
            shown.extend_from_slice(path.as_slice())?;
            for word in words.as_slice() {
                shown.extend_from_slice(b" [")?;
                shown.extend_from_slice(word.as_slice())?;
                shown.extend_from_slice(b"]")?;
            }
        }
        Err(ShellFault::Outside { at }) => {
            let line = format!(in alloc; "outside {at}")?;
            shown.extend_from_slice(line.as_bytes())?;
        }
        Err(ShellFault::NoMemory) => shown.extend_from_slice(b"no memory")?,
    }
    Ok(shown)
}
