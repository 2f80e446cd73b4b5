// Why a file isn't assimilated.
use thiserror::Error;

/// Why a file isn't assimilated.
#[derive(Debug, Clone, Copy, PartialEq, Eq, Drop, Error)]
pub enum AssimFault {
    /// It begins with none of the three magics of an APE file.
    #[error("the file isn't an APE file")]
    NotApe,
    /// It has no statement for the machine, or no `dd` statement.
    #[error("the file has no statement for this")]
    NoStatement,
    /// No memory is left for the new file.
    #[error("no memory is left")]
    NoMemory,
}
