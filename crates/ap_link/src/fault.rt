// Why an input isn't linked.
use ap_check::Fault;
use thiserror::Error;

/// Why an input isn't linked.
#[derive(Debug, Drop, Error)]
pub enum LinkFault {
    /// It breaks a rule, and this is the first one.
    #[error("the input breaks rule {}", .0.rule)]
    Rule(Fault),
    /// No memory is left for the linked file.
    #[error("no memory is left")]
    NoMemory,
}
