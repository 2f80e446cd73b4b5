// How a check of an input ends that is read from files.
ghost use Rattle.std.specs.Prelude.{◌≡◌};

use crate::fault::Fault;
use ap_files::Failed;

/// Why an input of files isn't taken.
#[derive(Clone, Copy, Debug, PartialEq, Eq)]
pub enum CheckEnd {
    /// It breaks a rule, and this is the first one.
    Rule(Fault),
    /// It isn't there, or a read failed.
    ReadFault,
}

impl From<Fault> for CheckEnd {
    ghost use Rattle.ap_check.specs.declared.end.CheckEnd.TheVariants.{Rule};

    ghost from_gives = { λ fault end. end ≡ Rule fault };

    fn from(fault: Fault) -> CheckEnd {
        CheckEnd::Rule(fault)
    }
}

impl From<Failed> for CheckEnd {
    ghost use Rattle.ap_check.specs.declared.end.CheckEnd.TheVariants.{ReadFault};

    ghost from_gives = { λ _ end. end ≡ ReadFault };

    fn from(_failed: Failed) -> CheckEnd {
        CheckEnd::ReadFault
    }
}
