// What words ask for.
use crate::text::{Text, Texts};
use ap_check::{Machine, Options};
use ap_shparse::Nul;
use std::alloc::AllocError;

/// A format of program files that words name.
#[derive(Clone, Copy, Debug, PartialEq, Eq)]
pub enum Form {
    /// PE32+ for x86-64.
    Pe,
    /// Mach-O for x86-64.
    Mach,
    /// ELF.
    Elf,
}

/// A command with all that its words say.
#[derive(Drop)]
pub enum Command {
    /// Links one or two programs into the file `out`, which is none of them.
    Link {
        out: Text,
        options: Options,
        names: Texts,
    },
    /// Shows the plan of an APE file, and makes its image file where `dump` names one.
    Load {
        machine: Machine,
        /// The page size in bytes, which the machine has.
        page: u64,
        dump: Option<Text>,
        file: Text,
    },
    /// Shows the plan of a file by a form.
    Map {
        form: Form,
        machine: Machine,
        /// The page size in bytes, which the machine has.
        page: u64,
        /// Whether what the file imports is shown too. Then the form is PE32+.
        imports: bool,
        file: Text,
    },
    /// Runs the script of a file.
    Script {
        /// What `uname -s` answers.
        system: Text,
        /// What `uname -m` answers.
        machine: Text,
        /// Whether the command `ape` is found.
        ape: bool,
        nul: Nul,
        file: Text,
    },
    /// Makes a plain ELF or Mach-O file of an APE file.
    Assimilate {
        /// ELF or Mach-O.
        form: Form,
        machine: Machine,
        out: Text,
        file: Text,
    },
    /// Prints a report on a file.
    Inspect {
        file: Text,
    },
    /// Makes large inputs from a number, and links them.
    Trial {
        number: u64,
        /// From 1 to 16384.
        pages: u32,
    },
    /// Moves a static PIE to a base.
    Bind {
        /// Below 2^63.
        base: u64,
        out: Text,
        file: Text,
    },
    /// Puts loaders into an APE file.
    Bundle {
        out: Text,
        app: Text,
        x64: Option<Text>,
        a64: Option<Text>,
    },
    /// Builds the initial stack of an APE file.
    Stack {
        machine: Machine,
        /// The page size in bytes, which the machine has.
        page: u64,
        out: Text,
        file: Text,
        words: Texts,
    },
    /// Compares the readings of a file.
    Audit {
        file: Text,
    },
}

/// Why words give no command.
#[derive(Clone, Copy, Debug, PartialEq, Eq)]
pub enum WordsFault {
    /// They are no command.
    Usage,
    /// No memory was left to read them.
    NoMemory,
}

impl From<AllocError> for WordsFault {
    ghost use Rattle.std.specs.Prelude.{◌≡◌};
    ghost use Rattle.ap_words.specs.declared.command.WordsFault.TheVariants.{NoMemory};

    ghost from_gives = { λ _ e. e ≡ NoMemory };

    fn from(_error: AllocError) -> WordsFault {
        WordsFault::NoMemory
    }
}
