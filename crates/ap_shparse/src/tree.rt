//! The command tree of a script. In each struct the parts stand in the order of the text.

use sqlite_items::Items;
use std::alloc::AllocError;

/// How NUL bytes of a text are read.
#[derive(Clone, Copy, Debug, PartialEq, Eq)]
pub enum Nul {
    /// As they stand; they may then stand in quotes, here-documents and comments alone.
    Keep,
    /// All of them are passed over.
    Drop,
}

/// The items of a text.
#[derive(Drop)]
pub struct Script {
    pub items: Items<Chain>,
}

/// One or more commands joined by `||` and `&&`, which group to the left (POSIX.1, 2.9.3, AND-OR lists).
#[cycle(list)]
#[derive(Drop)]
pub struct Chain {
    pub first: Node,
    pub rest: Items<Joined>,
}

/// A command behind `||` (`or` is true) or `&&`.
#[cycle(list)]
#[derive(Drop)]
pub struct Joined {
    pub or: bool,
    pub node: Node,
}

/// A command.
#[cycle(list)]
#[derive(Drop)]
pub enum Node {
    Simple {
        simple: Simple,
    },
    /// `no` is empty where there is no `else` (POSIX.1, 2.9.4.4).
    If {
        test: Items<Chain>,
        yes: Items<Chain>,
        no: Items<Chain>,
    },
}

/// A simple command (POSIX.1, 2.9.1).
#[cycle(command)]
#[derive(Drop)]
pub struct Simple {
    pub assigns: Items<Assign>,
    pub words: Items<Word>,
    pub redirections: Items<Redirection>,
}

/// `name=value`.
#[cycle(command)]
#[derive(Drop)]
pub struct Assign {
    pub name: Items<u8>,
    pub value: Word,
}

#[cycle(command)]
#[derive(Drop)]
pub enum Word {
    /// `"$@"` as a whole word.
    Args,
    /// The parts from left to right. Texts that touch are one, and an empty text isn't a part.
    Parts { parts: Items<Part> },
}

#[cycle(command)]
#[derive(Drop)]
pub enum Part {
    /// Bytes as they are, of at least one.
    Text { bytes: Items<u8> },
    /// `$name` or `${name}`.
    Variable { name: Items<u8> },
    /// `${name:-other}`.
    Fallback { name: Items<u8>, other: Items<u8> },
    /// `$0`.
    Zero,
    /// `$$`.
    Process,
    /// `$(simple)`.
    Output { simple: Simple },
}

/// A redirection (POSIX.1, 2.7) of the file with this number, which is the digit or the one that stands for it.
#[cycle(command)]
#[derive(Drop)]
pub struct Redirection {
    pub number: u8,
    pub to: Target,
}

#[cycle(command)]
#[derive(Drop)]
pub enum Target {
    /// `>`
    Write { word: Word },
    /// `<`
    Read { word: Word },
    /// `<>`
    Both { word: Word },
    /// `>&`
    Same { number: u8 },
    /// `<<`, with the text between the operator's line and the closing line.
    Here { body: Items<u8> },
}

/// Why a text has no script.
#[derive(Clone, Copy, Debug, PartialEq, Eq)]
pub enum ShellFault {
    /// The text isn't in the grammar. `at` is the length of its longest whole front, in bytes of the text as it is given.
    Outside { at: u64 },
    NoMemory,
}

impl From<AllocError> for ShellFault {
    ghost use Rattle.std.specs.Prelude.{◌≡◌};
    ghost use Rattle.ap_shparse.specs.declared.tree.ShellFault.TheVariants.{NoMemory};

    ghost from_gives = { λ _ e. e ≡ NoMemory };

    fn from(_error: AllocError) -> ShellFault {
        ShellFault::NoMemory
    }
}
