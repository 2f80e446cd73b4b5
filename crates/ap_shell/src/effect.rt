// Each command with its words.
ghost use Rattle.std.specs.Prelude.{◌≡◌, IfOk};
ghost use Rattle.ap_shell.specs.Commands as commands;

use crate::copy_commands::{chmod, cp};
use crate::dd::dd;
use crate::done::{Done, plain};
use crate::exits::{exec, exit};
use crate::map::Files;
use crate::names::Command;
use crate::text_commands::{command_v, printf, test_status, uname};
use crate::types::Env;
use sqlite_items::Items;
use std::alloc::{AllocError, Global};

/// What a command does with these words, after a command with this status. An error is want of memory.
pub fn done_by(
    alloc: Global,
    env: &Env,
    inside: bool,
    command: Command,
    words: &[Items<u8>],
    last: u8,
    files: &mut Files,
) -> Result<Done, AllocError>
    ensures { IfOk result (λ d. (d, files.new)
        ≡ commands.effect env.now inside command words.now last files.old) }
{
    match command {
        Command::Uname => uname(alloc, env, words),
        Command::Cp => cp(alloc, words, files),
        Command::Chmod => chmod(alloc, words, files),
        Command::Dd => dd(alloc, words, files),
        Command::Printf => printf(alloc, words),
        Command::Test => Ok(plain(alloc, test_status(words))),
        Command::Find => command_v(alloc, inside, env.ape, words),
        Command::Colon | Command::True => Ok(plain(alloc, 0)),
        Command::False => Ok(plain(alloc, 1)),
        Command::Exit => Ok(exit(alloc, words, last)),
        Command::Exec => exec(alloc, env.ape, words, files),
    }
}
