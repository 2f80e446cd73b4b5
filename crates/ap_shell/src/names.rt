// The names of commands.
ghost use Rattle.std.specs.Prelude.{◌≡◌};
ghost use Rattle.ap_shell.specs.Names as names;
ghost use Rattle.ap_shell.specs.Names.{ends, named, others, utilities};

/// A command that a script may name. `Test` is `[`, `Find` is `command`, `Colon` is `:`.
#[derive(Clone, Copy)]
pub enum Command {
    Uname,
    Cp,
    Chmod,
    Dd,
    Printf,
    Test,
    Find,
    Colon,
    True,
    False,
    Exit,
    Exec,
}

/// The command of a name. Within `$(..)`, `exit` and `exec` are no commands.
pub fn command_of(inside: bool, name: &[u8]) -> Option<Command>
    ensures { result ≡ names.command_of inside name.now }
{
    if let Some(command) = utility_of(name) {
        return Some(command);
    }
    if let Some(command) = other_of(name) {
        return Some(command);
    }
    if inside { None } else { end_of(name) }
}

/// Whether calls of the command are counted.
pub fn is_utility(command: Command) -> bool
    ensures { result ≡ names.is_utility command }
{
    match command {
        Command::Uname | Command::Cp | Command::Chmod | Command::Dd | Command::Printf => true,
        _ => false,
    }
}

/// Whether `command -v` finds the name.
pub fn is_command(inside: bool, ape: bool, name: &[u8]) -> bool
    ensures { result ≡ names.is_command inside ape name.now }
{
    command_of(inside, name).is_some() || (ape && name == b"ape".as_slice())
}

/// Whether the assignments of such a command stay.
pub fn keeps(command: Option<Command>) -> bool
    ensures { result ≡ names.keeps command }
{
    match command {
        Some(Command::Colon) => true,
        Some(Command::Exec) => true,
        _ => false,
    }
}

/// Whether a redirection that fails ends the script, where it is one of such a command.
pub fn is_special(command: Option<Command>) -> bool
    ensures { result ≡ names.is_special command }
{
    match command {
        Some(Command::Colon) => true,
        Some(Command::Exec) => true,
        Some(Command::Exit) => true,
        _ => false,
    }
}

fn utility_of(name: &[u8]) -> Option<Command>
    ensures { result ≡ named name.now utilities }
{
    if name == b"uname".as_slice() {
        return Some(Command::Uname);
    }
    if name == b"cp".as_slice() {
        return Some(Command::Cp);
    }
    if name == b"chmod".as_slice() {
        return Some(Command::Chmod);
    }
    if name == b"dd".as_slice() {
        return Some(Command::Dd);
    }
    if name == b"printf".as_slice() {
        return Some(Command::Printf);
    }
    None
}

fn other_of(name: &[u8]) -> Option<Command>
    ensures { result ≡ named name.now others }
{
    if name == b"[".as_slice() {
        return Some(Command::Test);
    }
    if name == b"command".as_slice() {
        return Some(Command::Find);
    }
    if name == b":".as_slice() {
        return Some(Command::Colon);
    }
    if name == b"true".as_slice() {
        return Some(Command::True);
    }
    if name == b"false".as_slice() {
        return Some(Command::False);
    }
    None
}

fn end_of(name: &[u8]) -> Option<Command>
    ensures { result ≡ named name.now ends }
{
    if name == b"exit".as_slice() {
        return Some(Command::Exit);
    }
    if name == b"exec".as_slice() {
        return Some(Command::Exec);
    }
    None
}
