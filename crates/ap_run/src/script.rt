// Files whose scripts are run.
ghost use Rattle.std.specs.Prelude.{◌≡◌, IfOk};
ghost use Rattle.ap_run.specs.Scripted as spec;
ghost use Rattle.ap_run.specs.Scripted.{Answered, RunsTo, Scripted};
ghost use Rattle.ap_run.specs.ScriptRuns.{script_run};
ghost use Rattle.ap_run.specs.Shows.{Answers, Ends};
ghost use Rattle.ap_run.specs.Whole.{MakesOf};

use crate::end::{Cause, ReadingFault};
use crate::fetch::fetch;
use crate::outcome::outcome_text;
use crate::script_run::ScriptRun;
use crate::show::print_text;
use ap_files::{Files, Sink};
use ap_shell::{Env, Host, HostFile, Outcome, run_script};
use ap_shparse::ShellFault;
use sqlite_items::Items;
use std::alloc::{AllocError, Global};

/// The mode of a file whose script is run: its owner may do all (POSIX.1, chmod).
const MODE: u16 = 0o700;

/// Runs the script of a file, prints its outcome on `out`, and answers how that ended. Nothing is executed, and no file is
/// written: the script's files are in memory.
pub fn script<F: Files, O: Sink>(
    alloc: Global,
    files: &mut F,
    out: &mut O,
    run: &ScriptRun<'_>,
) -> Cause
    ensures { Ends (F.state files.old) (F.state files.new) (O.state out.old) (O.state out.new)
        (Scripted (script_run run.now)) run.now.file.now result }
{
    match text_of(alloc, files, run) {
        Ok(text) => print_text(out, &text),
        Err(cause) => cause,
    }
}

// The text of the outcome of a file's script, or why there is none. The file is read whole.
fn text_of<F: Files>(alloc: Global, files: &mut F, run: &ScriptRun<'_>) -> Result<Vec<u8>, Cause>
    ensures { Answers (F.state files.old) (F.state files.new) (Scripted (script_run run.now))
        run.now.file.now result }
{
    match fetch(alloc, files, run.file) {
        Ok(file) => told(alloc, run, &file),
        Err(cause) => Err(cause),
    }
}

// That of a file's bytes.
fn told(alloc: Global, run: &ScriptRun<'_>, file: &[u8]) -> Result<Vec<u8>, Cause>
    ensures { MakesOf (RunsTo (script_run run.now)) file.now result }
{
    let outcome = match outcome_of(alloc, run, file) {
        Ok(outcome) => outcome,
        Err(ShellFault::Outside { at }) => return Err(Cause::Unread(ReadingFault::Shell { at })),
        Err(ShellFault::NoMemory) => return Err(Cause::NoMemory),
    };
    match outcome_text(alloc, &outcome) {
        Ok(text) => Ok(text),
        Err(_) => Err(Cause::NoMemory),
    }
}

fn outcome_of(alloc: Global, run: &ScriptRun<'_>, file: &[u8]) -> Result<Outcome, ShellFault>
    ensures { Answered (script_run run.now) file.now result }
{
    let env = env_of(alloc, run)?;
    let mut host = host_of(alloc, run.file, file)?;
    run_script(alloc, file, run.nul, &env, &mut host)
}

// What the script sees.
fn env_of(alloc: Global, run: &ScriptRun<'_>) -> Result<Env, AllocError>
    ensures { IfOk result (λ env. env ≡ spec.env_of (script_run run.now)) }
{
    let zero = Items::from_slice(alloc, run.file.as_bytes())?;
    let machine = Items::from_slice(alloc, run.machine.as_bytes())?;
    let system = Items::from_slice(alloc, run.system.as_bytes())?;
    Ok(Env {
        zero,
        args: Items::new(alloc),
        tmpdir: None,
        pid: 1,
        machine,
        system,
        ape: run.ape,
        fails: Items::new(alloc),
    })
}

// The host that has the file alone.
fn host_of(alloc: Global, name: &str, file: &[u8]) -> Result<Host, AllocError>
    ensures { IfOk result (λ host. host ≡ spec.host_of name.now file.now) }
{
    let bytes = Items::from_slice(alloc, file)?;
    let mut files = ap_shell::Files::new(alloc);
    let host_file = HostFile { bytes, mode: MODE };
    files.insert(alloc, name.as_bytes(), host_file)?;
    Ok(Host {
        files,
        out: Items::new(alloc),
    })
}
