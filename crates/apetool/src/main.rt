// The program: the machine's files, standard output and standard error, and what ap_run does with them.
#![tactic(auto)]

ghost use Rattle.std.specs.Prelude.{◌≡◌, ◌≢◌};
ghost use Rattle.ap_run.specs.declared.end.Cause.TheVariants.{NoMemory, Usage};
ghost use Rattle.std.specs.declared.io.ErrorKind.TheVariants.{OutOfMemory};

use ap_files::{DiskFiles, ErrSink, OutSink};
use ap_run::{Cause, End, end_by, run};
use std::env;
use std::io::ErrorKind;
use std::process::ExitCode;

fn main(rt: HostRuntime) -> ExitCode {
    let alloc = rt.alloc();
    let mut out = OutSink::new(rt.stdout());
    let mut err = ErrSink::new(rt.stderr());
    let mut words = Vec::new(alloc);
    let args = match env::args(&rt) {
        Ok(args) => args,
        Err(error) => return ExitCode::from(status_of(&end_by(&mut err, cause_of(error.kind())))),
    };
    for word in args.skip(1) {
        if words.push(word).is_err() {
            return ExitCode::from(status_of(&end_by(&mut err, Cause::NoMemory)));
        }
    }
    let mut files = DiskFiles::new(rt);
    let end = run(alloc, &words, &mut files, &mut out, &mut err);
    files.discard();
    ExitCode::from(status_of(&end))
}

/// Why the machine's words can't be had: for want of memory, or since one of them is no text.
fn cause_of(kind: ErrorKind) -> Cause
    ensures memory { kind ≡ OutOfMemory → result ≡ NoMemory }
    ensures others { kind ≢ OutOfMemory → result ≡ Usage }
{
    if kind == ErrorKind::OutOfMemory {
        Cause::NoMemory
    } else {
        Cause::Usage
    }
}

/// The status that the process ends with.
fn status_of(end: &End) -> u8
    ensures { result ≡ end.now.status }
{
    end.status
}
