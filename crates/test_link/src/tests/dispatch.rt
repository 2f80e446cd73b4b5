// What the scripts of linked files do: which copy they start for which system and machine, and how they end where a utility
// fails, in both readings of NUL.
ghost use Rattle.std.specs.Prelude.{◌≡◌, false};

use super::{PLAIN, other};
use ap_check::{Options, Systems};
use ap_claims::Block;
use ap_link::link;
use ap_shell::{Env, Files, Host, HostFile, Outcome, run_script};
use ap_shparse::Nul;
use bitflags::Flags;
use sqlite_items::Items;
use std::alloc::{AllocError, Global};
use std::test::Fail;

/// What a script leaves of its copy.
#[derive(Clone, Copy, Debug)]
enum Copied {
    Nothing,
    /// The linked file as it is.
    Whole,
    /// With the ELF header of a machine over its first bytes.
    Elf(u8),
    /// With the Mach-O header over them, which has so many bytes.
    Mach(usize),
}

/// A system, a machine, whether `ape` is found, and the utility calls that fail; the path that is executed, or a status, and
/// the copy.
type Row = (
    &'static str,
    &'static str,
    bool,
    &'static [u32],
    Result<&'static str, u8>,
    Copied,
);

const COPY: Result<&str, u8> = Ok("/tmp/ape.7");

/// Of PLAIN and the program for AArch64, for all systems.
const BOTH: &[Row] = &[
    ("Linux", "x86_64", false, &[], COPY, Copied::Elf(62)),
    ("FreeBSD", "amd64", false, &[], COPY, Copied::Elf(62)),
    ("NetBSD", "aarch64", false, &[], COPY, Copied::Elf(183)),
    ("Linux", "arm64", false, &[], COPY, Copied::Elf(183)),
    ("Darwin", "x86_64", false, &[], COPY, Copied::Mach(360)),
    ("Darwin", "arm64", false, &[], Err(125), Copied::Nothing),
    ("Linux", "riscv64", false, &[], Err(126), Copied::Nothing),
    ("linux", "x86_64", false, &[], Err(126), Copied::Nothing),
    ("Linux", "x86_64", true, &[], Ok("ape"), Copied::Nothing),
    ("Linux", "x86_64", false, &[3], Err(121), Copied::Nothing),
    ("Linux", "x86_64", false, &[4], Err(122), Copied::Whole),
    ("Linux", "aarch64", false, &[5], Err(124), Copied::Whole),
    ("Darwin", "x86_64", false, &[5], Err(123), Copied::Whole),
];

/// Of the program for AArch64 alone.
const ONE: &[Row] = &[
    ("Linux", "aarch64", false, &[], COPY, Copied::Elf(183)),
    ("Linux", "x86_64", false, &[], Err(126), Copied::Nothing),
    ("Darwin", "x86_64", false, &[], Err(125), Copied::Nothing),
];

#[test]
fn a_file_of_two_programs_starts_the_copy_for_its_machine(rt: HostRuntime) -> Result<(), Fail> {
    let linked = link(
        rt.alloc(),
        &PLAIN,
        Some(&other()),
        &all(),
        &mut Block::new(),
    );
    let Ok(file) = linked else {
        return Err("refused".into());
    };
    for row in BOTH {
        assert!(rt; does(rt.alloc(), &file, row, Nul::Keep)?, "{row:?}");
        assert!(rt; does(rt.alloc(), &file, row, Nul::Drop)?, "{row:?}");
    }
    Ok(())
}

#[test]
fn a_file_of_one_program_starts_its_copy(rt: HostRuntime) -> Result<(), Fail> {
    let Ok(file) = link(rt.alloc(), &other(), None, &all(), &mut Block::new()) else {
        return Err("refused".into());
    };
    for row in ONE {
        assert!(rt; does(rt.alloc(), &file, row, Nul::Keep)?, "{row:?}");
    }
    Ok(())
}

/// Whether the script of a linked file ends so, and leaves such a copy.
fn does(alloc: Global, file: &[u8], row: &Row, nul: Nul) -> Result<bool, AllocError> {
    let env = env_of(alloc, row)?;
    let mut host = host(alloc, file)?;
    let ended = run_script(alloc, file, nul, &env, &mut host);
    let ends = match &ended {
        Ok(Outcome::Execs { path, .. }) => row.4 == Ok(text(path.as_slice())),
        Ok(Outcome::Exits { status }) => row.4 == Err(*status),
        Err(_) => false,
    };
    let copied = match host.files.get(b"/tmp/ape.7") {
        Some(copy) => is_copy(file, copy.bytes.as_slice(), row.5),
        None => matches!(row.5, Copied::Nothing),
    };
    Ok(ends && copied)
}

fn text(path: &[u8]) -> &'static str {
    match path {
        b"/tmp/ape.7" => "/tmp/ape.7",
        b"ape" => "ape",
        _ => "",
    }
}

fn is_copy(file: &[u8], copy: &[u8], copied: Copied) -> bool {
    match copied {
        Copied::Nothing => false,
        Copied::Whole => copy == file,
        Copied::Elf(machine) => {
            copy.starts_with(b"\x7fELF")
                && copy.get(18) == Some(&machine)
                && copy.get(64..) == file.get(64..)
        }
        Copied::Mach(end) => {
            let half = file.get(8192..).unwrap_or_default();
            copy.get(..end) == half.get(..end) && copy.get(end..) == file.get(end..)
        }
    }
}

fn all() -> Options
    ensures { result.debug ≡ false }
{
    Options {
        systems: Systems::LINUX
            .union(Systems::FREEBSD)
            .union(Systems::NETBSD)
            .union(Systems::MAC),
        debug: false,
    }
}

fn env_of(alloc: Global, row: &Row) -> Result<Env, AllocError> {
    Ok(Env {
        zero: Items::from_slice(alloc, b"app")?,
        args: Items::new(alloc),
        tmpdir: None,
        pid: 7,
        machine: Items::from_slice(alloc, row.1.as_bytes())?,
        system: Items::from_slice(alloc, row.0.as_bytes())?,
        ape: row.2,
        fails: Items::from_slice(alloc, row.3)?,
    })
}

fn host(alloc: Global, file: &[u8]) -> Result<Host, AllocError> {
    let mut files = Files::new(alloc);
    let bytes = Items::from_slice(alloc, file)?;
    files.insert(alloc, b"app", HostFile { bytes, mode: 0o755 })?;
    let out = Items::new(alloc);
    Ok(Host { files, out })
}
