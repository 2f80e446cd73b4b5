// The script of a linked file, in both readings of NUL: which copy it starts for which system and machine.
use super::given::{arguments, end_text};
use ap_shell::{Env, Files, Host, HostFile, run_script};
use ap_shparse::Nul;
use sqlite_items::Items;
use std::alloc::{AllocError, Global};
use std::test::Fail;

/// The script for both machines and all systems, with statements of five bytes and a Mach-O header of eight.
const SCRIPT: &[u8] = b"jartsr='\n\0\0' <<'apelink00000000'\n\0\x01\0)\napelink00000000\n\
    if command -v ape >/dev/null 2>&1; then\n\
    exec ape \"$0\" \"$@\"\n\
    fi\n\
    m=$(uname -m)\n\
    s=$(uname -s)\n\
    t=\"${TMPDIR:-/tmp}/ape.$$\"\n\
    if [ \"$s\" = Darwin ]; then\n\
    if [ \"$m\" = x86_64 ]; then\n\
    cp \"$0\" \"$t\" || exit 121\n\
    chmod 700 \"$t\" || exit 122\n\
    dd if=\"$t\" of=\"$t\" bs=8 skip=2 count=1 conv=notrunc 2>/dev/null || exit 123\n\
    exec \"$t\" \"$@\"\n\
    fi\n\
    exit 125\n\
    fi\n\
    if [ \"$s\" = Linux ] || [ \"$s\" = FreeBSD ] || [ \"$s\" = NetBSD ]; then\n\
    if [ \"$m\" = x86_64 ] || [ \"$m\" = amd64 ]; then\n\
    cp \"$0\" \"$t\" || exit 121\n\
    chmod 700 \"$t\" || exit 122\n\
    printf '\\177ELF\\076' 1<>\"$t\" || exit 124\n\
    exec \"$t\" \"$@\"\n\
    fi\n\
    if [ \"$m\" = aarch64 ] || [ \"$m\" = arm64 ]; then\n\
    cp \"$0\" \"$t\" || exit 121\n\
    chmod 700 \"$t\" || exit 122\n\
    printf '\\177ELF\\267' 1<>\"$t\" || exit 124\n\
    exec \"$t\" \"$@\"\n\
    fi\n\
    fi\n\
    exit 126\n ";

/// The file, and its copies for the two machines and for macOS.
const FILE: &[u8] = b"0123456789abcdefMachHead";

const X64: &[u8] = b"\x7fELF\x3e56789abcdefMachHead";

const A64: &[u8] = b"\x7fELF\xb756789abcdefMachHead";

const MAC: &[u8] = b"MachHead89abcdefMachHead";

/// A system, a machine, whether `ape` is found, and the utility calls that fail; the outcome, and the copy's bytes, or none
/// where there is no copy.
type Row = (
    &'static str,
    &'static str,
    bool,
    &'static [u32],
    &'static str,
    &'static [u8],
);

const STARTS: &str = "execs /tmp/ape.7 [1] [2 3]";

const LOADER: &str = "execs ape [app] [1] [2 3]";

const ROWS: &[Row] = &[
    ("Linux", "x86_64", false, &[], STARTS, X64),
    ("FreeBSD", "amd64", false, &[], STARTS, X64),
    ("NetBSD", "x86_64", false, &[], STARTS, X64),
    ("Linux", "aarch64", false, &[], STARTS, A64),
    ("Linux", "arm64", false, &[], STARTS, A64),
    ("Darwin", "x86_64", false, &[], STARTS, MAC),
    ("Darwin", "arm64", false, &[], "exits 125", b""),
    ("Linux", "riscv64", false, &[], "exits 126", b""),
    ("linux", "x86_64", false, &[], "exits 126", b""),
    ("Linux", "x86_64", true, &[], LOADER, b""),
    ("Linux", "x86_64", false, &[1], "exits 126", b""),
    ("Linux", "x86_64", false, &[3], "exits 121", b""),
    ("Linux", "x86_64", false, &[4], "exits 122", FILE),
    ("Linux", "x86_64", false, &[5], "exits 124", FILE),
    ("Darwin", "x86_64", false, &[5], "exits 123", FILE),
];

#[test]
fn the_script_starts_the_copy_for_its_machine(rt: HostRuntime) -> Result<(), Fail> {
    for row in ROWS {
        for nul in [Nul::Keep, Nul::Drop] {
            let env = env_of(rt.alloc(), row)?;
            let mut host = host(rt.alloc())?;
            let ended = run_script(rt.alloc(), SCRIPT, nul, &env, &mut host);
            let found = end_text(rt.alloc(), &ended)?;
            assert!(rt; found.as_slice() == row.4.as_bytes(), "{row:?}");
            let copy = host.files.get(b"/tmp/ape.7");
            assert!(rt;
                copy.map_or(b"".as_slice(), |f| f.bytes.as_slice()) == row.5,
                "{row:?}"
            );
        }
    }
    Ok(())
}

fn env_of(alloc: Global, row: &Row) -> Result<Env, AllocError> {
    Ok(Env {
        zero: Items::from_slice(alloc, b"app")?,
        args: arguments(alloc)?,
        tmpdir: None,
        pid: 7,
        machine: Items::from_slice(alloc, row.1.as_bytes())?,
        system: Items::from_slice(alloc, row.0.as_bytes())?,
        ape: row.2,
        fails: Items::from_slice(alloc, row.3)?,
    })
}

fn host(alloc: Global) -> Result<Host, AllocError> {
    let mut files = Files::new(alloc);
    let bytes = Items::from_slice(alloc, FILE)?;
    files.insert(alloc, b"app", HostFile { bytes, mode: 0o644 })?;
    let out = Items::new(alloc);
    Ok(Host { files, out })
}
