// Rule 29, where the Mach-O header stands, and the script's lines for macOS.
ghost use Rattle.std.specs.Prelude.{◌≡◌, false};

use super::{PLAIN, USUAL, apart, file_of, other, taken};
use ap_check::*;
use ap_claims::{Block, Owners};
use ap_layout::place;
use ap_mach::write_mach;
use ap_script::{write_script, write_tables};
use std::process::Abort;
use std::test::Fail;

const DARWIN: &[u8] = b"if [ \"$s\" = Darwin ]; then\n\
    if [ \"$m\" = x86_64 ]; then\n\
    cp \"$0\" \"$t\" || exit 121\n\
    chmod 700 \"$t\" || exit 122\n\
    dd if=\"$t\" of=\"$t\" bs=8 skip=1024 count=45 conv=notrunc 2>/dev/null || exit 123\n\
    exec \"$t\" \"$@\"\n\
    fi\n\
    exit 125\n\
    fi\n\
    if [ 0 = 1 ]; then\n\
    if [ \"$m\" = x86_64 ]";

const NO_DARWIN: &[u8] = b"if [ \"$s\" = Darwin ]; then\n\
    exit 125\n\
    fi\n\
    if [ 0 = 1 ]; then\n\
    if [ \"$m\" = aarch64 ]";

fn mac() -> Options
    ensures { result.debug ≡ false }
{
    Options {
        systems: Systems::MAC,
        debug: false,
    }
}

#[test]
fn a_program_starts_in_a_load(rt: HostRuntime) -> Result<(), Fail> {
    let rows = [
        (Systems::MAC, None, false),
        (Systems::MAC, Some(0x40100f), false),
        (Systems::MAC, Some(0x401010), true),
        (Systems::MAC, Some(0x400fff), true),
        (Systems::LINUX, Some(0x401010), false),
    ];
    for (systems, entry, refused) in rows {
        let mut input = check_input(&PLAIN, 1).ok().ok_or("refused")?;
        input.symbols.mach_entry = entry;
        assert!(rt; input.number == 1 && input.size == 144);
        let options = Options {
            systems,
            debug: false,
        };
        let fault = check_all(&input, None, &options, &PLAIN).err();
        assert!(rt; fault.is_some() == refused, "{entry:?}");
        if let Some(fault) = fault {
            assert!(rt; (fault.rule, fault.input, fault.item) == (29, 1, 0));
            assert!(rt; Some(fault.value) == entry);
        }
    }
    Ok(())
}

#[test]
fn the_rule_is_of_the_input_for_x86_64(rt: HostRuntime) -> Result<(), Fail> {
    let first = check_input(&other(), 1).ok().ok_or("refused")?;
    let mut second = check_input(&PLAIN, 2).ok().ok_or("refused")?;
    second.symbols.mach_entry = Some(0x404000);
    assert!(rt; second.number == 2 && first.size == 144 && second.size == 144);
    let fault = check_all(&first, Some(&second), &mac(), &PLAIN).err();
    let fault = fault.ok_or("taken")?;
    assert!(rt; (fault.rule, fault.input, fault.item, fault.value) == (29, 2, 0, 0x404000));
    Ok(())
}

#[test]
fn the_header_stands_behind_the_window(rt: HostRuntime) -> Result<(), Fail> {
    let input = taken(&rt, USUAL, 1).ok().ok_or("refused")?;
    let mut files = file_of(&rt, USUAL);
    let job = check_all_in(&input, None, &mac(), &mut files, "a")
        .ok()
        .ok_or("refused")?;
    let lay = place(&job, &apart());
    assert!(rt; (lay.mach_at, lay.mach_len) == (8192, 576));
    let mut block = Block::new();
    assert!(rt; write_mach(&mut block, &job, &lay).is_ok());
    assert!(rt; block.owners(8191) == Owners::default() && block.owners(8192) == Owners::MACH);
    assert!(rt; block.owners(8767) == Owners::MACH && block.owners(8768) == Owners::default());
    assert!(rt; block.bytes()[8208..].starts_with(&[6, 0, 0, 0, 0x20, 2, 0, 0]));
    for (program, len, lines) in [(PLAIN, 360, DARWIN), (other(), 0, NO_DARWIN)] {
        is_written(&rt, &program, len, lines).ok_or("refused")?;
    }
    Ok(())
}

/// The length of the Mach-O header of a linked file, and the lines of its script behind the first ones. `None`, where the program
/// isn't taken.
fn is_written(rt: &impl Abort, program: &[u8; 144], len: u32, lines: &[u8]) -> Option<()> {
    let input = check_input(program, 1).ok()?;
    assert!(rt; input.size == 144);
    let job = check_all(&input, None, &mac(), program).ok()?;
    let lay = place(&job, &apart());
    assert!(rt; lay.mach_len == len && (lay.mach_at == 8192) == (len != 0));
    let mut block = Block::new();
    write_tables(&mut block, &job, &lay).ok()?;
    write_script(&mut block, &job, &lay).ok()?;
    assert!(rt; block.bytes()[286..].starts_with(lines));
    Some(())
}
