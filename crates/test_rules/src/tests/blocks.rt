// Blocks byte by byte: the worked example, two machines, owners, and claims that clash.
use super::{PLAIN, apart, linux, other};
use ap_check::{check_all, check_input};
use ap_claims::{Block, Clash, Owner, Owners};
use ap_fields::BLOCK;
use ap_layout::place;
use ap_script::{choose_delimiter, elf_header, write_script, write_tables};
use bitflags::Flags;
use std::test::Fail;

const OPENING: &[u8] = b"jartsr='\n\
    \0\0\0\0\0\0\0\0\0\0\0\0\0\0\0\0\0\0\0\0\0\0\0\0\0\0\0\0\0\0\0\0\0\0\0\0\0\0\0\0\0\0\0\0\0\0\0\0\0\0\0\0\0\0\0\
    ' <<'apelink00000000'\n\0\0\0\0\0\0\0\0\0\0\x01\0\0\0\x05\0\0\0";

const SCRIPT: &[u8] = b"\napelink00000000\n\
    if command -v ape >/dev/null 2>&1; then\n\
    exec ape \"$0\" \"$@\"\n\
    fi\n\
    m=$(uname -m)\n\
    s=$(uname -s)\n\
    t=\"${TMPDIR:-/tmp}/ape.$$\"\n\
    if [ \"$s\" = Linux ]; then\n\
    if [ \"$m\" = x86_64 ] || [ \"$m\" = amd64 ]; then\n\
    cp \"$0\" \"$t\" || exit 121\n\
    chmod 700 \"$t\" || exit 122\n\
    printf '\\177ELF\\002\\001\\001\\011\\000\\000\\000\\000\\000\\000\\000\\000\\002\\000\\076\\000\\001\\000\\000\\000\\000\\020\\100\\000\\000\\000\\000\\000\\140\\000\\000\\000\\000\\000\\000\\000\\000\\000\\000\\000\\000\\000\\000\\000\\000\\000\\000\\000\\100\\000\\070\\000\\001\\000\\000\\000\\000\\000\\000\\000' 1<>\"$t\" || exit 124\n\
    exec \"$t\" \"$@\"\n\
    fi\n\
    fi\n\
    exit 126\n ";

const X64_LINES: &[u8] = b"if [ \"$m\" = x86_64 ] || [ \"$m\" = amd64 ]; then\n\
    cp \"$0\" \"$t\" || exit 121\n\
    chmod 700 \"$t\" || exit 122\n\
    printf '\\177ELF\\002\\001\\001\\011\\000\\000\\000\\000\\000\\000\\000\\000\\002\\000\\076\\000";

const A64_LINES: &[u8] = b"if [ \"$m\" = aarch64 ] || [ \"$m\" = arm64 ]; then\n\
    cp \"$0\" \"$t\" || exit 121\n\
    chmod 700 \"$t\" || exit 122\n\
    printf '\\177ELF\\002\\001\\001\\011\\000\\000\\000\\000\\000\\000\\000\\000\\002\\000\\267\\000";

#[test]
fn each_byte_of_a_block_has_its_owners(rt: HostRuntime) -> Result<(), Fail> {
    let input = check_input(&PLAIN, 1).ok().ok_or("refused")?;
    assert!(rt; input.size == 144);
    let job = check_all(&input, None, &linux(), &PLAIN)
        .ok()
        .ok_or("refused")?;
    let lay = place(&job, &apart());
    let mut block = Block::new();
    assert!(rt; write_tables(&mut block, &job, &lay).is_ok());
    assert!(rt; write_script(&mut block, &job, &lay).is_ok());
    for at in 0..BLOCK {
        let owners = match at {
            0..=7 | 411..=666 => Owners::SHELL.union(Owners::APE),
            8 | 64..=85 | 152..=410 | 667..=8191 => Owners::SHELL,
            96..=151 => Owners::ELF,
            _ => Owners::default(),
        };
        assert!(rt; block.owners(at) == owners, "of byte {at}");
    }
    assert!(rt; block.bytes().starts_with(OPENING));
    assert!(rt; block.bytes()[152..].starts_with(SCRIPT));
    assert!(rt; block.bytes()[718..8192].iter().all(|byte| *byte == b' '));
    assert!(rt; block.bytes()[8192..].iter().all(|byte| *byte == 0));
    Ok(())
}

#[test]
fn two_machines_stand_in_either_order(rt: HostRuntime) -> Result<(), Fail> {
    for (one, two, machines) in [(PLAIN, other(), [62, 183]), (other(), PLAIN, [183, 62])] {
        let first = check_input(&one, 1).ok().ok_or("refused")?;
        let second = check_input(&two, 2).ok().ok_or("refused")?;
        assert!(rt; first.size == 144 && second.size == 144);
        let job = check_all(&first, Some(&second), &linux(), &PLAIN)
            .ok()
            .ok_or("refused")?;
        let lay = place(&job, &apart());
        assert!(rt; lay.tables.as_slice() == [96, 152].as_slice() && lay.body_end == 208);
        let [h, g] = [elf_header(&job, &lay, 0), elf_header(&job, &lay, 1)];
        assert!(rt; [h[18], g[18]] == machines && [h[32], g[32]] == [96, 152]);
        let mut block = Block::new();
        assert!(rt; write_tables(&mut block, &job, &lay).is_ok());
        assert!(rt; write_script(&mut block, &job, &lay).is_ok());
        assert!(rt; block.bytes()[368..].starts_with(X64_LINES));
        assert!(rt; block.bytes()[762..].starts_with(A64_LINES));
        assert!(rt; block.bytes()[1157..].starts_with(b"fi\nexit 126\n "));
    }
    Ok(())
}

#[test]
fn a_held_byte_is_told(rt: HostRuntime) -> Result<(), Fail> {
    let input = check_input(&PLAIN, 1).ok().ok_or("refused")?;
    assert!(rt; input.size == 144);
    let job = check_all(&input, None, &linux(), &PLAIN)
        .ok()
        .ok_or("refused")?;
    let lay = place(&job, &apart());
    let mut block = Block::new();
    assert!(rt; block.claim(Owner::Shell, 97, &[9]).is_ok());
    let clash = Clash {
        at: 97,
        held: 9,
        asked: 0,
        by: Owner::Shell,
    };
    assert!(rt; write_tables(&mut block, &job, &lay) == Err(clash));
    assert!(rt; block.owners(96) == Owners::default());
    assert!(rt; block.bytes()[95..].starts_with(&[0, 0, 9, 0]));
    Ok(())
}

#[test]
fn delimiters_are_free(rt: HostRuntime) {
    for (body, number) in [
        (b"".as_slice(), 0),
        (b"\napelink0000000", 0),
        (b"\napelink00000000\n", 1),
        (b"apelink00000001", 0),
        (b"apelink00000001apelink00000000", 2),
        (
            b"a\0p\0e\0l\0i\0n\0k\0\0000\x000\x000\x000\x000\x000\x000\x000",
            1,
        ),
    ] {
        assert!(rt; choose_delimiter(body) == number);
    }
}
