// What is claimed of a block is held, and what is held with another value is told.
use ap_claims::*;
use ap_fields::BLOCK;
use bitflags::Flags;

const NUMBERS: &[u8] = b"\x01\x02\x03\x04\x05\x06\x07\x08\x09\x0a\x0b\x0c\x0d\x0e\x0f\x10";

#[test]
fn two_owners_share_equal_bytes(rt: HostRuntime) {
    let mut block = Block::new();
    assert!(rt; block.claim(Owner::Ape, 0, b"MZqFpD='").is_ok());
    assert!(rt; block.claim(Owner::Dos, 0, b"MZ").is_ok());
    let clash = Clash {
        at: 1,
        held: 90,
        asked: 81,
        by: Owner::Dos,
    };
    assert!(rt; block.claim(Owner::Pe, 0, b"MQ") == Err(clash));
    let both = Owners::APE.union(Owners::DOS);
    for (at, owners) in [
        (0, both),
        (1, both),
        (2, Owners::APE),
        (8, Owners::default()),
    ] {
        assert!(rt; block.owners(at) == owners, "of byte {at}");
    }
    assert!(rt; block.bytes().starts_with(b"MZqFpD='\0\0"));
}

#[test]
fn every_byte_may_have_other_owners_than_the_next(rt: HostRuntime) {
    let mut block = Block::new();
    for i in 0..BLOCK / 2 {
        assert!(rt; block.claim(Owner::Ape, 2 * i, &[1]).is_ok());
    }
    assert!(rt; block.claim(Owner::Pe, 0, &[1; BLOCK]).is_ok());
    for i in 0..BLOCK / 2 {
        assert!(rt; block.owners(2 * i) == Owners::APE.union(Owners::PE), "{i}");
        assert!(rt; block.owners(2 * i + 1) == Owners::PE, "{i}");
    }
}

#[test]
fn each_owner_is_named(rt: HostRuntime) {
    for (owner, owners) in [
        (Owner::Shell, Owners::SHELL),
        (Owner::Dos, Owners::DOS),
        (Owner::Pe, Owners::PE),
        (Owner::Ape, Owners::APE),
        (Owner::Elf, Owners::ELF),
        (Owner::Mach, Owners::MACH),
        (Owner::Area, Owners::AREA),
    ] {
        let mut block = Block::new();
        assert!(rt; block.claim(owner, 16383, &[7]).is_ok());
        assert!(rt; block.owners(16383) == owners);
        let clash = Clash {
            at: 16383,
            held: 7,
            asked: 0,
            by: owner,
        };
        assert!(rt; block.claim(Owner::Shell, 16382, &[0, 0]) == Err(clash));
        assert!(rt; block.owners(16382) == Owners::default());
    }
}

#[test]
fn views_claim_from_their_start(rt: HostRuntime) {
    let mut block = Block::new();
    let mut elf = ElfView::new(&mut block, 96);
    assert!(rt; elf.put16(0, 0x0201).is_ok() && elf.put32(2, 0x06050403).is_ok());
    assert!(rt; elf.put64(6, 0x0e0d0c0b0a090807).is_ok() && elf.put_bytes(14, b"\x0f\x10").is_ok());
    let mut pe = PeView::new(&mut block, 128);
    assert!(rt; pe.put16(0, 0x0201).is_ok() && pe.put32(2, 0x06050403).is_ok());
    assert!(rt; pe.put64(6, 0x0e0d0c0b0a090807).is_ok() && pe.put_bytes(14, b"\x0f\x10").is_ok());
    let mut mach = MachView::new(&mut block, 8192);
    assert!(rt; mach.put16(0, 0x0201).is_ok() && mach.put32(2, 0x06050403).is_ok());
    assert!(rt;
        mach.put64(6, 0x0e0d0c0b0a090807).is_ok() && mach.put_bytes(14, b"\x0f\x10").is_ok()
    );
    for (at, owners) in [(96, Owners::ELF), (128, Owners::PE), (8192, Owners::MACH)] {
        assert!(rt; block.bytes()[at..].starts_with(NUMBERS), "{at}");
        assert!(rt;
            block.owners(at) == owners && block.owners(at + 15) == owners,
            "{at}"
        );
        assert!(rt; block.owners(at + 16) == Owners::default(), "{at}");
    }
}

#[test]
fn a_number_of_a_view_meets_a_held_byte(rt: HostRuntime) {
    let mut block = Block::new();
    assert!(rt; block.claim(Owner::Shell, 97, &[9]).is_ok());
    let clash = Clash {
        at: 97,
        held: 9,
        asked: 0,
        by: Owner::Shell,
    };
    assert!(rt; ElfView::new(&mut block, 96).put32(0, 1) == Err(clash));
    assert!(rt; block.bytes()[95..].starts_with(b"\0\0\x09\0\0\0"));
    assert!(rt; block.owners(96) == Owners::default() && block.owners(97) == Owners::SHELL);
}
