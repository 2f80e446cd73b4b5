// Numbers of an ELF header, rounded addresses, and decimal digits.
use ap_fields::*;

#[test]
fn numbers_stand_lowest_byte_first(rt: HostRuntime) {
    let header = *b"\x7fELF\x02\x01\x01\0\0\x10\x40\0\0\0\0\0";
    assert!(rt; le16(&header, 4) == 0x0102);
    assert!(rt; le32(&header, 0) == 0x464c457f);
    assert!(rt; le64(&header, 8) == 0x401000);
    let mut written = [0xaau8; 16];
    put16(&mut written, 0, 62);
    put32(&mut written, 2, 0xfeedfacf);
    put64(&mut written, 7, 0x7fff_ffff_f000);
    assert!(rt; &written == b"\x3e\0\xcf\xfa\xed\xfe\xaa\0\xf0\xff\xff\xff\x7f\0\0\xaa");
}

#[test]
#[tactic(auto, using(ap_fields::proofs::Granules::powers))]
fn addresses_are_rounded_and_numbers_printed(rt: HostRuntime) {
    assert!(rt; floor_to(0x401234, 4096) == 0x401000 && floor_to(0x401000, 4096) == 0x401000);
    assert!(rt; ceil_to(0x401234, 4096) == 0x402000 && ceil_to(0x401000, 4096) == 0x401000);
    for (v, text) in [
        (0, b"..0...................".as_slice()),
        (1024, b"..1024................"),
        (18446744073709551615, b"..18446744073709551615"),
    ] {
        let mut out = [b'.'; 22];
        put_decimal(&mut out, 2, v);
        assert!(rt; out.as_slice() == text, "{v}");
    }
}
