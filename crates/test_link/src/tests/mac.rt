// A program that tells by a symbol where it starts on macOS, linked from memory, and what the Mach-O reading finds in a copy of its
// linked file with the Mach-O header over the first bytes.
ghost use Rattle.std.specs.Prelude.{◌≡◌, ◌≤◌, false};

use super::PLAIN;
use ap_check::{Options, Systems};
use ap_claims::{Block, Owners};
use ap_fields::{put16, put32, put64};
use ap_image::Reading;
use ap_link::{LinkFault, link};
use ap_machmap::MachReading;
use bitflags::Flags;
use std::test::Fail;

#[test]
fn a_copy_starts_where_the_symbol_tells(rt: HostRuntime) -> Result<(), Fail> {
    let mut block = Block::new();
    let linked = link(rt.alloc(), &program(0x401008), None, &mac(), &mut block);
    let Ok(file) = linked else {
        return Err("refused".into());
    };
    assert!(rt; file.len() == 20480);
    assert!(rt; block.owners(8191) == Owners::SHELL && block.owners(8192) == Owners::MACH);
    assert!(rt; block.owners(8551) == Owners::MACH && block.owners(8552) == Owners::default());
    let mut copy = Vec::new(rt.alloc());
    copy.extend_from_slice(file.get(8192..8552).ok_or("short")?)?;
    copy.extend_from_slice(file.get(360..).ok_or("short")?)?;
    let Ok(plan) = MachReading.read(&copy) else {
        return Err("no Mach-O file".into());
    };
    let [region] = plan.regions.as_slice() else {
        return Err("not one region".into());
    };
    assert!(rt; plan.entry == 0x401008);
    assert!(rt; (region.start, region.span, region.perms.bits()) == (0x401000, 4096, 5));
    assert!(rt; (region.at, region.backed) == (16384, 4096));
    Ok(())
}

#[test]
fn a_start_outside_the_loads_is_refused(rt: HostRuntime) -> Result<(), Fail> {
    let linked = link(
        rt.alloc(),
        &program(0x401010),
        None,
        &mac(),
        &mut Block::new(),
    );
    let Err(LinkFault::Rule(fault)) = linked else {
        return Err("taken".into());
    };
    assert!(rt; (fault.rule, fault.input, fault.item, fault.value) == (29, 1, 0, 0x401010));
    Ok(())
}

/// PLAIN with a value of `ape_mach_entry`.
fn program(entry: u64) -> [u8; 400] {
    let mut file = [0; 400];
    file[..144].copy_from_slice(&PLAIN);
    put64(&mut file, 40, 208);
    put16(&mut file, 60, 3);
    put32(&mut file, 168, 1);
    put16(&mut file, 174, 0xfff1);
    put64(&mut file, 176, entry);
    file[193..207].copy_from_slice(b"ape_mach_entry");
    put_section(&mut file, 272, 2, 144, 48);
    put32(&mut file, 312, 2);
    put64(&mut file, 328, 24);
    put_section(&mut file, 336, 3, 192, 16);
    file
}

/// The type of a section, and where it stands in the file.
fn put_section(file: &mut [u8; 400], at: usize, kind: u32, offset: u64, size: u64)
    requires { at ≤ 336 }
{
    put32(file, at + 4, kind);
    put64(file, at + 24, offset);
    put64(file, at + 32, size);
}

fn mac() -> Options
    ensures { result.debug ≡ false }
{
    Options {
        systems: Systems::MAC,
        debug: false,
    }
}
