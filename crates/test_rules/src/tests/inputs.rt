// What is taken of inputs, of two together, and of a file by its name.
use super::{Edit, LOAD, PLAIN, Row, USUAL, USUAL_ROWS, entry_of, front, linux, other, taken};
use ap_check::*;
use ap_fields::Perms;
use ap_files::MemoryFiles;
use bitflags::Flags;
use std::process::Abort;
use std::test::Fail;

/// Three sections behind PLAIN, of which the second has a symbol and the third its name, `ape_pe_entry`.
const NAMED: &[Edit] = &[
    (8, 40, 208),
    (2, 60, 3),
    (4, 168, 1),
    (2, 174, 0xfff1),
    (8, 176, 0x401008),
    (8, 193, 0x655f_6570_5f65_7061),
    (4, 201, 0x7972_746e),
    (4, 276, 2),
    (8, 296, 144),
    (8, 304, 48),
    (4, 312, 2),
    (8, 328, 24),
    (4, 340, 3),
    (8, 360, 192),
    (8, 368, 14),
];

#[test]
fn a_plain_program_is_taken(rt: HostRuntime) -> Result<(), Fail> {
    let input = check_input(&PLAIN, 1).ok().ok_or("refused")?;
    assert!(rt; (input.size, input.number, input.entry) == (144, 1, 0x401000));
    assert!(rt; input.machine == Machine::X64);
    let load = Load {
        offset: 128,
        vaddr: 0x401000,
        filesz: 16,
        memsz: 16,
        perms: Perms::from_bits_retain(5),
    };
    assert!(rt; input.loads.as_slice() == [load].as_slice());
    assert!(rt; input.tls.is_none() && input.stack.is_none() && input.notes.is_empty());
    assert!(rt; input.symbols == Symbols::default());
    Ok(())
}

#[test]
fn a_file_is_refused_by_its_bytes_and_its_size(rt: HostRuntime) {
    let fault = |rule: u8, value: u64| Fault {
        rule,
        input: 2,
        item: 0,
        value,
    };
    let mut file = PLAIN;
    file[4] = 1;
    assert!(rt; check_input(&file, 2).err() == Some(fault(4, 1)));
    assert!(rt; check_size(268435457, 2) == Err(fault(1, 268435457)));
    assert!(rt; check_size(63, 2) == Err(fault(2, 63)));
    assert!(rt; check_size(268435456, 2).is_ok());
}

// Each call fails in turn; none where the number is 0, or above that of the calls.
#[test]
fn a_program_with_a_symbol_is_taken_by_its_bytes_and_its_name(rt: HostRuntime) -> Result<(), Fail> {
    let named = named(&rt);
    let wanted = Some(Symbols {
        pe_entry: Some(0x401008),
        ..Symbols::default()
    });
    assert!(rt; check_input(&named, 1).ok().map(|i| i.symbols) == wanted);
    let mut failed = 0u64;
    for fails in 0..20u64 {
        let mut files = MemoryFiles::new(rt.alloc(), &[fails])?;
        files.put("a", &named)?;
        match check_input_in(&mut files, "a", 1) {
            Ok(input) => assert!(rt; Some(input.symbols) == wanted),
            Err(end) => {
                failed = failed.saturating_add(1);
                assert!(rt; end == CheckEnd::ReadFault && fails == failed);
            }
        }
    }
    assert!(rt; failed > 0 && failed < 19);
    Ok(())
}

#[test]
fn a_missing_file_is_a_failed_read(rt: HostRuntime) -> Result<(), Fail> {
    let mut files = MemoryFiles::new(rt.alloc(), &[])?;
    assert!(rt; check_input_in(&mut files, "a", 1).err() == Some(CheckEnd::ReadFault));
    Ok(())
}

#[test]
fn a_usual_program_is_taken(rt: HostRuntime) -> Result<(), Fail> {
    let input = taken(&rt, USUAL, 2).ok().ok_or("refused")?;
    assert!(rt; (input.size, input.number, input.loads.len()) == (702872, 2, 4));
    assert!(rt; input.tls == Some(entry_of(USUAL_ROWS[6])));
    assert!(rt; input.stack == Some(entry_of(USUAL_ROWS[8])));
    let notes = [entry_of(USUAL_ROWS[4]), entry_of(USUAL_ROWS[5])];
    assert!(rt; input.notes.as_slice() == notes.as_slice());
    Ok(())
}

#[test]
fn five_notes_are_taken(rt: HostRuntime) -> Result<(), Fail> {
    let empty: Row = (4, 4, 0, 0x401000, 0, 0, 4);
    let outside: Row = (4, 4, 0, 0x401001, 16, 16, 4);
    let note: Row = (4, 4, 128, 0x401000, 16, 16, 4);
    let last: Row = (4, 4, 128, 0x401008, 8, 8, 4);
    let rows = [LOAD, empty, outside, note, note, note, note, last, note];
    let file = front(&rt, 62, 0x401000, &rows);
    let input = check_input(&file, 1).ok().ok_or("refused")?;
    let one = entry_of(note);
    let notes = [one, one, one, one, entry_of(last)];
    assert!(rt; input.notes.as_slice() == notes.as_slice());
    Ok(())
}

#[test]
fn two_inputs_are_for_two_machines(rt: HostRuntime) -> Result<(), Fail> {
    let options = linux();
    let first = check_input(&PLAIN, 1).ok().ok_or("refused")?;
    let second = check_input(&other(), 2).ok().ok_or("refused")?;
    assert!(rt; first.size == 144 && second.size == 144);
    let job = check_all(&first, Some(&second), &options, &PLAIN)
        .ok()
        .ok_or("refused")?;
    assert!(rt; job.second.map(|i| i.machine) == Some(Machine::A64));
    assert!(rt; job.options == options && job.base == 0);
    Ok(())
}

#[test]
fn two_inputs_are_not_for_one_machine(rt: HostRuntime) -> Result<(), Fail> {
    let first = check_input(&PLAIN, 1).ok().ok_or("refused")?;
    let second = check_input(&PLAIN, 2).ok().ok_or("refused")?;
    assert!(rt; first.size == 144 && second.size == 144);
    let found = check_all(&first, Some(&second), &linux(), &PLAIN);
    let fault = Fault {
        rule: 23,
        input: 2,
        item: 0,
        value: 62,
    };
    assert!(rt; found.err() == Some(fault));
    Ok(())
}

/// PLAIN with three sections, for one symbol and its name.
fn named(rt: &impl Abort) -> [u8; 400] {
    let mut file = [0; 400];
    file[..144].copy_from_slice(&PLAIN);
    for (width, at, number) in NAMED {
        assert!(rt; *width <= 8 && *at <= 392);
        file[*at..*at + *width].copy_from_slice(&number.to_le_bytes()[..*width]);
    }
    file
}
