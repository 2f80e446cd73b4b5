// The program header tables.
ghost use Rattle.std.specs.Prelude.{◌≡◌, ◌≤◌};
ghost use Rattle.ap_layout.specs.declared.sizes.TheConstants.{MOST_ENTRIES, MOST_TABLE};
ghost use Rattle.ap_layout.specs.Positions as spec;
ghost use Rattle.ap_layout.specs.Positions.{one_if, table_length};

use ap_check::Input;
use ap_elf::Entry;
use ap_elf::constants::PHDR_SIZE;

/// How many program headers the linker writes for an input: its loads, its stack's, its notes and its
/// thread-local storage's.
pub fn entry_count(e: &Input) -> u16
    ensures count { result ≡ spec.entry_count e.now }
    ensures few { result ≤ MOST_ENTRIES }
{
    let loads = e.loads.len() as u16;
    let notes = e.notes.len() as u16;
    loads + one_if(&e.stack) + notes + one_if(&e.tls)
}

/// The bytes of an input's program header table.
pub fn table_length(e: &Input) -> u32
    ensures length { result ≡ spec.table_length e.now }
    ensures few { result ≤ MOST_TABLE }
{
    PHDR_SIZE as u32 * u32::from(entry_count(e))
}

fn one_if(entry: &Option<Entry>) -> u16
    ensures { result ≡ spec.one_if entry.now }
{
    match entry {
        None => 0,
        Some(_) => 1,
    }
}
