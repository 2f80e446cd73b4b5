// The program header table that the linker writes for an input.
ghost use Rattle.std.specs.Prelude.{◌≡◌, ◌+◌, ◌≤◌, ◌<◌, ◌++◌, [], ◌∷◌, Some, length, map, All};
ghost use Rattle.ap_fields.specs.declared.sizes.TheConstants.{MOST_LOADS};
ghost use Rattle.ap_elf.specs.Machines.{granule_of};
ghost use Rattle.ap_layout.specs.declared.sizes.TheConstants.{MOST_ENTRIES, FILE_TOP};
ghost use Rattle.ap_script.specs.Tables as spec;
ghost use Rattle.ap_script.specs.Tables.{load_entries, stack_entries, tls_entries, table_of};
ghost use Rattle.ap_script.specs.Places.{Placed};

use crate::place::place_of;
use ap_check::{Input, Load};
use ap_elf::Entry;
use ap_elf::constants::{PF_R, PF_W, PF_X, PT_GNU_STACK, PT_LOAD, PT_NOTE, PT_TLS};
use ap_layout::{Area, MOST_ENTRIES, stack_size};
use arrayvec::ArrayVec;
use bitflags::Flags;

// What a stack's address is a multiple of.
const STACK_ALIGN: u64 = 16;

// All flags that the memory of a program may have.
const ALL_FLAGS: u32 = PF_R | PF_W | PF_X;

pub(crate) type Table = ArrayVec<Entry, MOST_ENTRIES>;

/// The program headers of an input whose loads have these areas.
#[tactic(auto, unfolding(crate::specs::Tables::table_of))]
pub(crate) fn table(input: &Input, areas: &[Area]) -> Table
    requires same { length areas.now ≡ length input.now.loads }
    requires places { All (λ x. x.file < FILE_TOP) areas.now }
    ensures { result.items ≡ table_of input.now areas.now }
{
    let granule = input.machine.granule();
    let mut table = ArrayVec::new();
    push_loads(&mut table, granule, &input.loads, areas);
    push_stack(&mut table, &input.stack);
    push_notes(&mut table, granule, &input.loads, areas, &input.notes);
    push_tls(&mut table, granule, &input.loads, areas, &input.tls);
    table
}

fn push_loads(table: &mut Table, granule: u64, loads: &[Load], areas: &[Area])
    requires placed { Placed granule loads.now areas.now }
    requires empty { table.old.items ≡ [] }
    requires room { length loads.now ≤ MOST_LOADS }
    ensures items { table.new.items ≡ load_entries granule loads.now areas.now }
    ensures len { length table.new.items ≡ length loads.now }
{
    for i in 0..loads.len() {
        table.push(load_entry(granule, &loads[i], &areas[i]));
    }
}

fn load_entry(granule: u64, p: &Load, area: &Area) -> Entry
    requires some { 0 < granule }
    requires small { granule ≤ 16384 }
    requires place { area.now.file < FILE_TOP }
    ensures { result ≡ spec.load_entry granule p.now area.now }
{
    Entry {
        kind: PT_LOAD,
        flags: u32::from(p.perms.bits()),
        offset: area.file + p.vaddr % granule,
        vaddr: p.vaddr,
        paddr: 0,
        filesz: p.filesz,
        memsz: p.memsz,
        align: granule,
    }
}

fn push_stack(table: &mut Table, stack: &Option<Entry>)
    requires { length table.old.items ≤ MOST_LOADS }
    ensures items { table.new.items ≡ table.old.items ++ stack_entries stack.now }
    ensures len { length table.new.items ≤ length table.old.items + 1 }
{
    if let Some(p) = stack {
        table.push(Entry {
            kind: PT_GNU_STACK,
            flags: p.flags & ALL_FLAGS,
            memsz: stack_size(stack),
            align: STACK_ALIGN,
            ..Entry::default()
        });
    }
}

fn push_notes(table: &mut Table, granule: u64, loads: &[Load], areas: &[Area], notes: &[Entry])
    requires placed { Placed granule loads.now areas.now }
    requires room { length table.old.items + length notes.now < MOST_ENTRIES }
    ensures items { table.new.items ≡ table.old.items
        ++ map (spec.note_entry granule loads.now areas.now) notes.now }
    ensures len { length table.new.items ≡ length table.old.items + length notes.now }
{
    for p in notes {
        table.push(note_entry(granule, loads, areas, p));
    }
}

fn note_entry(granule: u64, loads: &[Load], areas: &[Area], p: &Entry) -> Entry
    requires { Placed granule loads.now areas.now }
    ensures { result ≡ spec.note_entry granule loads.now areas.now p.now }
{
    Entry {
        kind: PT_NOTE,
        flags: PF_R,
        offset: place_of(granule, loads, areas, p.vaddr),
        vaddr: p.vaddr,
        paddr: 0,
        filesz: p.filesz,
        memsz: p.filesz,
        align: if p.align == 8 { 8 } else { 4 },
    }
}

fn push_tls(table: &mut Table, granule: u64, loads: &[Load], areas: &[Area], tls: &Option<Entry>)
    requires placed { Placed granule loads.now areas.now }
    requires room { length table.old.items < MOST_ENTRIES }
    ensures items { table.new.items ≡ table.old.items
        ++ tls_entries granule loads.now areas.now tls.now }
{
    if let Some(p) = tls {
        table.push(tls_entry(granule, loads, areas, p));
    }
}

fn tls_entry(granule: u64, loads: &[Load], areas: &[Area], p: &Entry) -> Entry
    requires { Placed granule loads.now areas.now }
    ensures { result ∷ [] ≡ tls_entries granule loads.now areas.now (Some p.now) }
{
    let offset = if p.filesz == 0 {
        0
    } else {
        place_of(granule, loads, areas, p.vaddr)
    };
    Entry {
        kind: PT_TLS,
        flags: PF_R,
        offset,
        vaddr: p.vaddr,
        paddr: 0,
        filesz: p.filesz,
        memsz: p.memsz,
        align: p.align,
    }
}
