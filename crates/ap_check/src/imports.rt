// Rule 28: the import table of an input.
ghost use Rattle.std.specs.Prelude.{◌≡◌, ◌≤◌, ◌^◌, ℕ, List, OnOk, IfSome, Some, None};
ghost use Rattle.ap_fields.specs.FirstFault.{first_fault};
ghost use Rattle.ap_image.specs.Cells.{Memory};
ghost use Rattle.ap_image.specs.ImportWalk.{items_of};
ghost use Rattle.ap_image.specs.declared.import_step.Ending.TheVariants as ends;
ghost use Rattle.ap_check.specs.declared.load.Load.{Load};
ghost use Rattle.ap_check.specs.declared.imports.ImportTable.{ImportTable};
ghost use Rattle.ap_image.specs.PlanCells.{shown_by};
ghost use Rattle.ap_files.specs.Reads.{HasSize};
ghost use Rattle.ap_check.specs.Rules.{Checks};
ghost use Rattle.ap_check.specs.ImportRule as spec;
ghost use Rattle.ap_check.specs.ImportRule.{import_rules, range_rules, table_rules, are_between, AreStanding, memory_of, ChecksCells, ChecksTold};

use crate::end::CheckEnd;
use crate::fault::{Fault, broken};
use crate::input::Input;
use crate::input_plan::plan_of;
use crate::load::Load;
use crate::part::in_part;
use crate::symbols::Symbols;
use ap_files::Files;
use ap_image::{Cells, Ending, FileCells, LastRead, Walk, WalkCause};

/// Where the symbols of an input name its import table and its import address tables.
#[derive(Clone, Copy)]
pub struct ImportTable {
    pub idata: u64,
    pub idata_end: u64,
    pub iat: u64,
    pub iat_end: u64,
}

/// Rule 28 of an input of the file of this name, for an image base: where its symbols name an import table, that table stands. The
/// item of the fault is the number of the part that fails, the first of these:
///
/// - 1 and 2: the import table, with room for an entry, and the import address tables have at most 2^20 bytes, which lie in the
///   file part of one load. The value is the address of the first.
/// - 3: the walk of the table meets no missing byte. The value is its address.
/// - 4: it meets the entry that closes the table before the table's end. The value is that end.
/// - 5: it meets no name of more than 1024 bytes. The value is the name's address.
/// - 6: it meets at most 4096 items. The value is the address of item 4097.
///
/// Of parts 3 to 6 the one that the walk meets first is the fault.
///
/// Of the file the bytes that the walk meets are read, in small parts.
///
/// `ReadFault`: a read failed.
pub fn check_imports_in<F: Files>(
    files: &mut F,
    name: &str,
    input: &Input,
    base: u64,
) -> Result<(), CheckEnd>
    requires base { base ≤ 2 ^ 48 }
    requires size { HasSize (F.state files.old).kept name.now input.now.size }
    ensures rules { ChecksTold (F.state files.old) (F.state files.new) name.now
        (import_rules input.now base) result }
    ensures standing { OnOk result
        (IfSome (spec.table_of input.now.symbols) (AreStanding input.now.loads)) }
{
    let plan = plan_of(input);
    let mut cells = FileCells {
        files,
        name,
        plan: &plan,
        size: input.size,
        last: LastRead::new(),
    };
    check_cells(&mut cells, input, base)
}

/// Where rule 28 holds of an import table, the walk of it ends at the entry that closes the table.
#[tactic(auto, using(crate::proofs::ImportLemmas::end_steps))]
pub fn import_tables_end()
    ensures { (n base : ℕ) (loads : List Load) (memory : Memory) (t : ImportTable) →
        first_fault (table_rules n loads base memory (Some t)) ≡ None →
        (items_of memory base t.idata (Some t.idata_end)).ending ≡ ends.Done }
{}

// Rule 28 of an input whose file and plan these are.
fn check_cells<F: Files>(
    cells: &mut FileCells<'_, '_, '_, F>,
    input: &Input,
    base: u64,
) -> Result<(), CheckEnd>
    requires base { base ≤ 2 ^ 48 }
    requires plan { (byte : ℕ → ℕ) (a : ℕ) → shown_by byte cells.old.plan.now.regions a ≡
        memory_of byte input.now.loads a }
    ensures same_reference { cells.new.files.ghost_name ≡ cells.old.files.ghost_name }
    ensures checks { ChecksTold (F.state cells.old.files.now) (F.state cells.new.files.now)
        cells.old.name.now (import_rules input.now base) result }
    ensures standing { OnOk result
        (IfSome (spec.table_of input.now.symbols) (AreStanding input.now.loads)) }
{
    check_table(cells, input, base)
}

// Rule 28 over the bytes of an input in memory.
fn check_table<C: Cells>(cells: &mut C, input: &Input, base: u64) -> Result<(), CheckEnd>
    requires { base ≤ 2 ^ 48 }
    ensures rules { ChecksCells (C.state cells.old) (C.state cells.new)
        (λ memory. table_rules input.now.number input.now.loads base memory (spec.table_of input.now.symbols))
        result }
    ensures standing { OnOk result
        (IfSome (spec.table_of input.now.symbols) (AreStanding input.now.loads)) }
{
    let Some(table) = table_of(&input.symbols) else {
        return Ok(());
    };
    check_ranges(input, &table)?;
    check_walk(cells, input.number, base, &table)
}

// Parts 1 and 2: the tables themselves.
fn check_ranges(input: &Input, table: &ImportTable) -> Result<(), Fault>
    ensures rules { Checks result (range_rules input.now.number input.now.loads table.now) }
    ensures start { OnOk result (table.now.idata ≤ 2 ^ 47) }
    ensures end { OnOk result (table.now.idata_end ≤ 2 ^ 47) }
    ensures standing { OnOk result (AreStanding input.now.loads table.now) }
{
    let loads = input.loads.as_slice();
    if !is_between(20, table.idata, table.idata_end, loads) {
        return Err(broken(input.number, 28, 1, table.idata));
    }
    if !is_between(1, table.iat, table.iat_end, loads) {
        return Err(broken(input.number, 28, 2, table.iat));
    }
    Ok(())
}

// Whether at least so many addresses and at most 2^20 are between two, in the file part of one load.
fn is_between(least: u64, from: u64, to: u64, loads: &[Load]) -> bool
    ensures { result ≡ are_between least from to loads.now }
{
    if to < from || to - from < least || to - from > 1 << 20 {
        return false;
    }
    in_part(loads, from, to - from)
}

// Parts 3 to 6: what the walk meets.
fn check_walk<C: Cells>(
    cells: &mut C,
    number: u8,
    base: u64,
    table: &ImportTable,
) -> Result<(), CheckEnd>
    requires base { base ≤ 2 ^ 48 }
    requires start { table.now.idata ≤ 2 ^ 47 }
    requires end { table.now.idata_end ≤ 2 ^ 47 }
    ensures { ChecksCells (C.state cells.old) (C.state cells.new)
        (λ memory. spec.walked_rules number base memory table.now) result }
{
    let walk = Walk::new(base, table.idata, Some(table.idata_end));
    match walk.ending(cells)? {
        Ending::Done => Ok(()),
        Ending::Fault(fault) => Err(CheckEnd::Rule(broken(
            number,
            28,
            part(fault.cause),
            fault.at,
        ))),
    }
}

// The number of the part that a fault of the walk breaks.
fn part(cause: WalkCause) -> u16
    ensures { result ≡ spec.part_of cause }
{
    match cause {
        WalkCause::NoCell => 3,
        WalkCause::NoEnd => 4,
        WalkCause::Long => 5,
        WalkCause::Many => 6,
    }
}

/// Where the symbols name the tables, if they name all four ends.
pub fn table_of(symbols: &Symbols) -> Option<ImportTable>
    ensures { result ≡ spec.table_of symbols.now }
{
    Some(ImportTable {
        idata: symbols.idata?,
        idata_end: symbols.idata_end?,
        iat: symbols.iat?,
        iat_end: symbols.iat_end?,
    })
}
