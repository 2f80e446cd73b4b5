// The program header tables, claimed.
ghost use Rattle.std.specs.Prelude.{◌≡◌, ◌+◌, ◌≤◌, ◌<◌, [], ◌∷◌, length, All};
ghost use Rattle.ap_fields.specs.declared.sizes.TheConstants.{WINDOW};
ghost use Rattle.ap_claims.specs.declared.owner.Owner.TheVariants.{Elf};
ghost use Rattle.ap_claims.specs.Lists.{Makes, claim};
ghost use Rattle.ap_layout.specs.declared.sizes.TheConstants.{MOST_TABLE, FILE_TOP};
ghost use Rattle.ap_layout.specs.Positions.{Fits, placed_inputs};
ghost use Rattle.ap_script.specs.Claims.{table_claims};
ghost use Rattle.ap_layout.specs.Jobs.{job_inputs};
ghost use Rattle.ap_script.specs.Tables.{table_text};

use crate::body::push_table;
use ap_check::{Input, Job};
use ap_claims::{Block, Clash, ElfView};
use ap_layout::{Area, Layout, input_count, placed_input};
use arrayvec::ArrayVec;

/// Claims the program header table of each input for `Owner::Elf`, where the parts of the linked file have these places.
///
/// `Clash` comes exactly where a byte of them is held with another value, and is the first such byte. Then only tables in front
/// of its own have been claimed.
pub fn write_tables(block: &mut Block, job: &Job<'_>, lay: &Layout) -> Result<(), Clash>
    requires { Fits job.now.options (job_inputs job.now) lay.now }
    ensures { Makes block.old block.new (table_claims (placed_inputs (job_inputs job.now) lay.now))
        result }
{
    for i in 0..input_count(job) {
        let p = placed_input(job, lay, i);
        write_table(block, p.input, p.areas, p.table)?;
    }
    Ok(())
}

// Claims the table of an input whose loads have these areas.
fn write_table(block: &mut Block, input: &Input, areas: &[Area], at: u32) -> Result<(), Clash>
    requires place { at + MOST_TABLE ≤ WINDOW }
    requires same { length areas.now ≡ length input.now.loads }
    requires places { All (λ x. x.file < FILE_TOP) areas.now }
    ensures { Makes block.old block.new (claim Elf at (table_text input.now areas.now) ∷ [])
        result }
{
    let mut text = ArrayVec::new();
    push_table(&mut text, input, areas);
    ElfView::new(block, at as usize).put_bytes(0, &text)
}
