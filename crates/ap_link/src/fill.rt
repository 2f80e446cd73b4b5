// The block of a linked file, filled by its claims.
ghost use Rattle.std.specs.Prelude.{◌≡◌};
ghost use Rattle.ap_claims.specs.Blocks.{free_block};
ghost use Rattle.ap_claims.specs.Files.{IsFilled};
ghost use Rattle.ap_claims.specs.Lists.{Makes};
ghost use Rattle.ap_layout.specs.Positions.{Fits};
ghost use Rattle.ap_script.specs.Blocks.{block_of};
ghost use Rattle.ap_script.specs.Claims.{block_claims};
ghost use Rattle.ap_layout.specs.Jobs.{job_inputs};

use ap_check::Job;
use ap_claims::{Block, Clash};
use ap_layout::Layout;
use ap_mach::write_mach;
use ap_pe::write_pe;
use ap_script::{write_script, write_tables};

/// Fills a free block for a job whose parts have these places. No two claims clash.
pub fn fill(block: &mut Block, job: &Job<'_>, lay: &Layout)
    requires free { block.old ≡ free_block }
    requires fits { Fits job.now.options (job_inputs job.now) lay.now }
    ensures filled { IsFilled (block_claims job.now.options (job_inputs job.now) lay.now)
        block.new }
    ensures bytes { block.new.bytes ≡ block_of job.now.options (job_inputs job.now) lay.now }
{
    match write(block, job, lay) {
        Ok(()) => {}
        Err(_) => unreachable!(),
    }
}

// Makes the claims of all formats, those of the script behind all others.
fn write(block: &mut Block, job: &Job<'_>, lay: &Layout) -> Result<(), Clash>
    requires { Fits job.now.options (job_inputs job.now) lay.now }
    ensures { Makes block.old block.new (block_claims job.now.options (job_inputs job.now) lay.now)
        result }
{
    write_pe(block, job, lay)?;
    write_tables(block, job, lay)?;
    write_mach(block, job, lay)?;
    write_script(block, job, lay)
}
