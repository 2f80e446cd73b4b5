// The here-document's body.
ghost use Rattle.std.specs.Prelude.{◌≡◌, ◌+◌, ◌≤◌, ◌<◌, ◌++◌, length, All};
ghost use Rattle.ap_fields.specs.declared.sizes.TheConstants.{WINDOW};
ghost use Rattle.ap_fields.specs.Bytes.{zeros};
ghost use Rattle.ap_elf.specs.declared.constants.TheConstants.{PHDR_SIZE};
ghost use Rattle.ap_elf.specs.Written as written;
ghost use Rattle.ap_layout.specs.declared.sizes.TheConstants.{OPENING, MOST_BODY, MOST_TABLE, MOST_ENTRIES, FILE_TOP};
ghost use Rattle.ap_layout.specs.Positions.{Fits};
ghost use Rattle.ap_script.specs.Blocks.{body_of};
ghost use Rattle.ap_layout.specs.Jobs.{job_inputs};
ghost use Rattle.ap_script.specs.Tables.{table_text};

use crate::table::table;
use crate::text::{Text, push_text};
use ap_check::{Input, Job};
use ap_elf::{Entry, entry_bytes};
use ap_layout::{Area, Layout, input_count, placed_input};
use ap_pe::pe_text;
use arrayvec::ArrayVec;

/// The body: zeros up to byte 96 of the linked file, the PE headers, and a program header table for each input.
pub(crate) fn body(job: &Job<'_>, lay: &Layout) -> Text
    requires { Fits job.now.options (job_inputs job.now) lay.now }
    ensures items { result.items ≡ body_of job.now.options (job_inputs job.now) lay.now }
    ensures len { length result.items + OPENING ≤ MOST_BODY }
{
    let mut body = ArrayVec::new();
    push_zeros(&mut body);
    push_text(&mut body, &pe_text(job, lay));
    for i in 0..input_count(job) {
        let p = placed_input(job, lay, i);
        push_table(&mut body, p.input, p.areas);
    }
    body
}

#[tactic(auto, unfolding(ap_fields::specs::Bytes::zeros))]
fn push_zeros(out: &mut Text)
    requires { length out.old.items + 10 ≤ WINDOW }
    ensures items { out.new.items ≡ out.old.items ++ zeros 10 }
    ensures len { length out.new.items ≡ length out.old.items + 10 }
{
    push_text(out, &[0; 10]);
}

/// Appends the program header table of an input whose loads have these areas.
pub(crate) fn push_table(out: &mut Text, input: &Input, areas: &[Area])
    requires room { length out.old.items + MOST_TABLE ≤ WINDOW }
    requires same { length areas.now ≡ length input.now.loads }
    requires places { All (λ x. x.file < FILE_TOP) areas.now }
    ensures items { out.new.items ≡ out.old.items ++ table_text input.now areas.now }
    ensures len { length out.new.items ≤ length out.old.items + MOST_TABLE }
{
    push_entries(out, &table(input, areas));
}

#[tactic(auto, using(std::proofs::lemmas::List::flat_map_more, std::proofs::lemmas::List::take_more), unfolding(ap_elf::specs::Written::table_bytes))]
fn push_entries(out: &mut Text, entries: &[Entry])
    requires few { length entries.now ≤ MOST_ENTRIES }
    requires room { length out.old.items + MOST_TABLE ≤ WINDOW }
    ensures items { out.new.items ≡ out.old.items ++ written.table_bytes entries.now }
    ensures len { length out.new.items ≤ length out.old.items + MOST_TABLE }
{
    for entry in entries {
        push_entry(out, entry);
    }
}

fn push_entry(out: &mut Text, entry: &Entry)
    requires { length out.old.items + PHDR_SIZE ≤ WINDOW }
    ensures items { out.new.items ≡ out.old.items ++ written.entry_bytes entry.now }
    ensures len { length out.new.items ≡ length out.old.items + PHDR_SIZE }
{
    push_text(out, &entry_bytes(entry));
}
