// What stands behind the here-document's body.
ghost use Rattle.std.specs.Prelude.{◌≡◌, ◌+◌, ◌-◌, ◌≤◌, ◌++◌, length};
ghost use Rattle.ap_fields.specs.declared.sizes.TheConstants.{WINDOW};
ghost use Rattle.ap_elf.specs.declared.machine.Machine.TheVariants.{X64, A64};
ghost use Rattle.ap_octal.specs.declared.types.TheConstants.{MOST_STATEMENT};
ghost use Rattle.ap_layout.specs.Positions.{Fits, placed_inputs};
ghost use Rattle.ap_script.specs.Blocks.{closing, spaces, body_of, ending_of};
ghost use Rattle.ap_script.specs.Delimiter.{delimiter_number};
ghost use Rattle.ap_layout.specs.Jobs.{job_inputs};
ghost use Rattle.ap_script.specs.Script.{header_for};
ghost use Rattle.ap_script.specs.Stands.{statement_place};

use crate::delimiter::delimiter;
use crate::header::machine_header;
use crate::script::{Script, push_script};
use crate::text::{Text, push_text};
use ap_check::{Job, Machine};
use ap_elf::constants::EHDR_SIZE;
use ap_fields::WINDOW;
use ap_layout::Layout;
use arrayvec::ArrayVec;

/// The statement for a machine, where an input is for it.
#[derive(Clone, Copy)]
pub(crate) struct Statement {
    /// The embedded header that it spells.
    pub header: Option<[u8; EHDR_SIZE]>,
    /// Its place in the linked file.
    pub place: usize,
}

/// What stands between the here-document's body and the end of the block's first half.
#[derive(Drop)]
pub(crate) struct Ending {
    pub text: Text,
    pub x64: Statement,
    pub a64: Statement,
}

impl Ending {
    /// The ending behind the body, whose delimiter has this number.
    pub(crate) fn new(job: &Job<'_>, lay: &Layout, number: u32) -> Ending
        requires fits { Fits job.now.options (job_inputs job.now) lay.now }
        requires number { number
            ≡ delimiter_number (body_of job.now.options (job_inputs job.now) lay.now) }
        ensures text { result.text.items ≡ ending_of job.now.options (job_inputs job.now) lay.now }
        ensures len { lay.now.body_end + length result.text.items ≡ WINDOW }
        ensures x64 { result.x64.header
            ≡ header_for X64 (placed_inputs (job_inputs job.now) lay.now) }
        ensures a64 { result.a64.header
            ≡ header_for A64 (placed_inputs (job_inputs job.now) lay.now) }
        ensures x64_place { result.x64.place
            ≡ statement_place job.now.options (job_inputs job.now) lay.now X64 }
        ensures a64_place { result.a64.place
            ≡ statement_place job.now.options (job_inputs job.now) lay.now A64 }
        ensures x64_room { result.x64.place + MOST_STATEMENT ≤ WINDOW }
        ensures a64_room { result.a64.place + MOST_STATEMENT ≤ WINDOW }
    {
        let at = lay.body_end as usize;
        let x64 = machine_header(job, lay, Machine::X64);
        let a64 = machine_header(job, lay, Machine::A64);
        let script = Script {
            systems: job.options.systems,
            x64,
            a64,
            skip: lay.mach_at / 8,
            count: lay.mach_len / 8,
        };
        let mut text = ArrayVec::new();
        push_closing(&mut text, number);
        let places = push_script(&mut text, &script);
        push_spaces(&mut text, WINDOW - at);
        Ending {
            text,
            x64: Statement {
                header: x64,
                place: at + places.x64,
            },
            a64: Statement {
                header: a64,
                place: at + places.a64,
            },
        }
    }
}

// Appends the line that ends the here-document, behind the newline that ends its body.
#[tactic(auto, unfolding(crate::specs::Blocks::closing))]
fn push_closing(text: &mut Text, number: u32)
    requires { length text.old.items + 17 ≤ WINDOW }
    ensures items { text.new.items ≡ text.old.items ++ closing number }
    ensures len { length text.new.items ≡ length text.old.items + 17 }
{
    push_text(text, b"\n");
    push_text(text, &delimiter(number));
    push_text(text, b"\n");
}

// Appends spaces up to a length.
#[tactic(auto, unfolding(crate::specs::Blocks::spaces))]
fn push_spaces(text: &mut Text, len: usize)
    requires short { length text.old.items ≤ len }
    requires room { len ≤ WINDOW }
    ensures { text.new.items ≡ text.old.items ++ spaces (len - length text.old.items) }
{
    let spaces = [b' '; WINDOW];
    push_text(text, &spaces[..len - text.len()]);
}
