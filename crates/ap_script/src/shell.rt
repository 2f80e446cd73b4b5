// The script and the magic, claimed.
ghost use Rattle.std.specs.Prelude.{◌≡◌, ◌+◌, ◌≤◌, [], ◌∷◌, ◌++◌, length};
ghost use Rattle.ap_fields.specs.declared.sizes.TheConstants.{WINDOW};
ghost use Rattle.ap_claims.specs.declared.owner.Owner.TheVariants.{Shell, Ape};
ghost use Rattle.ap_claims.specs.Lists.{Makes, claim};
ghost use Rattle.ap_octal.specs.declared.types.TheConstants.{MOST_STATEMENT};
ghost use Rattle.ap_layout.specs.Positions.{Fits};
ghost use Rattle.ap_script.specs.Blocks as spec;
ghost use Rattle.ap_script.specs.Claims.{statement_claims, script_claims};
ghost use Rattle.ap_layout.specs.Jobs.{job_inputs};

use crate::body::body;
use crate::delimiter::{choose_delimiter, delimiter};
use crate::ending::{Ending, Statement};
use crate::script::push_statement;
use crate::text::{Text, push_text};
use ap_check::{Job, Options, Systems};
use ap_claims::{Block, Clash, Owner};
use ap_layout::Layout;
use arrayvec::ArrayVec;
use bitflags::Flags;

/// Claims the magic and the statements for `Owner::Ape`, and then the script with what stands around it for `Owner::Shell`, where
/// the parts of the linked file have these places. The claims of all other formats are made before.
///
/// `Clash` comes exactly where a byte of them is held with another value, and is the first such byte in the order of the claims.
/// Then only claims in front of its own have been made.
pub fn write_script(block: &mut Block, job: &Job<'_>, lay: &Layout) -> Result<(), Clash>
    requires { Fits job.now.options (job_inputs job.now) lay.now }
    ensures { Makes block.old block.new (script_claims job.now.options (job_inputs job.now) lay.now)
        result }
{
    let number = choose_delimiter(&body(job, lay));
    let ending = Ending::new(job, lay, number);
    write_for_loaders(block, &job.options, &ending.x64, &ending.a64)?;
    write_for_shells(
        block,
        &job.options,
        number,
        lay.body_end as usize,
        &ending.text,
    )
}

// Claims what an APE loader looks for.
fn write_for_loaders(
    block: &mut Block,
    options: &Options,
    x64: &Statement,
    a64: &Statement,
) -> Result<(), Clash>
    requires x64 { x64.now.place + MOST_STATEMENT ≤ WINDOW }
    requires a64 { a64.now.place + MOST_STATEMENT ≤ WINDOW }
    ensures { Makes block.old block.new
        (claim Ape 0 (spec.magic options.now)
        ∷ (statement_claims x64.now.header x64.now.place
        ++ statement_claims a64.now.header a64.now.place)) result }
{
    block.claim(Owner::Ape, 0, magic(options))?;
    write_statement(block, x64)?;
    write_statement(block, a64)
}

// Claims a statement, where there is one.
fn write_statement(block: &mut Block, statement: &Statement) -> Result<(), Clash>
    requires { statement.now.place + MOST_STATEMENT ≤ WINDOW }
    ensures { Makes block.old block.new (statement_claims statement.now.header statement.now.place)
        result }
{
    match &statement.header {
        None => Ok(()),
        Some(header) => {
            let mut text = ArrayVec::new();
            push_statement(&mut text, header);
            block.claim(Owner::Ape, statement.place, &text)
        }
    }
}

// Claims the script, which stands in the ending behind the here-document's body, and the line that opens the here-document.
fn write_for_shells(
    block: &mut Block,
    options: &Options,
    number: u32,
    body_end: usize,
    ending: &[u8],
) -> Result<(), Clash>
    requires { body_end + length ending.now ≤ WINDOW }
    ensures { Makes block.old block.new
        (claim Shell 0 (spec.magic_line options.now) ∷ claim Shell 64 (spec.opening_line number)
        ∷ claim Shell body_end ending.now ∷ []) result }
{
    block.claim(Owner::Shell, 0, &magic_line(options))?;
    block.claim(Owner::Shell, 64, &opening_line(number))?;
    block.claim(Owner::Shell, body_end, ending)
}

// What an APE loader looks for at a file's start.
fn magic(options: &Options) -> &'static [u8]
    ensures text { result.now ≡ spec.magic options.now }
    ensures len { length result.now ≡ 8 }
{
    if options.systems.intersects(Systems::WINDOWS) {
        b"MZqFpD='"
    } else if options.debug {
        b"APEDBG='"
    } else {
        b"jartsr='"
    }
}

// The line that it begins.
fn magic_line(options: &Options) -> Text
    ensures items { result.items ≡ spec.magic_line options.now }
    ensures len { length result.items ≡ 9 }
{
    let mut text = ArrayVec::new();
    push_text(&mut text, magic(options));
    push_text(&mut text, b"\n");
    text
}

// The end of the line that opens the here-document.
fn opening_line(number: u32) -> Text
    ensures items { result.items ≡ spec.opening_line number }
    ensures len { length result.items ≡ 22 }
{
    let mut text = ArrayVec::new();
    push_text(&mut text, b"' <<'");
    push_text(&mut text, &delimiter(number));
    push_text(&mut text, b"'\n");
    text
}
