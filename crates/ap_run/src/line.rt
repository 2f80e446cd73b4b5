// The line on standard error that says why a run ended.
ghost use Rattle.std.specs.Prelude.{◌≡◌, ◌+◌, ◌≤◌, ◌++◌, length, decimal, option_map};
ghost use Rattle.arrayvec.specs.ArrayVec.{array_vec_len};
ghost use Rattle.ap_run.specs.Lines as spec;
ghost use Rattle.ap_run.specs.Lines.{line_of, fault_line, walk_cause_name};

use crate::end::{Cause, ReadingFault};
use ap_check::Fault;
use ap_elf::ElfFault;
use ap_image::WalkCause;
use ap_loader::ApeFault;
use ap_machmap::MachFault;
use ap_pemap::PeFault;
use ap_texts::{elf_name, mach_name, pe_name};
use ap_words::name_of;
use arrayvec::ArrayVec;
use itoa::Buffer;

/// A line of at most 160 bytes, with its newline.
pub type Line = ArrayVec<u8, 160>;

/// The line of a cause; `Done` has none.
pub fn line(cause: &Cause) -> Option<Line>
    ensures { option_map (λ l. l.items) result ≡ line_of cause.now }
{
    match cause {
        Cause::Done => None,
        Cause::Refused(fault) => Some(rule_line(fault)),
        Cause::Unread(fault) => Some(reading_line(fault)),
        Cause::Usage => Some(plain_line(
            b"apetool: usage: apetool link|load|map|script|assimilate|inspect|trial ...\n",
        )),
        Cause::Unbuilt(word) => Some(unbuilt_line(name_of(*word).as_bytes())),
        Cause::ReadFault => Some(plain_line(b"apetool: cannot read\n")),
        Cause::WriteFault => Some(plain_line(b"apetool: cannot write\n")),
        Cause::OutFault => Some(plain_line(b"apetool: cannot print\n")),
        Cause::NoMemory => Some(plain_line(b"apetool: no memory\n")),
    }
}

// A line that has no numbers.
fn plain_line(text: &[u8]) -> Line
    requires { length text.now ≤ 160 }
    ensures { result.items ≡ text.now }
{
    let mut line = Line::new();
    push(&mut line, text);
    line
}

// The line of a command that isn't built yet.
#[tactic(auto, using(std::proofs::Common::append_assoc))]
fn unbuilt_line(name: &[u8]) -> Line
    requires { length name.now ≤ 20 }
    ensures { result.items ≡ spec.unbuilt_line name.now }
{
    let mut line = Line::new();
    push(&mut line, b"apetool: ");
    push(&mut line, name);
    push(&mut line, b" isn't built yet\n");
    line
}

#[tactic(auto, using(std::proofs::Common::append_assoc), unfolding(crate::specs::Lines::rule_line))]
fn rule_line(fault: &Fault) -> Line
    ensures { result.items ≡ spec.rule_line fault.now }
{
    let mut line = Line::new();
    push_number(&mut line, b"apetool: rule ", fault.rule as u64);
    push_number(&mut line, b" input ", fault.input as u64);
    push_number(&mut line, b" item ", fault.item as u64);
    push_number(&mut line, b" value ", fault.value);
    push(&mut line, b"\n");
    line
}

fn reading_line(fault: &ReadingFault) -> Line
    ensures { result.items ≡ spec.reading_line fault.now }
{
    match fault {
        ReadingFault::Large { size } => form_line(b"file", b"Large", 0, *size),
        ReadingFault::Wide { total } => form_line(b"image", b"Wide", 0, *total),
        ReadingFault::Elf(fault) => elf_line(fault),
        ReadingFault::Ape(fault) => ape_line(fault),
        ReadingFault::Pe(fault) => pe_line(fault),
        ReadingFault::Mach(fault) => mach_line(fault),
        ReadingFault::Walk(fault) => form_line(b"import", walk_name(fault.cause), 0, fault.at),
        ReadingFault::Shell { at } => form_line(b"shell", b"Outside", 0, *at),
        ReadingFault::NotApe => form_line(b"assimilate", b"NotApe", 0, 0),
        ReadingFault::NoStatement => form_line(b"assimilate", b"NoStatement", 0, 0),
    }
}

fn ape_line(fault: &ApeFault) -> Line
    ensures { result.items ≡ spec.ape_line fault.now }
{
    match fault {
        ApeFault::NoMagic => form_line(b"ape", b"NoMagic", 0, 0),
        ApeFault::NoStatement => form_line(b"ape", b"NoStatement", 0, 0),
        ApeFault::Elf(fault) => elf_line(fault),
    }
}

fn elf_line(fault: &ElfFault) -> Line
    ensures { result.items ≡ spec.elf_line fault.now }
{
    form_line(b"elf", elf_name(fault.cause), fault.item, fault.value)
}

fn pe_line(fault: &PeFault) -> Line
    ensures { result.items ≡ spec.pe_line fault.now }
{
    form_line(b"pe", pe_name(fault.cause), fault.item, fault.value)
}

fn mach_line(fault: &MachFault) -> Line
    ensures { result.items ≡ spec.mach_line fault.now }
{
    form_line(b"mach", mach_name(fault.cause), fault.item, fault.value)
}

// The line of a form, the name of a cause, an item and a value.
#[tactic(auto, using(std::proofs::Common::append_assoc), unfolding(crate::specs::Lines::fault_line))]
fn form_line(form: &[u8], name: &[u8], item: u16, value: u64) -> Line
    requires form { length form.now ≤ 20 }
    requires name { length name.now ≤ 20 }
    ensures { result.items ≡ fault_line form.now name.now item value }
{
    let mut line = Line::new();
    push(&mut line, b"apetool: ");
    push(&mut line, form);
    push(&mut line, b" ");
    push(&mut line, name);
    push_number(&mut line, b" item ", item as u64);
    push_number(&mut line, b" value ", value);
    push(&mut line, b"\n");
    line
}

// The name of a cause of the import walk.
fn walk_name(cause: WalkCause) -> &'static [u8]
    ensures name { result.now ≡ walk_cause_name cause }
    ensures short { length result.now ≤ 20 }
{
    match cause {
        WalkCause::NoCell => b"NoCell",
        WalkCause::NoEnd => b"NoEnd",
        WalkCause::Long => b"Long",
        WalkCause::Many => b"Many",
    }
}

// Appends a text and a number in decimal digits.
#[tactic(auto, using(std::proofs::Common::append_assoc))]
fn push_number(line: &mut Line, text: &[u8], number: u64)
    requires { array_vec_len line.old + length text.now + 20 ≤ 160 }
    ensures text { line.new.items ≡ line.old.items ++ (text.now ++ decimal number) }
    ensures room { array_vec_len line.new ≤ array_vec_len line.old + length text.now + 20 }
{
    let mut buffer = Buffer::new();
    push(line, text);
    push(line, buffer.format(number).as_bytes());
}

// Appends a text.
fn push(line: &mut Line, text: &[u8])
    requires { array_vec_len line.old + length text.now ≤ 160 }
    ensures text { line.new.items ≡ line.old.items ++ text.now }
    ensures length { array_vec_len line.new ≡ array_vec_len line.old + length text.now }
{
    match line.try_extend_from_slice(text) {
        Ok(()) => (),
        Err(_) => unreachable!(),
    }
}
