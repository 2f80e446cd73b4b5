// The script.
ghost use Rattle.std.specs.Prelude.{◌≡◌, ◌+◌, ◌≤◌, ◌++◌, length};
ghost use Rattle.std.specs.Fmt.{decimal};
ghost use Rattle.ap_fields.specs.declared.sizes.TheConstants.{WINDOW};
ghost use Rattle.ap_octal.specs.declared.types.TheConstants.{MOST_STATEMENT};
ghost use Rattle.ap_octal.specs.Statement.{statement_of};
ghost use Rattle.ap_elf.specs.declared.machine.Machine.TheVariants.{X64, A64};
ghost use Rattle.ap_script.specs.Script.{script_of, script_start, dd_line, darwin_x64_lines, darwin_lines, system_lines, system_line, chosen_test, or_tests, kernels_of, machine_start, machine_lines, machine_end, script_end};

use crate::text::{Text, push_text};
use ap_check::{Machine, Systems};
use ap_elf::constants::EHDR_SIZE;
use ap_fields::put_decimal;
use ap_octal::{MOST_STATEMENT, write_statement};
use bitflags::Flags;

const START: &[u8] = b"if command -v ape >/dev/null 2>&1; then\nexec ape \"$0\" \"$@\"\nfi\n\
    m=$(uname -m)\ns=$(uname -s)\nt=\"${TMPDIR:-/tmp}/ape.$$\"\n";

const DARWIN_X64_START: &[u8] = b"if [ \"$m\" = x86_64 ]; then\n\
    cp \"$0\" \"$t\" || exit 121\nchmod 700 \"$t\" || exit 122\n";

const X64_START: &[u8] = b"if [ \"$m\" = x86_64 ] || [ \"$m\" = amd64 ]; then\n\
    cp \"$0\" \"$t\" || exit 121\nchmod 700 \"$t\" || exit 122\n";

const A64_START: &[u8] = b"if [ \"$m\" = aarch64 ] || [ \"$m\" = arm64 ]; then\n\
    cp \"$0\" \"$t\" || exit 121\nchmod 700 \"$t\" || exit 122\n";

const MACHINE_END: &[u8] = b" 1<>\"$t\" || exit 124\nexec \"$t\" \"$@\"\nfi\n";

/// What a script is made from.
#[derive(Drop)]
pub(crate) struct Script {
    pub systems: Systems,
    /// The embedded header for each machine that an input is for.
    pub x64: Option<[u8; EHDR_SIZE]>,
    pub a64: Option<[u8; EHDR_SIZE]>,
    /// The place of the Mach-O header and its length, in units of eight bytes.
    pub skip: u32,
    pub count: u32,
}

/// Where the statement for each machine begins in a text, or would begin if there were one.
#[derive(Clone, Copy)]
pub(crate) struct Places {
    pub x64: usize,
    pub a64: usize,
}

/// Appends the script, and answers where its statements begin.
#[tactic(auto, using(std::proofs::Common::append_assoc), unfolding(crate::specs::Script::script_of))]
pub(crate) fn push_script(out: &mut Text, script: &Script) -> Places
    requires room { length out.old.items + 1452 ≤ WINDOW }
    requires small { script.now.skip + script.now.count ≤ 2048 }
    ensures items { out.new.items ≡ out.old.items
        ++ script_of script.now.systems script.now.x64 script.now.a64
        script.now.skip script.now.count }
    ensures x64 { result.x64 ≡ length out.old.items
        + (length script_start
        + (length (system_lines script.now.systems script.now.x64 script.now.skip script.now.count)
        + length (machine_start X64))) }
    ensures a64 { result.a64 ≡ length out.old.items
        + (length script_start
        + (length (system_lines script.now.systems script.now.x64 script.now.skip script.now.count)
        + (length (machine_lines X64 script.now.x64) + length (machine_start A64)))) }
{
    push_start(out);
    push_system_lines(out, script);
    let x64 = push_machine(out, Machine::X64, &script.x64);
    let a64 = push_machine(out, Machine::A64, &script.a64);
    push_end(out);
    Places { x64, a64 }
}

#[tactic(auto, unfolding(crate::specs::Script::script_start))]
fn push_start(out: &mut Text)
    requires { length out.old.items + 200 ≤ WINDOW }
    ensures items { out.new.items ≡ out.old.items ++ script_start }
    ensures len { length out.new.items ≤ length out.old.items + 200 }
{
    push_text(out, START);
}

// Appends the lines that test the system.
#[tactic(auto, using(std::proofs::Common::append_assoc), unfolding(crate::specs::Script::system_lines))]
fn push_system_lines(out: &mut Text, script: &Script)
    requires room { length out.old.items + 350 ≤ WINDOW }
    requires small { script.now.skip + script.now.count ≤ 2048 }
    ensures items { out.new.items ≡ out.old.items
        ++ system_lines script.now.systems script.now.x64 script.now.skip script.now.count }
    ensures len { length out.new.items ≤ length out.old.items + 350 }
{
    if script.systems.intersects(Systems::MAC) {
        push_darwin_lines(out, script.x64.is_some(), script.skip, script.count);
    }
    push_system_line(out, script.systems);
}

// Appends the lines for macOS.
#[tactic(auto, using(std::proofs::Common::append_assoc), unfolding(crate::specs::Script::darwin_lines))]
fn push_darwin_lines(out: &mut Text, x64: bool, skip: u32, count: u32)
    requires room { length out.old.items + 250 ≤ WINDOW }
    requires small { skip + count ≤ 2048 }
    ensures items { out.new.items ≡ out.old.items ++ darwin_lines x64 skip count }
    ensures len { length out.new.items ≤ length out.old.items + 250 }
{
    push_text(out, b"if [ \"$s\" = Darwin ]; then\n");
    if x64 {
        push_darwin_x64(out, skip, count);
    }
    push_text(out, b"exit 125\nfi\n");
}

#[tactic(auto, using(std::proofs::Common::append_assoc), unfolding(crate::specs::Script::darwin_x64_lines))]
fn push_darwin_x64(out: &mut Text, skip: u32, count: u32)
    requires room { length out.old.items + 200 ≤ WINDOW }
    requires small { skip + count ≤ 2048 }
    ensures items { out.new.items ≡ out.old.items ++ darwin_x64_lines skip count }
    ensures len { length out.new.items ≤ length out.old.items + 200 }
{
    push_text(out, DARWIN_X64_START);
    push_dd_line(out, skip, count);
    push_text(out, b"exec \"$t\" \"$@\"\nfi\n");
}

// Appends the line that writes the Mach-O header over the copy's first bytes.
#[tactic(auto, using(std::proofs::Common::append_assoc), unfolding(crate::specs::Script::dd_line))]
fn push_dd_line(out: &mut Text, skip: u32, count: u32)
    requires room { length out.old.items + 90 ≤ WINDOW }
    requires small { skip + count ≤ 2048 }
    ensures items { out.new.items ≡ out.old.items ++ dd_line skip count }
    ensures len { length out.new.items ≤ length out.old.items + 90 }
{
    push_text(out, b"dd if=\"$t\" of=\"$t\" bs=8 skip=");
    push_number(out, skip);
    push_text(out, b" count=");
    push_number(out, count);
    push_text(out, b" conv=notrunc 2>/dev/null || exit 123\n");
}

// Appends a number in decimal digits.
fn push_number(out: &mut Text, number: u32)
    requires room { length out.old.items + 4 ≤ WINDOW }
    requires small { number ≤ 2048 }
    ensures items { out.new.items ≡ out.old.items ++ decimal number }
    ensures len { length out.new.items ≤ length out.old.items + 4 }
{
    let mut text = [0; 20];
    let count = put_decimal(&mut text, 0, u64::from(number));
    push_text(out, &text[..count]);
}

// Appends the line that tests for the systems whose kernels run ELF files.
#[tactic(auto, using(std::proofs::Common::append_assoc), unfolding(crate::specs::Script::system_line))]
fn push_system_line(out: &mut Text, systems: Systems)
    requires { length out.old.items + 100 ≤ WINDOW }
    ensures items { out.new.items ≡ out.old.items ++ system_line systems }
    ensures len { length out.new.items ≤ length out.old.items + 100 }
{
    push_text(out, b"if ");
    push_tests(out, systems);
    push_text(out, b"; then\n");
}

// Appends the tests of the chosen systems whose kernels run ELF files, or one that is never true.
fn push_tests(out: &mut Text, systems: Systems)
    requires { length out.old.items + 90 ≤ WINDOW }
    ensures items { out.new.items ≡ out.old.items ++ or_tests (kernels_of systems) }
    ensures len { length out.new.items ≤ length out.old.items + 80 }
{
    let linux = systems.intersects(Systems::LINUX);
    let freebsd = systems.intersects(Systems::FREEBSD);
    let netbsd = systems.intersects(Systems::NETBSD);
    push_test(out, linux, false, b"[ \"$s\" = Linux ]");
    push_test(out, freebsd, linux, b"[ \"$s\" = FreeBSD ]");
    push_test(out, netbsd, linux || freebsd, b"[ \"$s\" = NetBSD ]");
    push_test(out, !(linux || freebsd || netbsd), false, b"[ 0 = 1 ]");
}

// Appends a test that was chosen, behind others or not.
fn push_test(out: &mut Text, chosen: bool, behind: bool, test: &[u8])
    requires short { length test.now ≤ 18 }
    requires room { length out.old.items + 22 ≤ WINDOW }
    ensures items { out.new.items ≡ out.old.items ++ chosen_test chosen behind test.now }
    ensures len { length out.new.items ≤ length out.old.items + 22 }
{
    if chosen {
        if behind {
            push_text(out, b" || ");
        }
        push_text(out, test);
    }
}

// Appends the lines for a machine where there is an input for it, and answers where its statement begins or would begin.
fn push_machine(out: &mut Text, machine: Machine, header: &Option<[u8; EHDR_SIZE]>) -> usize
    requires { length out.old.items + 440 ≤ WINDOW }
    ensures items { out.new.items ≡ out.old.items ++ machine_lines machine header.now }
    ensures len { length out.new.items ≤ length out.old.items + 440 }
    ensures place { result ≡ length out.old.items + length (machine_start machine) }
{
    let start = start_of(machine);
    let place = out.len() + start.len();
    if let Some(header) = header {
        push_text(out, start);
        push_statement(out, header);
        push_machine_end(out);
    }
    place
}

#[tactic(auto, unfolding(crate::specs::Script::machine_start))]
fn start_of<'a>(machine: Machine) -> &'a [u8]
    ensures text { result.now ≡ machine_start machine }
    ensures len { length result.now ≤ 120 }
{
    match machine {
        Machine::X64 => X64_START,
        Machine::A64 => A64_START,
    }
}

#[tactic(auto, unfolding(crate::specs::Script::machine_end))]
fn push_machine_end(out: &mut Text)
    requires { length out.old.items + 50 ≤ WINDOW }
    ensures items { out.new.items ≡ out.old.items ++ machine_end }
    ensures len { length out.new.items ≤ length out.old.items + 50 }
{
    push_text(out, MACHINE_END);
}

/// Appends the canonical statement of a header.
pub(crate) fn push_statement(out: &mut Text, header: &[u8; EHDR_SIZE])
    requires { length out.old.items + MOST_STATEMENT ≤ WINDOW }
    ensures items { out.new.items ≡ out.old.items ++ statement_of header.now }
    ensures len { length out.new.items ≤ length out.old.items + MOST_STATEMENT }
{
    let mut text = [0; MOST_STATEMENT];
    let count = write_statement(&mut text, 0, header);
    push_text(out, &text[..count]);
}

#[tactic(auto, unfolding(crate::specs::Script::script_end))]
fn push_end(out: &mut Text)
    requires { length out.old.items + 20 ≤ WINDOW }
    ensures { out.new.items ≡ out.old.items ++ script_end }
{
    push_text(out, b"fi\nexit 126\n");
}
