// The stack that an input asks for.
ghost use Rattle.std.specs.Prelude.{◌≡◌};
ghost use Rattle.ap_check.specs.Inputs as spec;
ghost use Rattle.ap_check.specs.Inputs.{first_of};

use ap_elf::Entry;
use ap_elf::constants::PT_GNU_STACK;

/// The first entry that speaks of the stack, of the type `PT_GNU_STACK`.
pub fn stack(entries: &[Entry]) -> Option<Entry>
    ensures { result ≡ first_of spec.is_stack entries.now }
{
    for p in entries {
        if is_stack(p) {
            return Some(*p);
        }
    }
    None
}

fn is_stack(p: &Entry) -> bool
    ensures { result ≡ spec.is_stack p.now }
{
    p.kind == PT_GNU_STACK
}
