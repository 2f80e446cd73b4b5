// The stack that an input asks for.
ghost use Rattle.std.specs.Prelude.{◌≡◌};
ghost use Rattle.ap_layout.specs.Stacks as spec;

use ap_elf::Entry;
use ap_fields::ceil_to;

// The most bytes of a stack that is asked for.
const MOST_STACK: u64 = 1 << 30;
// What a stack's size is a multiple of.
const STACK_GRANULE: u64 = 1 << 16;

/// The size in bytes of the stack that an input asks for by its entry of type `PT_GNU_STACK`: in whole multiples of 65536, 2^30
/// at most, and 0 where it asks for none.
pub fn stack_size(stack: &Option<Entry>) -> u64
    ensures { result ≡ spec.stack_size stack.now }
{
    match stack {
        None => 0,
        Some(p) => ceil_to(p.memsz.min(MOST_STACK), STACK_GRANULE),
    }
}
