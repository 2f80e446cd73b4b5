// What is to be linked.
ghost use Rattle.std.specs.Prelude.{◌≡◌, ◌≢◌, ◌≤◌, ◌^◌, true, IfSome, IsSomeAnd, option_copied};
ghost use Rattle.std.proofs.Props.{props};
ghost use Rattle.ap_check.specs.Options.{AreTaken, for_windows};
ghost use Rattle.ap_check.specs.Inputs.{inputs_of};
ghost use Rattle.ap_elf.specs.declared.machine.Machine.TheVariants.{X64};
ghost use Rattle.ap_elf.specs.Machines.{is_machine};
ghost use Rattle.ap_check.specs.Windows.{x64_of, IsReady};
ghost use Rattle.ap_check.specs.Mac.{AreForMac};

use crate::input::Input;
use crate::options::Options;
use ap_elf::Machine;

/// One or two inputs for different machines, and what is asked of their linked file.
#[derive(Drop)]
pub struct Job<'a> {
    pub first: &'a Input,
    pub second: Option<&'a Input>,
    pub options: Options,
    /// The image base on Windows, or 0 without Windows.
    pub base: u64,
    pub ghost base_top: { base ≤ 2 ^ 48 },
    pub ghost taken: { AreTaken options } by { Prim.hlevel props },
    pub ghost first_number: { first.now.number ≡ 1 },
    pub ghost second_number: { IfSome (option_copied second) (λ i. i.number ≡ 2) } by { Prim.hlevel props },
    pub ghost machines: { IfSome (option_copied second) (λ i. first.now.machine ≢ i.machine) } by { Prim.hlevel props },
    pub ghost windows: { for_windows options ≡ true → IsSomeAnd (x64_of (inputs_of first.now (option_copied second))) (IsReady base) } by { Prim.hlevel props },
    pub ghost mac: { AreForMac options (inputs_of first.now (option_copied second)) } by { Prim.hlevel props },
}

impl<'a> Job<'a> {
    /// The input for x86-64, if there is one.
    pub fn x64(&self) -> Option<&'a Input>
        ensures { option_copied result
            ≡ x64_of (inputs_of self.now.first.now (option_copied self.now.second)) }
    {
        x64_input(self.first, self.second)
    }
}

/// The first of one or two inputs that is for x86-64.
pub fn x64_input<'a>(first: &'a Input, second: Option<&'a Input>) -> Option<&'a Input>
    ensures input { option_copied result ≡ x64_of (inputs_of first.now (option_copied second.entry)) }
    ensures machine { IfSome (option_copied result) (λ e. e.machine ≡ X64) }
{
    if is_x64(first) {
        return Some(first);
    }
    match second {
        Some(second) if is_x64(second) => Some(second),
        _ => None,
    }
}

fn is_x64(input: &Input) -> bool
    ensures { result ≡ is_machine X64 input.now.machine }
{
    input.machine == Machine::X64
}
