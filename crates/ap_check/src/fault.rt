// The answer of a check that fails.
ghost use Rattle.std.specs.Prelude.{◌≡◌, if◌then◌else◌};
ghost use Rattle.ap_check.specs.Rules.{fault_of};

/// The first rule that an input breaks, or two inputs together.
#[derive(Clone, Copy, Debug, PartialEq, Eq)]
pub struct Fault {
    /// The rule's number.
    pub rule: u8,
    /// The input's number, 1 or 2.
    pub input: u8,
    /// The entry or load that breaks the rule, counted from 1, or 0 where the rule is of the whole file. Rule 19 has two
    /// parts, and this is the part's number.
    pub item: u16,
    /// The number that was found. Of rule 22 it is the number of the part that fails.
    pub value: u64,
}

/// The fault of a rule.
pub fn broken(input: u8, rule: u8, item: u16, value: u64) -> Fault
    ensures { result ≡ fault_of input rule item value }
{
    Fault {
        rule,
        input,
        item,
        value,
    }
}

/// The fault, unless its rule holds.
pub fn demand(holds: bool, fault: Fault) -> Result<(), Fault>
    ensures { result ≡ (if holds then Ok tt else Err fault) }
{
    if holds { Ok(()) } else { Err(fault) }
}
