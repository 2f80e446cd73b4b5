// What readings answer of a file.
ghost use Rattle.std.specs.Prelude.{◌≡◌, IfOk};
ghost use Rattle.ap_machmap.specs.MachPlans.{mach_plan};
ghost use Rattle.ap_octal.specs.DdPlace.{IsDd};
ghost use Rattle.ap_inspect.specs.DdLines.{after_dd};
ghost use Rattle.ap_inspect.specs.Reports.{answers_of};

use ap_assim::copy_to_front;
use ap_elf::Machine;
use ap_image::{Plan, Reading};
use ap_loader::{ApeFault, ApeReading};
use ap_machmap::{MachFault, MachReading};
use ap_octal::DdStatement;
use ap_pemap::{PeFault, PeReading};
use std::alloc::{AllocError, Global};

/// What the four readings answer of a file.
#[derive(Drop)]
pub struct Answers {
    pub pe: Result<Plan, PeFault>,
    /// Of the file after its `dd` statement, where it has one.
    pub mach: Result<Plan, MachFault>,
    /// For x86-64, at pages of 4096 bytes.
    pub x64: Result<Plan, ApeFault>,
    /// For AArch64, at pages of 16384 bytes.
    pub arm64: Result<Plan, ApeFault>,
}

/// Reads a file in each of the four ways, where `dd` is its `dd` statement.
pub(crate) fn ask(
    alloc: Global,
    file: &[u8],
    dd: &Option<DdStatement>,
) -> Result<Answers, AllocError>
    requires { IsDd file.now dd.now }
    ensures { IfOk result (λ answers. answers ≡ answers_of file.now dd.now) }
{
    let mach = ask_mach(alloc, file, dd)?;
    let for_x64 = ApeReading {
        machine: Machine::X64,
        page: 4096,
    };
    let for_arm64 = ApeReading {
        machine: Machine::A64,
        page: 16384,
    };
    Ok(Answers {
        pe: PeReading.read(file),
        mach,
        x64: for_x64.read(file),
        arm64: for_arm64.read(file),
    })
}

fn ask_mach(
    alloc: Global,
    file: &[u8],
    dd: &Option<DdStatement>,
) -> Result<Result<Plan, MachFault>, AllocError>
    requires { IsDd file.now dd.now }
    ensures { IfOk result (λ answer. answer ≡ mach_plan (after_dd file.now dd.now)) }
{
    match dd {
        None => Ok(MachReading.read(file)),
        Some(statement) => {
            let mut moved = file.to_vec(alloc)?;
            copy_to_front(&mut moved, statement.size, statement.skip, statement.count);
            Ok(MachReading.read(&moved))
        }
    }
}
