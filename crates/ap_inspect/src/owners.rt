// The lines on owners.
ghost use Rattle.std.specs.Prelude.{◌≡◌, ◌++◌, OnOk, flat_map};
ghost use Rattle.ap_pe.specs.Format.{headers_of};
ghost use Rattle.ap_pemap.specs.PePlans.{pe_plan};
ghost use Rattle.ap_inspect.specs.Owners as spec;
ghost use Rattle.ap_inspect.specs.Owners.{area_owner, area_owners, mach_owner, magic_owner, owner_line, where_mapped};

use ap_image::{Plan, Region};
use ap_loader::{ApeFault, has_magic};
use ap_machmap::MachFault;
use ap_octal::DdStatement;
use ap_pe::{PeHeaders, read_pe};
use ap_pemap::PeFault;
use ap_texts::push_decimal;
use std::alloc::AllocError;

/// Appends the line of an owner: its name, the first place and the number of bytes.
#[tactic(auto, using(std::proofs::Common::append_assoc), unfolding(crate::specs::Owners::owner_line))]
pub(crate) fn push_owner(
    text: &mut Vec<u8>,
    name: &[u8],
    start: u64,
    size: u64,
) -> Result<(), AllocError>
    ensures { OnOk result (text.new.items ≡ text.old.items ++ owner_line name.now start size) }
{
    text.extend_from_slice(b"owner ")?;
    text.extend_from_slice(name)?;
    text.extend_from_slice(b" ")?;
    push_decimal(text, start)?;
    text.extend_from_slice(b" ")?;
    push_decimal(text, size)?;
    text.extend_from_slice(b"\n")
}

/// Appends the line of a file's magic.
pub(crate) fn push_magic_owner(text: &mut Vec<u8>, file: &[u8]) -> Result<(), AllocError>
    ensures { OnOk result (text.new.items ≡ text.old.items ++ magic_owner file.now) }
{
    if has_magic(file) {
        push_owner(text, b"ape", 0, 8)
    } else {
        Ok(())
    }
}

/// Appends the lines of the DOS fields and of the PE headers of a file, where `answer` is a plan.
pub(crate) fn push_pe_part(
    text: &mut Vec<u8>,
    file: &[u8],
    answer: &Result<Plan, PeFault>,
) -> Result<(), AllocError>
    requires { answer.now ≡ pe_plan file.now }
    ensures { OnOk result (text.new.items ≡ text.old.items
        ++ where_mapped answer.now (spec.pe_owners (headers_of file.now))) }
{
    match answer {
        Ok(_) => match read_pe(file) {
            Ok(h) => push_pe_owners(text, &h),
            Err(_) => unreachable!(),
        },
        Err(_) => Ok(()),
    }
}

// Appends the lines of the DOS fields and of the PE headers.
#[tactic(auto, using(std::proofs::Common::append_assoc), unfolding(crate::specs::Owners::pe_owners))]
fn push_pe_owners(text: &mut Vec<u8>, h: &PeHeaders) -> Result<(), AllocError>
    ensures { OnOk result (text.new.items ≡ text.old.items ++ spec.pe_owners h.now) }
{
    push_owner(text, b"dos", 0, 2)?;
    push_owner(text, b"dos", 60, 4)?;
    let size = 24 + h.optional as u64 + 40 * h.count as u64;
    push_owner(text, b"pe", h.at, size)
}

/// Appends the line of the blocks that a file's `dd` statement copies, as far as a file of `len` bytes has them, where
/// `answer` is a plan.
pub(crate) fn push_mach_part(
    text: &mut Vec<u8>,
    len: u64,
    dd: &Option<DdStatement>,
    answer: &Result<Plan, MachFault>,
) -> Result<(), AllocError>
    ensures { OnOk result (text.new.items ≡ text.old.items
        ++ where_mapped answer.now (mach_owner len dd.now)) }
{
    match answer {
        Ok(_) => push_mach_owner(text, len, dd),
        Err(_) => Ok(()),
    }
}

fn push_mach_owner(text: &mut Vec<u8>, len: u64, dd: &Option<DdStatement>) -> Result<(), AllocError>
    ensures { OnOk result (text.new.items ≡ text.old.items ++ mach_owner len dd.now) }
{
    match dd {
        None => Ok(()),
        Some(s) => {
            let start = s.skip as u64 * s.size as u64;
            let copied = s.count as u64 * s.size as u64;
            push_owner(text, b"mach", start, copied.min(len.saturating_sub(start)))
        }
    }
}

/// Appends the lines of the regions that show the file, where `answer` is a plan.
pub(crate) fn push_areas(
    text: &mut Vec<u8>,
    answer: &Result<Plan, ApeFault>,
) -> Result<(), AllocError>
    ensures { OnOk result (text.new.items ≡ text.old.items ++ area_owners answer.now) }
{
    match answer {
        Ok(plan) => push_regions(text, plan.regions.as_slice()),
        Err(_) => Ok(()),
    }
}

#[tactic(auto, using(std::proofs::Common::append_assoc))]
fn push_regions(text: &mut Vec<u8>, regions: &[Region]) -> Result<(), AllocError>
    ensures { OnOk result (text.new.items ≡ text.old.items ++ flat_map area_owner regions.now) }
{
    for region in regions {
        push_area(text, region)?;
    }
    Ok(())
}

// Appends the line of a region that shows the file.
fn push_area(text: &mut Vec<u8>, region: &Region) -> Result<(), AllocError>
    ensures { OnOk result (text.new.items ≡ text.old.items ++ area_owner region.now) }
{
    if region.backed == 0 {
        return Ok(());
    }
    push_owner(text, b"area", region.at, region.backed)
}
