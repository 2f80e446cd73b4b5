// The contents of the areas of two loads, compared.
ghost use Rattle.std.specs.Prelude.{◌≡◌, ℕ, ◌≤◌, ◌<◌, ◌+◌, ◌^◌, length, slice_index};
ghost use Rattle.std.specs.Bool.{Decides};
ghost use Rattle.ap_fields.specs.Granules.{IsGranule};
ghost use Rattle.ap_layout.specs.Areas as areas;
ghost use Rattle.ap_link.specs.Compared.{Compares, IsBacked, IsInFile, ReadsContent, may_match};

use crate::twins::Side;
use ap_check::Load;
use ap_fields::ceil_to;
use ap_files::{Failed, Files};

// How many bytes are compared at once.
const PIECE: usize = 1 << 15;

/// Whether two loads have bytes in their files, and the areas that hold them the same content. Sizes are compared first, and then
/// pieces, up to the first that differs.
pub fn same_content<F: Files>(
    files: &mut F,
    one: &Side<'_>,
    load: &Load,
    name: &str,
    granule: u64,
    other: &Load,
) -> Result<bool, Failed>
    requires granule { IsGranule one.now.granule }
    requires others { IsGranule granule }
    requires ours { IsBacked (F.state files.old).kept one.now.name.now load.now }
    requires theirs { IsBacked (F.state files.old).kept name.now other.now }
    ensures { Compares (F.state files.old) (F.state files.new) one.now.name.now one.now.granule
        load.now name.now granule other.now result }
{
    if !may_match(load, one.granule, other, granule) {
        return Ok(false);
    }
    let length = content_length(load, one.granule);
    let mut ours = [0; PIECE];
    let mut theirs = [0; PIECE];
    let mut at = 0;
    while at < length {
        let size = (length - at).min(PIECE as u64) as usize;
        if let Err(failed) = read_content(
            files,
            one.name,
            load,
            one.granule,
            at,
            &mut ours[..size],
        ) {
            return Err(failed);
        }
        if let Err(failed) = read_content(files, name, other, granule, at, &mut theirs[..size]) {
            return Err(failed);
        }
        if !are_same(&ours[..size], &theirs[..size]) {
            return Ok(false);
        }
        at += size as u64;
    }
    Ok(true)
}

// Whether two loads have bytes in their files, and their areas the same length.
#[tactic(auto, unfolding(crate::specs::Compared::may_match))]
fn may_match(load: &Load, granule: u64, other: &Load, others: u64) -> bool
    requires granule { IsGranule granule }
    requires others { IsGranule others }
    requires small { load.now.filesz < 2 ^ 62 }
    requires smaller { other.now.filesz < 2 ^ 62 }
    ensures { result ≡ may_match granule load.now others other.now }
{
    if load.filesz == 0 {
        return false;
    }
    if other.filesz == 0 {
        return false;
    }
    content_length(load, granule) == content_length(other, others)
}

// Whether two parts hold the same bytes.
fn are_same(ours: &[u8], theirs: &[u8]) -> bool
    ensures { Decides result (ours.now ≡ theirs.now) }
{
    ours == theirs
}

// How long the content of a load's area is.
#[tactic(auto, using(ap_layout::proofs::Rounded::area_steps), unfolding(ap_layout::specs::Areas::content_length))]
fn content_length(load: &Load, granule: u64) -> u64
    requires granule { IsGranule granule }
    requires small { load.now.filesz < 2 ^ 62 }
    ensures { result ≡ areas.content_length granule load.now }
{
    ceil_to(load.vaddr % granule + load.filesz, granule)
}

// Fills the buffer with a part of a load's content: zeros in front of the load's bytes, the bytes, and zeros behind them.
fn read_content<F: Files>(
    files: &mut F,
    name: &str,
    load: &Load,
    granule: u64,
    at: u64,
    buf: &mut [u8],
) -> Result<(), Failed>
    requires granule { IsGranule granule }
    requires there { IsInFile (F.state files.old).kept name.now load.now }
    requires inside { at + length buf.old ≤ areas.content_length granule load.now }
    ensures { ReadsContent (F.state files.old) (F.state files.new) name.now granule load.now at buf.old
        buf.new result }
{
    let skew = load.vaddr % granule;
    let size = buf.len() as u64;
    let front = skew.saturating_sub(at).min(size);
    let end = (skew + load.filesz).saturating_sub(at).min(size);
    clear_beside(buf, front, end);
    if front < end {
        let from = load.offset + (at + front - skew);
        return files.read_at(name, from, &mut buf[front as usize..end as usize]);
    }
    Ok(())
}

// Fills the buffer with zeros, unless each of its bytes lies between two places.
fn clear_beside(buf: &mut [u8], front: u64, end: u64)
    ensures length { length buf.new ≡ length buf.old }
    ensures front { (k : ℕ) → k < front → slice_index buf.new k ≡ 0 }
    ensures end { (k : ℕ) → end ≤ k → slice_index buf.new k ≡ 0 }
{
    if front > 0 || end < buf.len() as u64 {
        buf.fill(0);
    }
}
