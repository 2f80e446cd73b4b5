// The image file of a plan, written to a file.
ghost use Rattle.std.specs.Prelude.{◌≡◌, ◌≤◌, ◌+◌, length, flat_map};
ghost use Rattle.ap_fields.specs.Bytes.{zeros};
ghost use Rattle.ap_fields.specs.Readings.{bytes_in};
ghost use Rattle.ap_files.specs.Files.{IsUnfinished};
ghost use Rattle.ap_files.specs.Appends.{Appends, Makes, write_failure};
ghost use Rattle.ap_image.specs.Plans.{AreAscendingFrom, AreBacked, IsRegion};
ghost use Rattle.ap_image.specs.ImageFiles.{front_of, region_bytes, image_file};

use crate::piece::{Image, whole_piece};
use crate::plan::Region;
use ap_files::{Failed, Files, append};

/// How many zeros are written at once.
const ZEROS: usize = 1 << 15;

/// Makes a file of what is given to stand before the bytes, and the bytes of a plan over a file: its image file. They are
/// written piece by piece, so no memory is taken.
///
/// `Failed`: a write failed; the file was not started, or it has the first bytes of the image file and is unfinished.
pub fn write_image<F: Files>(
    files: &mut F,
    name: &str,
    front: &[u8],
    image: &Image<'_>,
) -> Result<(), Failed>
    requires { front.now ≡ front_of image.now.plan }
    ensures { Makes (F.state files.old) (F.state files.new) name.now
        (image_file (bytes_in image.now.file) image.now.plan) (write_failure result) }
{
    files.start(name)?;
    append_image(files, name, front, image)?;
    files.finish(name)
}

// Appends an image file.
fn append_image<F: Files>(
    files: &mut F,
    name: &str,
    front: &[u8],
    image: &Image<'_>,
) -> Result<(), Failed>
    requires front { front.now ≡ front_of image.now.plan }
    requires name { IsUnfinished (F.state files.old) name.now }
    ensures { Appends (F.state files.old) (F.state files.new) name.now
        (image_file (bytes_in image.now.file) image.now.plan) (write_failure result) }
{
    append(files, name, front)?;
    append_regions(files, name, image.plan().regions.as_slice(), image.file())
}

// Appends the bytes of regions.
fn append_regions<F: Files>(
    files: &mut F,
    name: &str,
    regions: &[Region],
    file: &[u8],
) -> Result<(), Failed>
    requires regions { AreAscendingFrom 0 regions.now }
    requires backed { AreBacked regions.now (length file.now) }
    requires name { IsUnfinished (F.state files.old) name.now }
    ensures { Appends (F.state files.old) (F.state files.new) name.now
        (flat_map (region_bytes (bytes_in file.now)) regions.now) (write_failure result) }
{
    for r in regions {
        append_region(files, name, r, file)?;
    }
    Ok(())
}

// Appends the piece that is the whole of a region.
fn append_region<F: Files>(files: &mut F, name: &str, r: &Region, file: &[u8]) -> Result<(), Failed>
    requires region { IsRegion r.now }
    requires backed { r.now.at + r.now.backed ≤ length file.now }
    requires name { IsUnfinished (F.state files.old) name.now }
    ensures { Appends (F.state files.old) (F.state files.new) name.now
        (region_bytes (bytes_in file.now) r.now) (write_failure result) }
{
    let piece = whole_piece(r, file);
    append(files, name, piece.bytes)?;
    append_zeros(files, name, piece.zeros)
}

// Appends zeros.
fn append_zeros<F: Files>(files: &mut F, name: &str, count: u64) -> Result<(), Failed>
    requires { IsUnfinished (F.state files.old) name.now }
    ensures { Appends (F.state files.old) (F.state files.new) name.now (zeros count)
        (write_failure result) }
{
    let piece = [0; ZEROS];
    let mut at = 0;
    while at < count {
        let size = (count - at).min(ZEROS as u64);
        append(files, name, &piece[..size as usize])?;
        at += size;
    }
    Ok(())
}
