// A part of a file appended to another file.
ghost use Rattle.std.specs.Prelude.{◌≢◌, ◌<◌, ◌+◌, ◌^◌};
ghost use Rattle.ap_files.specs.Files.{IsUnfinished, HasRange, told_bytes};
ghost use Rattle.ap_files.specs.Appends.{Appends, failure_of};
ghost use Rattle.ap_link.specs.Sources.{part_of};

use ap_files::{FileFault, Files, append};

// How many bytes are read and written at once.
const PIECE: usize = 1 << 18;

/// Appends `count` bytes of the file `input` from the byte `from` on to the file `out`, in large pieces.
pub fn copy<F: Files>(
    files: &mut F,
    input: &str,
    out: &str,
    from: u64,
    count: u64,
) -> Result<(), FileFault>
    requires small { from + count < 2 ^ 64 }
    requires apart { input.now ≢ out.now }
    requires out { IsUnfinished (F.state files.old) out.now }
    requires range { HasRange (F.state files.old).kept input.now from count }
    ensures { Appends (F.state files.old) (F.state files.new) out.now
        (part_of from count (told_bytes (F.state files.old).kept input.now)) (failure_of result) }
{
    let mut buffer = [0; PIECE];
    let mut done = 0;
    while done < count {
        let size = (count - done).min(PIECE as u64) as usize;
        let part = &mut buffer[..size];
        if let Err(_) = files.read_at(input, from + done, part) {
            return Err(FileFault::Read);
        }
        if let Err(_) = append(files, out, part) {
            return Err(FileFault::Write);
        }
        done += size as u64;
    }
    Ok(())
}
