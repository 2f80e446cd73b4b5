// Pieces of plans over files in memory, and image files that are written by them.
ghost use Rattle.ap_image.specs.Plans.{AreBacked};

use super::plans::{code, code_and_zeros, data};
use ap_files::MemoryFiles;
use ap_image::*;
use arrayvec::ArrayVec;
use std::test::Fail;

/// An address, how many addresses are asked for, and the piece that stands there.
type Row<'f> = (u64, u64, Option<Piece<'f>>);

/// A page of code of which a file shows 512 bytes from 0x4000 on.
fn short_code() -> Plan
    ensures { AreBacked result.regions 0x4200 }
{
    let mut regions = ArrayVec::new();
    regions.push(Region {
        start: 0x401000,
        span: 0x1000,
        backed: 0x200,
        at: 0x4000,
        perms: code(),
    });
    Plan {
        regions,
        entry: 0x401000,
    }
}

fn numbered(file: &mut [u8]) {
    for (number, place) in file.iter_mut().enumerate() {
        *place = (number % 251) as u8;
    }
}

#[test]
fn pieces_end_with_what_is_asked_for_and_with_their_regions(rt: HostRuntime) {
    let mut file = [0u8; 0x5000];
    numbered(&mut file);
    let plan = Image::new(code_and_zeros(), &file);
    let short = Image::new(short_code(), &file[..0x4200]);
    let rows: [Row; 8] = [
        (0x400fff, 1, None),
        (0x401010, 100, some(&file[0x4010..0x4074], 0, code())),
        (0x401fff, 2, some(&file[0x4fff..], 0, code())),
        (0x401000, u64::MAX, some(&file[0x4000..], 0, code())),
        (0x402000, 1, None),
        (0x403000, 1048576, some(b"", 8192, data())),
        (0x404ffe, 1, some(b"", 1, data())),
        (0x405000, 1, None),
    ];
    for (a, most, wanted) in rows {
        assert!(rt; most > 0 && plan.piece(a, most) == wanted, "at {a}");
    }
    let rows: [Row; 4] = [
        (0x401100, 4096, some(&file[0x4100..0x4200], 3584, code())),
        (0x401100, 256, some(&file[0x4100..0x4200], 0, code())),
        (0x401200, 4096, some(b"", 3584, code())),
        (0x401fff, 4096, some(b"", 1, code())),
    ];
    for (a, most, wanted) in rows {
        assert!(rt; most > 0 && short.piece(a, most) == wanted, "at {a}");
    }
}

fn some<'f>(bytes: &'f [u8], zeros: u64, perms: Perms) -> Option<Piece<'f>> {
    Some(Piece {
        bytes,
        zeros,
        perms,
    })
}

#[test]
fn an_image_file_is_written_as_it_is_made_in_memory(rt: HostRuntime) -> Result<(), Fail> {
    let mut file = [0u8; 0x5000];
    numbered(&mut file);
    let plan = code_and_zeros();
    let whole = dump(rt.alloc(), &plan, &file)?;
    let front = image_front(rt.alloc(), &plan)?;
    let image = Image::new(plan, &file);
    for (most, fails) in [
        (20_000, 0),
        (1000, 0),
        (1000, 1),
        (1000, 3),
        (1000, 9),
        (1000, 17),
    ] {
        let mut files = MemoryFiles::new(rt.alloc(), &[fails])?;
        files.reserve("image", 12360)?;
        if most > 0 {
            files.slow(most);
        }
        let written = write_image(&mut files, "image", &front, &image);
        let bytes = files.bytes("image").unwrap_or(b"");
        assert!(rt;
            written.is_ok() == (fails == 0) && whole.starts_with(bytes),
            "{most}"
        );
        assert!(rt; fails != 0 || bytes.len() == 12360, "{most}");
    }
    Ok(())
}
