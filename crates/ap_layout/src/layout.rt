// Layouts of linked files.
use ap_fields::MOST_LOADS;
use arrayvec::ArrayVec;
use std::marker::Model;

/// A part of a linked file that a load's granules show.
#[derive(Clone, Copy, Debug, Default, PartialEq, Eq)]
pub struct Area {
    /// The place of its first byte in the file, on the granule of the input's machine; 0 where the area is empty.
    pub file: u64,
    /// Its length in bytes; 0 where the load has no bytes in the file.
    pub len: u64,
}

/// Where the parts of a linked file stand.
#[derive(Drop)]
pub struct Layout {
    /// The areas of each input's loads, in the order of its loads. The second list is empty where there is one input.
    pub areas: [ArrayVec<Area, MOST_LOADS>; 2],
    /// The place of each input's program header table.
    pub tables: ArrayVec<u32, 2>,
    /// The place of the Mach-O header, or 0 where there is none.
    pub mach_at: u32,
    /// Its length in bytes, or 0.
    pub mach_len: u32,
    /// The end of the here-document's body.
    pub body_end: u32,
    /// The file's length in bytes.
    pub total: u64,
}

impl Model for Layout {
    ghost use Rattle.std.specs.Prelude.{map};
    ghost use Rattle.ap_layout.specs.Positions.{Positions};

    ghost Value = { Positions };

    ghost view = { λ l. record { areas = map (λ v. v.items) l.areas; tables = l.tables.items; mach_at = l.mach_at; mach_len = l.mach_len; body_end = l.body_end; total = l.total } };
}
