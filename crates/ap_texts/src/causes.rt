// The names of causes.
ghost use Rattle.std.specs.Prelude.{◌≡◌, ◌≤◌, length};
ghost use Rattle.ap_texts.specs.CauseNames.{cause_name, mach_cause_name, pe_cause_name};

use ap_elf::ElfCause;
use ap_mach::MachCause;
use ap_pe::PeCause;

/// The name of a cause of the ELF reading.
pub fn elf_name(cause: ElfCause) -> &'static [u8]
    ensures name { result.now ≡ cause_name cause }
    ensures short { length result.now ≤ 20 }
{
    match cause {
        ElfCause::Short => b"Short",
        ElfCause::Magic => b"Magic",
        ElfCause::Class => b"Class",
        ElfCause::Endian => b"Endian",
        ElfCause::Version => b"Version",
        ElfCause::FileType => b"FileType",
        ElfCause::Machine => b"Machine",
        ElfCause::TableSize => b"TableSize",
        ElfCause::TableCount => b"TableCount",
        ElfCause::TableRange => b"TableRange",
        ElfCause::Dynamic => b"Dynamic",
        ElfCause::Sizes => b"Sizes",
        ElfCause::Range => b"Range",
        ElfCause::Top => b"Top",
        ElfCause::Congruent => b"Congruent",
        ElfCause::Order => b"Order",
        ElfCause::NoLoad => b"NoLoad",
    }
}

/// The name of a cause of the PE reading.
pub fn pe_name(cause: PeCause) -> &'static [u8]
    ensures name { result.now ≡ pe_cause_name cause }
    ensures short { length result.now ≤ 20 }
{
    match cause {
        PeCause::Mz => b"Mz",
        PeCause::Signature => b"Signature",
        PeCause::Machine => b"Machine",
        PeCause::Sections => b"Sections",
        PeCause::OptionalSize => b"OptionalSize",
        PeCause::OptionalMagic => b"OptionalMagic",
        PeCause::Base => b"Base",
        PeCause::Alignment => b"Alignment",
        PeCause::Directories => b"Directories",
        PeCause::SectionTable => b"SectionTable",
        PeCause::HeadersSize => b"HeadersSize",
        PeCause::Empty => b"Empty",
        PeCause::Adjacent => b"Adjacent",
        PeCause::RawAlign => b"RawAlign",
        PeCause::RawRange => b"RawRange",
        PeCause::SectionEnd => b"SectionEnd",
        PeCause::ImageSize => b"ImageSize",
        PeCause::Top => b"Top",
        PeCause::Entry => b"Entry",
    }
}

/// The name of a cause of the Mach-O reading.
pub fn mach_name(cause: MachCause) -> &'static [u8]
    ensures name { result.now ≡ mach_cause_name cause }
    ensures short { length result.now ≤ 20 }
{
    match cause {
        MachCause::Short => b"Short",
        MachCause::Magic => b"Magic",
        MachCause::Cpu => b"Cpu",
        MachCause::FileType => b"FileType",
        MachCause::Count => b"Count",
        MachCause::CommandRange => b"CommandRange",
        MachCause::CommandSize => b"CommandSize",
        MachCause::Dynamic => b"Dynamic",
        MachCause::SegmentSize => b"SegmentSize",
        MachCause::Aligned => b"Aligned",
        MachCause::Sizes => b"Sizes",
        MachCause::Range => b"Range",
        MachCause::Top => b"Top",
        MachCause::Order => b"Order",
        MachCause::Many => b"Many",
        MachCause::Thread => b"Thread",
        MachCause::NoThread => b"NoThread",
    }
}
