// What holds of the Mach-O reading, by its definition.
ghost use Rattle.ap_mach.specs.Looks.{MachReadsAlike};
ghost use Rattle.ap_mach.specs.ReadBack.{MachReadsBack, SegmentsAllow};

/// Two files of equal length that agree on their first 32 bytes and on the commands of the first have the same refusal, or the
/// same addresses, permissions and entry, and show the same places of the file.
pub fn mach_reads_alike()
    ensures { MachReadsAlike }
{}

/// A file that begins with the headers of a program as [`crate::mach_headers`] writes them, and has the areas of its loads, isn't
/// refused: it starts where the program does, and has a segment for each load, with the load's permissions.
pub fn mach_reads_back()
    ensures reading { MachReadsBack }
    ensures perms { SegmentsAllow }
{}
