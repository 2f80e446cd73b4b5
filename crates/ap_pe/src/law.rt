// What holds of the PE reading, by its definition.
ghost use Rattle.ap_pe.specs.Looks.{PeReadsAlike};

/// Two files of equal length that agree on their first 64 bytes, and from the signature to the end of the section headers of
/// the first, have the same refusal, or the same addresses, permissions and entry, and show the same places of the file.
pub fn pe_reads_alike()
    ensures { PeReadsAlike }
{}
