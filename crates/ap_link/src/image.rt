// What the readings find in a linked file.
ghost use Rattle.ap_link.specs.Images.{ElfIsSame, ApeIsSame};
ghost use Rattle.ap_link.specs.PeImages.{PeIsSame};
ghost use Rattle.ap_link.specs.MachImages.{MachIsSame};

/// A linked file with an input's header over its first bytes is read as the input's image by the ELF reading, for each page
/// size of the input's machine.
pub fn elf_is_same()
    ensures { ElfIsSame }
{}

/// A linked file is read with an input's header as the input's image by the APE reading, for each page size of the input's
/// machine.
pub fn ape_is_same()
    ensures { ApeIsSame }
{}

/// A linked file with an x86-64 input's PE headers is read as the input's image by the PE reading, and shows besides the file's
/// first bytes from the image base on and zeros in the gaps between loads.
pub fn pe_is_same()
    ensures { PeIsSame }
{}

/// A linked file with an x86-64 input's Mach-O header over its first bytes is read as the input's image by the Mach-O reading.
pub fn mach_is_same()
    ensures { MachIsSame }
{}
