// Why a file has no APE reading.
use ap_elfmap::ElfFault;

/// The first refusal of a file.
#[derive(Clone, Copy, Debug, PartialEq, Eq)]
pub enum ApeFault {
    /// The file begins with none of `MZqFpD='`, `jartsr='` and `APEDBG='`.
    NoMagic,
    /// No statement in its first 8192 bytes prints an ELF header for the machine.
    NoStatement,
    /// The ELF reading with that header refuses the file.
    Elf(ElfFault),
}
