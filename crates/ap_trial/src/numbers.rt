// What a trial finds.

/// The folds of what each reading of the linked file finds at the addresses of an input's loads.
#[derive(Clone, Copy)]
pub(crate) struct ReadingFolds {
    /// The PE reading.
    pub pe: u64,
    /// The Mach-O reading of the Mach-O file that the linked file becomes.
    pub mach: u64,
    /// The ELF reading of the ELF file for x86-64 that it becomes, for pages of 4096 bytes.
    pub elf_x64: u64,
    /// The APE reading for x86-64, for pages of 4096 bytes.
    pub ape_x64: u64,
    /// The ELF reading of the ELF file for AArch64, for pages of 16384 bytes.
    pub elf_a64: u64,
    /// The APE reading for AArch64, for pages of 4096 bytes.
    pub ape_a64_4096: u64,
    /// The same for pages of 16384 bytes.
    pub ape_a64_16384: u64,
}

/// The numbers of a summary.
#[derive(Clone, Copy)]
pub(crate) struct SummaryNumbers {
    /// The length of the input for x86-64, in bytes.
    pub x64: usize,
    /// That of the input for AArch64.
    pub a64: usize,
    /// That of the linked file.
    pub linked: usize,
    /// The fold of the linked file's bytes.
    pub fold: u64,
    pub folds: ReadingFolds,
}
