// The structures of a Mach-O file, as far as they are looked at (loader.h, `mach_header_64`, `load_command`,
// `segment_command_64` and `thread_command`).

/// What is looked at of the header.
#[derive(Clone, Copy, Debug, Default, PartialEq, Eq)]
pub struct MachHeader {
    /// The file's first four bytes (`magic`).
    pub magic: u32,
    /// The machine that the file is for (`cputype`).
    pub cpu: u32,
    /// What kind of file it is (`filetype`).
    pub kind: u32,
    /// How many commands there are (`ncmds`).
    pub count: u32,
    /// How many bytes they have in all (`sizeofcmds`).
    pub size: u32,
}

/// What each command begins with.
#[derive(Clone, Copy, Debug, Default, PartialEq, Eq)]
pub struct Command {
    /// What the command is for (`cmd`).
    pub kind: u32,
    /// The place of its first byte in the file.
    pub at: u64,
    /// How many bytes it has (`cmdsize`).
    pub size: u32,
}

/// What is looked at of a segment command.
#[derive(Clone, Copy, Debug, Default, PartialEq, Eq)]
pub struct SegmentCommand {
    /// The first address (`vmaddr`).
    pub vmaddr: u64,
    /// How many addresses there are (`vmsize`).
    pub vmsize: u64,
    /// The place in the file of the byte at the first address (`fileoff`).
    pub fileoff: u64,
    /// How many addresses show the file's bytes (`filesize`).
    pub filesize: u64,
    /// What may be done with the memory at first (`initprot`).
    pub initprot: u32,
}

/// What is looked at of a thread command.
#[derive(Clone, Copy, Debug, Default, PartialEq, Eq)]
pub struct ThreadCommand {
    /// Which registers its state has (`flavor`).
    pub flavor: u32,
    /// How many numbers of 32 bits they are (`count`).
    pub count: u32,
    /// Register 16, counted from 0: the address at which the program starts (`rip` of `x86_thread_state64_t`).
    pub start: u64,
}

/// A command with its fields, by either kind that has fields which are looked at.
#[derive(Clone, Copy, Debug, Default, PartialEq, Eq)]
pub struct CommandParts {
    pub front: Command,
    /// Its fields, if it is a segment command.
    pub segment: SegmentCommand,
    /// Its fields, if it is a thread command.
    pub thread: ThreadCommand,
}
