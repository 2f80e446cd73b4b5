// Why a file has no Mach-O reading.

/// What a file is refused for, in the order in which it is looked at: causes from `CommandSize` to `Thread` command by command.
#[derive(Clone, Copy, Debug, PartialEq, Eq)]
pub enum MachCause {
    /// The file is shorter than 32 bytes.
    Short,
    /// It doesn't begin with the magic of 64 bits, lowest byte first.
    Magic,
    /// It isn't for x86-64.
    Cpu,
    /// It isn't a program.
    FileType,
    /// It has more than 1024 commands.
    Count,
    /// The commands pass the file's end.
    CommandRange,
    /// A command's size is below 8, isn't a multiple of 8, or passes the end of the commands.
    CommandSize,
    /// A command is for a dynamic linker.
    Dynamic,
    /// A segment command is shorter than 72 bytes.
    SegmentSize,
    /// A segment's address, size or place in the file isn't a multiple of 4096.
    Aligned,
    /// A segment has more bytes in the file than in memory.
    Sizes,
    /// Its bytes pass the file's end.
    Range,
    /// It ends above 2^47.
    Top,
    /// A segment that maps something begins below the end of the last one that did.
    Order,
    /// More than 97 segments map something.
    Many,
    /// A thread command is shorter than 184 bytes, hasn't the registers of x86-64, or isn't the first.
    Thread,
    /// There is no thread command.
    NoThread,
}

/// The first refusal of a file.
#[derive(Clone, Copy, Debug, PartialEq, Eq)]
pub struct MachFault {
    pub cause: MachCause,
    /// The command, counted from 1 in the order of the file, or 0 where the cause is of the whole file.
    pub item: u16,
    /// The number that was found.
    pub value: u64,
}
