// What a call that could not do its work answers.
ghost use Rattle.std.specs.Prelude.{◌≡◌, ◌+◌, ◌-◌, ◌^◌, ◌≤◌, min};

/// A call on a file or a sink failed, and one of the counts of its trait rose.
#[derive(Clone, Copy, Debug, PartialEq, Eq)]
pub struct Failed;

/// Which side of a transfer between files failed.
#[derive(Clone, Copy, Debug, PartialEq, Eq)]
pub enum FileFault {
    Read,
    Write,
}

/// No memory is left.
#[derive(Clone, Copy, Debug, PartialEq, Eq)]
pub struct NoMemory;

/// Raises the count of one kind of failed calls, which stays at its last value.
pub(crate) fn count_failure(count: &mut u64) -> Failed
    ensures raised { count.new ≡ min (count.old + 1) (2 ^ 64 - 1) }
    ensures never_falls { count.old ≤ count.new }
{
    *count = count.saturating_add(1);
    Failed
}
