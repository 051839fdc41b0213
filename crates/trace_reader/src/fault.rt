ghost use Rattle.std.specs.Prelude.{◌≡◌};
ghost use Rattle.trace_reader.specs.declared.fault.TraceFault.TheVariants.{NoMemory as OutOfMemory};

use edge_io::NoMemory;

/// Why a trace is refused. A line's number counts from 1, and the first offending line decides.
#[derive(Clone, Copy, Debug, PartialEq, Eq)]
pub enum TraceFault {
    /// The source failed before the byte or the end of input that ends a line.
    ReadFault,
    /// The line has more than 120 bytes, another form, or does not stand where it may.
    Malformed(u64),
    /// The input ended inside the line, or where it should begin.
    Truncated(u64),
    /// A number of the line, a count, or the bytes so far are past a limit.
    Limit(u64, Which),
    /// The line marks this object, which is not live; it is the least such object of the line.
    BadMark(u64, u32),
    /// Memory ran out.
    NoMemory,
}

/// What is limited.
#[derive(Clone, Copy, Debug, PartialEq, Eq)]
pub enum Which {
    /// The bytes of the trace.
    Bytes,
    /// The region's chunks.
    Chunks,
    /// The processors.
    Procs,
    /// The sampling rate, in bytes.
    Rate,
    /// The seed of sampling.
    Seed,
    /// The scavenger's goal, in pages.
    Goal,
    /// An event's processor.
    Proc,
    /// An object's size, in bytes.
    Size,
    /// An event's stack number.
    Stack,
    /// A mark end's distance, in bytes.
    Distance,
    /// An object's number in a mark.
    Id,
    /// The count of objects.
    Objects,
    /// The count of mark ends.
    MarkEnds,
    /// The count of marked objects, over all mark ends.
    Marks,
}

impl From<NoMemory> for TraceFault {
    ghost from_gives = { λ _ e. e ≡ OutOfMemory };

    fn from(_: NoMemory) -> Self {
        TraceFault::NoMemory
    }
}
