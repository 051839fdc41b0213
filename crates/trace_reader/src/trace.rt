use crate::span::Span;
use edge_io::List;

/// What a heap did: allocations, and what was marked at each mark end. It is within the limits of the format.
#[derive(Debug, Drop)]
pub struct Trace {
    pub header: Header,
    /// One cycle more than there are mark ends.
    pub cycles: List<Cycle>,
}

/// The numbers of the first two lines.
#[derive(Clone, Copy, Debug, PartialEq, Eq)]
pub struct Header {
    /// The version of the format, from 1 to 3. From version 2 on processors have page caches, and in version 3 tiny objects share blocks.
    pub version: u8,
    /// The chunks of the region, of 512 pages each, from 1 to 4096, and in version 1 to 128.
    pub chunks: u32,
    /// The processors, from 1 to 64.
    pub procs: u32,
    /// The sampling rate in bytes, up to 2^30. 1 samples every object, and 0 none.
    pub rate: u64,
    /// The seed of sampling.
    pub seed: u64,
    /// The pages above which the scavenger releases some, up to 2097152, and in version 1 up to 65536.
    pub goal: u32,
}

/// The events up to a mark end, or in the last cycle to the end.
#[derive(Debug, Drop)]
pub struct Cycle {
    pub events: List<Event>,
    /// The mark end behind the events. The last cycle alone has none.
    pub mark: Option<MarkEnd>,
}

/// An allocation. Its object's number is its place among all events, from 0.
#[derive(Clone, Copy, Debug, PartialEq, Eq)]
pub struct Event {
    /// The bytes asked for, from 0 to 2^40.
    pub size: u64,
    /// The number of the stack that allocates, up to 999999.
    pub stack: u32,
    /// The processor that allocates, below the header's.
    pub proc: u8,
    /// Whether the object has pointers.
    pub scan: bool,
}

/// The end of a marking.
#[derive(Debug, Drop)]
pub struct MarkEnd {
    /// The bytes until the next mark end, from 1 to 2^40, which pace the sweeping.
    pub distance: u64,
    /// The marked objects, in rising order.
    pub marks: List<Span>,
}
