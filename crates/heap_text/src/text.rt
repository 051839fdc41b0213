use edge_io::List;

/// What a heap profile tells of a bucket: the sampled objects of one stack and one slot size.
#[derive(Clone, Copy, Debug, PartialEq, Eq)]
pub struct HeapLine {
    /// The sampled objects in use.
    pub objects: u64,
    /// The bytes of their slots.
    pub bytes: u64,
    /// All sampled objects that were allocated, in use or not.
    pub all_objects: u64,
    /// The bytes of their slots.
    pub all_bytes: u64,
    /// The number of the stack that allocates them.
    pub stack: u32,
}

/// A heap profile as of a mark end.
#[derive(Debug, Drop)]
pub struct HeapText {
    /// Twice the rate of the samples, in bytes.
    pub twice: u64,
    /// The lines of the buckets with allocations, those with more bytes in use first.
    pub lines: List<HeapLine>,
}
