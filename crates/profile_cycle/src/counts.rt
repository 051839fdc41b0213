/// What was counted of a bucket.
#[derive(Clone, Copy, Debug, PartialEq, Eq)]
pub struct Count {
    /// The sampled objects that were allocated.
    pub allocs: u64,
    /// Those of them that a sweep freed.
    pub frees: u64,
}
