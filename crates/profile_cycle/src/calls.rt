//! The calls of a ring, which contracts alone know.

use std::collections::LinkedList;

/// What a call does.
#[derive(Clone, Copy, Debug)]
pub enum What {
    /// Counts an allocation of a bucket.
    Allocated(u32),
    /// Counts a free of a bucket.
    Freed(u32),
    /// Begins the next cycle.
    NextCycle,
    /// Ends a full sweep.
    AfterSweep,
}

/// A call, with the number of `next_cycle` calls before it.
#[derive(Clone, Copy, Debug)]
pub struct Call {
    pub cycle: u64,
    pub what: What,
}

/// What contracts see of a tally, beside its ring.
#[derive(Drop)]
pub struct View {
    /// The tally's calls, the newest first.
    pub calls: LinkedList<Call>,
    /// The number of `next_cycle` calls so far.
    pub cycle: u64,
    /// Whether the tally is the driver's, which alone splits, joins and publishes.
    pub drives: bool,
    /// How many tallies are split off and not joined yet.
    pub out: u64,
}
