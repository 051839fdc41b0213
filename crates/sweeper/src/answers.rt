use span_state::SweepNote;

/// What a sweep of the next span that waits answers.
#[derive(Clone, Copy, Debug, PartialEq, Eq)]
pub enum SweptOne {
    /// The note of the one span that was swept.
    Swept(SweepNote),
    /// Each unswept set was seen empty.
    NothingLeft,
}

/// What a payment answers.
#[derive(Clone, Copy, Debug, PartialEq, Eq)]
pub enum Paid {
    /// So many pages were swept in this cycle, which is at least the target.
    Reached { seen: u64, target: u64 },
    /// Each unswept set was seen empty.
    NothingLeft,
}
