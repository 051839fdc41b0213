use page_bitmap::Run;
use span_state::Body;

/// What an acquire answers.
#[derive(Debug, Drop)]
pub enum Acquired {
    /// The worker sweeps the span, whose body it has now.
    Got(Body),
    /// The word of the page was this one, and not that of a span that waits.
    Other(u64),
}

/// What an uncache answers.
#[derive(Clone, Copy, Debug, PartialEq, Eq)]
pub enum Uncached {
    /// The span was cached in this cycle, and the worker holds it.
    Fresh,
    /// The span was cached before the last mark end, and the worker sweeps it.
    Stale,
}

/// Why no span was taken.
#[derive(Clone, Copy, Debug, PartialEq, Eq)]
pub enum Refused {
    /// No run of so many pages is free, as the Miss line of this number says.
    NoRun { line: u64 },
    /// Memory ran out.
    NoMemory,
}

/// What a pull answers.
#[derive(Clone, Copy, Debug, PartialEq, Eq)]
pub enum Pulled {
    /// The worker has a block of so many pages.
    Got(u32),
    /// No page was free.
    NoPage,
}

/// A scavenging step.
#[derive(Clone, Copy, Debug, PartialEq, Eq)]
pub struct Step {
    /// The pages that it released.
    pub run: Option<Run>,
    /// The backed pages after it.
    pub backed: u32,
}
