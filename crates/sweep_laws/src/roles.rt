/// What a page's generation word says of the span that begins there (`mheap.go`, `mspan.sweepgen`).
#[derive(Clone, Copy, Debug, PartialEq, Eq)]
pub enum Role {
    /// No span begins here.
    Nothing,
    /// The span needs sweeping.
    Unswept,
    /// The span is being swept.
    Sweeping,
    /// The span is swept.
    Swept,
    /// The span was cached before the last mark end and is cached still; it needs sweeping.
    StaleCached,
    /// The span was swept and then cached, and is cached still.
    Cached,
    /// No span has this word.
    Foreign,
}
