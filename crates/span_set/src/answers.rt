use span_state::Body;

/// What a pop of a swept set answers.
#[derive(Debug, Drop)]
pub enum Pop {
    /// The worker holds the span, and has its body.
    Taken(Body),
    /// Head and tail of the set were these, and equal.
    Empty { head: u32, tail: u32 },
    /// The cell at this head was claimed, and not filled yet.
    NotYet { head: u32 },
}

/// What a pop of an unswept set answers.
#[derive(Clone, Copy, Debug, PartialEq, Eq)]
pub enum PopBase {
    /// The first page of a span that waits for its sweep, or that somebody sweeps or has swept since.
    Popped(u32),
    /// Head and tail of the set were these, and equal.
    Empty { head: u32, tail: u32 },
}
