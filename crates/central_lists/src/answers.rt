use span_state::Body;

/// What a call saw of a swept partial set that gave it no span.
#[derive(Clone, Copy, Debug, PartialEq, Eq)]
pub enum Look {
    /// Head and tail were this number.
    Empty { at: u32 },
    /// The cell at this head was claimed, and not filled yet.
    NotYet { at: u32 },
}

/// Where a span for a cache comes from.
#[derive(Debug, Drop)]
pub enum FromSets {
    /// From the swept partial set of the class.
    SweptPartial(Body),
    /// From an unswept set of the class: this call swept it.
    SweptHere(Body),
    /// From neither.
    NeedFresh {
        /// What was seen of the swept partial set.
        swept: Look,
        /// How many entries were popped from the unswept sets, at most 100.
        tried: u32,
    },
}

/// What one try of an unswept set came to.
#[derive(Debug, Drop)]
pub enum Tried {
    /// The set was empty.
    Empty,
    /// One entry was popped, and its span is not for the cache.
    Gone,
    /// The span of the popped entry has a free index.
    Kept(Body),
}

/// What the tries of unswept sets came to.
#[derive(Debug, Drop)]
pub enum Search {
    /// A span that has a free index.
    Found(Body),
    /// None, after so many tries in all: a hundred, or as many as there were entries.
    NotFound(u32),
}
