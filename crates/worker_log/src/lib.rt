//! The log of a worker: what its own steps did since the last mark end.
//!
//! Contracts alone know it: no code makes an entry or a log, and at run time a log takes no memory. `specs/Logs.antt` has
//! the filters through which the laws of a run see a log, and `specs/Entries.antt` the counts of entries by which contracts of
//! calls speak of what a call did.
#![tactic(auto)]

use page_bitmap::Line;

/// An object was placed.
pub struct Placing {
    /// The first page of the span.
    pub page: u64,
    /// The index of the object in the span, from 0.
    pub index: u64,
    /// The number of the span's life: that of the journal line that took it.
    pub number: u64,
    /// The span class.
    pub class: u64,
}

/// A span was swept.
pub struct Sweeping {
    /// The first page of the span.
    pub page: u64,
    /// The pages of the span.
    pub pages: u64,
    /// How many of its objects the last mark end marked.
    pub kept: u64,
    /// How many of its objects were freed.
    pub freed: u64,
}

/// What one of a worker's own steps did. Words are those of the shared table: 1 is the generation, 2 to 4 are counters.
pub enum Entry {
    /// Head and tail of a set were read: the set, its head, its tail.
    Looked(u64, u64, u64),
    /// A claimed cell that is not filled was read: the set, the index of the cell.
    LookedEmptyCell(u64, u64),
    /// A page was popped: the set, the page.
    Popped(u64, u64),
    /// A page was pushed: the set, the page.
    Pushed(u64, u64),
    /// A span was swept.
    Swept(Sweeping),
    /// A run of pages was taken: the number of the journal line that tells it, and the line.
    Took(u64, Line),
    /// No run of pages was free: the number of the journal line that tells it, and the line.
    Missed(u64, Line),
    /// A span was given back: its first page, its pages.
    Gave(u64, u64),
    /// An object was placed.
    Allocated(Placing),
    /// An acquire found another word than that of a span that waits to be swept: the page, the word.
    Found(u64, u64),
    /// A word was read: the word, its value.
    Read(u64, u64),
    /// A word was raised: the word, by how much.
    Added(u64, u64),
    /// The free pages of a block were pulled: the number of the journal line that tells it, and the line.
    Pulled(u64, Line),
    /// No page was free that could be pulled.
    NoPage,
    /// A span was cut out of the worker's block: its first page, its pages, its span class.
    Cut(u64, u64, u64),
    /// The worker's block had no run of so many pages: the pages, and how many the block has left, 0 where there is none.
    NoCut(u64, u64),
    /// The worker's block was settled: the number of the journal line that tells how many pages it gave back.
    Settled(u64),
}
