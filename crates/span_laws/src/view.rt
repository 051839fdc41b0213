use page_bitmap::Line;
use page_cache::PageCache;
use std::collections::LinkedList;
use sweep_laws::Claimed;
use worker_log::Entry;

/// A span as its body has it, known to contracts alone.
pub struct Span {
    /// The first page.
    pub page: u64,
    /// How many pages.
    pub pages: u64,
    /// The bytes of an object.
    pub slot: u64,
    /// How many objects.
    pub count: u64,
    /// The span class.
    pub class: u64,
    /// The number of the journal line that took the span, or that pulled the block of which it was cut.
    pub life: u64,
    /// The free index.
    pub next: u64,
    /// One bit an object, 64 a word.
    pub bits: LinkedList<u64>,
}

/// A cell of a set that was read as filled, known to contracts alone.
pub struct Cell {
    pub set: u64,
    pub index: u64,
    /// The page that it names.
    pub page: u64,
}

/// What a worker has, known to contracts alone. Lists of pages are by first pages.
pub struct Part {
    /// The spans that it sweeps.
    pub sweeping: LinkedList<u64>,
    /// The swept spans that it holds.
    pub held: LinkedList<u64>,
    /// The spans that it has cached.
    pub cached: LinkedList<u64>,
    /// The entries that it popped from unswept sets.
    pub popped: LinkedList<u64>,
    /// The index of a set that it claimed and has not filled.
    pub claimed: Option<Claimed>,
    /// What it swept since the last mark end.
    pub swept: LinkedList<u64>,
    /// What its steps did since the last mark end, the newest first.
    pub log: LinkedList<Entry>,
    /// The cached spans that it cached since the last mark end.
    pub fresh: LinkedList<u64>,
    /// The bodies that were lent to it, the newest first.
    pub spans: LinkedList<Span>,
    /// The cells that it read as filled since the last mark end.
    pub read: LinkedList<Cell>,
    /// The unswept sets that it has reset for the next mark end.
    pub reset: LinkedList<u64>,
    /// What is left of the block that it pulled, in rising order.
    pub pulled: LinkedList<u64>,
    /// Its page cache, while it is out with one.
    pub cache: Option<PageCache>,
}

/// What a seat knows: its own part, the parts that wait, by number, and what all seats agree on.
pub struct View {
    /// The pages of the region.
    pub region: u64,
    /// The goal for backed pages.
    pub goal: u64,
    /// How many processors may have page caches.
    pub procs: u64,
    /// The heap generation: it starts at 4 and rises by 2 at each mark end.
    pub generation: u64,
    /// The pairs of first page and index that the last mark end marked.
    pub marks: LinkedList<(u64, u64)>,
    /// The journal as it was at the last mark end, the newest line first.
    pub before: LinkedList<Line>,
    /// The pairs of first page and index that were allocated at the last mark end.
    pub carried: LinkedList<(u64, u64)>,
    pub own: Part,
    pub parts: LinkedList<Part>,
}
