use page_cache::Block;

/// What a step says that changes no body.
#[derive(Drop)]
pub enum Said {
    /// It found another word than that of an unswept span: page, word.
    Finds(u32, u64),
    /// It caches a page.
    Caches(u32),
    /// A swept page leaves the cache.
    Uncaches(u32),
    /// A stale page leaves the cache, to be swept.
    UncachesStale(u32),
    /// It found no run, as the line of this number says: line, cycle, pages, span class.
    Misses(u64, u32, u32, u8),
    /// It gives a span back: page, its pages.
    Gives(u32, u32),
    /// It reads head and tail of a set: set, head, tail.
    Looks(u32, u32, u32),
    /// It reads a cell: set, index, what the cell holds.
    LooksCell(u32, u32, u64),
    /// It claims an index for a page: set, index, page.
    Claims(u32, u32, u32),
    /// It fills the cell of its claim: set, page.
    Fills(u32, u32),
    /// It pops an entry from an unswept set: set, page.
    PopsEntry(u32, u32),
    /// It reads one of the words 1 to 4: word, value.
    Reads(u64, u64),
    /// It adds to one of the words 2 to 4: word, the value before, the number.
    Adds(u64, u64, u64),
    /// It resets an unswept set.
    Resets(u32),
    /// It pulls a block, as the line of this number says: line, cycle, processor, the block.
    Pulls(u64, u32, u32, Block),
    /// It found no page to pull.
    FindsNoPage,
    /// It found no run of so many pages in its block, and how many pages that has left, 0 where it has none: pages, pages left.
    FindsNoCut(u32, u32),
    /// It settles its block, as the lines up to that of this number say: line.
    Settles(u64),
}

/// What a step says that leaves a body with the worker.
#[derive(Drop)]
pub enum SaidOf {
    /// It begins to sweep the span.
    Acquires,
    /// It ends the sweep of the span.
    Releases,
    /// It takes the span's run, by the line of this cycle.
    Takes(u32),
    /// It pops the span from a swept set: set.
    Pops(u32),
    /// It places an object at an index: index.
    Places(u32),
    /// It cuts the span out of its block, and this is left: block.
    Cuts(Block),
}
