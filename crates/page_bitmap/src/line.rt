//! Runs of pages, and the lines that a journal of pages has.

/// Neighbouring pages of a chunk or of a region.
#[derive(Clone, Copy, Debug, PartialEq, Eq)]
pub struct Run {
    /// The number of the first page.
    pub page: u32,
    /// How many pages there are.
    pub pages: u32,
}

/// One line of a page journal: what happened to pages in a cycle. Cycles count mark ends, from 0. The journal is
/// ours.
#[derive(Clone, Copy, Debug, PartialEq, Eq)]
pub enum Line {
    /// The pages from `page` on became a span of this span class.
    Take {
        cycle: u32,
        page: u32,
        pages: u32,
        class: u8,
    },
    /// No run of so many pages was free for a span of this span class.
    Miss {
        cycle: u32,
        pages: u32,
        class: u8,
    },
    /// The span of these pages was given back.
    Give {
        cycle: u32,
        page: u32,
        pages: u32,
    },
    /// These free pages were scavenged.
    Scav {
        cycle: u32,
        page: u32,
        pages: u32,
    },
    /// The free pages of a block of 64 pages went to the page cache of a processor: `page` is the block's first page, and so
    /// many of its pages were free.
    Pull {
        cycle: u32,
        proc: u32,
        page: u32,
        pages: u32,
    },
    /// The pages from `page` on left the page cache of this processor and became a span of this span class.
    Cut {
        cycle: u32,
        proc: u32,
        page: u32,
        pages: u32,
        class: u8,
    },
    /// What was left in the page cache of this processor went back: so many pages of the block that begins at `page`,
    /// maybe none.
    Drop {
        cycle: u32,
        proc: u32,
        page: u32,
        pages: u32,
    },
}
