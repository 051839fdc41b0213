//! Blocks of pages, and notes of the spans that were cut of them.

ghost use Rattle.std.specs.Prelude.{◌≡◌};
ghost use Rattle.page_cache.specs.Blocks.{has_page, page_count};

/// The pages that are free of 64 neighbouring ones (`pageCache` of `mpagecache.go`, its `base` and `cache`).
#[derive(Clone, Copy, Debug, PartialEq, Eq)]
pub struct Block {
    /// The number of the first of the 64 pages.
    pub page: u32,
    /// Bit i is 1 where the block has the page `page + i`.
    pub free: u64,
}

/// A span of pages of a block.
#[derive(Clone, Copy, Debug, PartialEq, Eq)]
pub struct CutNote {
    /// The number of its first page.
    pub page: u32,
    /// How many pages it has, from 1 to 15.
    pub pages: u32,
    /// Its span class.
    pub class: u8,
}

impl Block {
    /// Whether the block has this page.
    pub fn has(&self, page: u32) -> bool
        ensures { result ≡ has_page self.now page }
    {
        page >= self.page && page - self.page < 64 && (self.free >> (page - self.page)) % 2 == 1
    }

    /// How many pages the block has.
    pub fn count(&self) -> u32
        ensures { result ≡ page_count self.now }
    {
        self.free.count_ones()
    }
}
