//! The cache of one processor.

ghost use Rattle.std.specs.Prelude.{
  ◌≡◌,
  ℕ,
  ◌+◌,
  ◌%◌,
  ◌<◌,
  ◌≤◌,
  [],
  length,
  IfNone,
  IfSome,
};
ghost use Rattle.page_cache.specs.Cache.{IsCut, in_block, only, pages_left};
ghost use Rattle.page_cache.specs.Runs.{HasNoRun, IsFirstRun};

use crate::block::{Block, CutNote};
use crate::word::{first_run, without_run};
use std::marker::Model;

/// The pages of a block: each cut takes at least one, so there are no more cuts.
const BLOCK_PAGES: usize = 64;

/// The page cache of a processor: its block, if it has one, and the spans that were cut of the block. Contracts see its processor, its
/// block and the list of its cuts; the block has no more pages than it has room left for cuts. No call takes memory
/// (`pageCache` of `mpagecache.go`; that cuts are noted is ours).
#[derive(Drop)]
pub struct PageCache {
    proc: u32,
    block: Option<Block>,
    notes: [CutNote; BLOCK_PAGES],
    used: usize,
}

impl Model for PageCache {
    ghost use Rattle.page_cache.specs.Cache.{Cache};

    ghost Value = { Cache };

    ghost use Rattle.page_cache.specs.Kept.{IsKept, cache_of};

    ghost view = { cache_of };

    ghost invariant = { IsKept };
}

impl PageCache {
    /// The cache of a processor, with no block and no cuts.
    pub fn new(proc: u32) -> PageCache
        ensures { result ≡ only proc None }
    {
        let unused = CutNote {
            page: 0,
            pages: 0,
            class: 0,
        };
        PageCache {
            proc,
            block: None,
            notes: [unused; BLOCK_PAGES],
            used: 0,
        }
    }

    /// The number of the processor.
    pub fn proc(&self) -> u32
        ensures { result ≡ self.now.proc }
    {
        self.proc
    }

    /// The block, less its cuts: None where the cache has none.
    pub fn block(&self) -> Option<Block>
        ensures block { result ≡ self.now.block }
        ensures aligned { IfSome result (λ block. block.page % 64 ≡ 0) }
    {
        self.block
    }

    /// The cuts that were made of the block, in order: together with the pages that the block still has they are at most 64.
    pub fn cuts(&self) -> &[CutNote]
        ensures cuts { result.now ≡ self.now.cuts }
        ensures few { length result.now + pages_left self.now.block ≤ 64 }
    {
        &self.notes[..self.used]
    }

    /// Puts a block into a cache that has no block and no cuts; the block's first page is a multiple of 64.
    pub fn fill(&mut self, block: Block)
        requires no_block { self.old.block ≡ None }
        requires no_cuts { self.old.cuts ≡ [] }
        requires aligned { block.page % 64 ≡ 0 }
        ensures { self.new ≡ only self.old.proc (Some block) }
    {
        self.block = Some(block);
    }

    /// Leaves no block and no cuts.
    pub fn clear(&mut self)
        ensures { self.new ≡ only self.old.proc None }
    {
        self.block = None;
        self.used = 0;
    }

    /// Cuts the first `n` pages in a row, 1 to 15, that are in the block, notes the cut with this span class, and gives its first page:
    /// None exactly where there are no such pages or there is no block, and then nothing changes (`pageCache.alloc` of
    /// `mpagecache.go`).
    pub fn cut(&mut self, n: u32, class: u8) -> Option<u32>
        // the length of the run
        requires some { 1 ≤ n }
        requires few { n < 16 }

        // the run that is cut
        ensures first { IfSome result (λ page. IsFirstRun (in_block self.old.block) n page) }
        ensures taken { IfSome result (λ page. IsCut self.old self.new (record { page = page; pages = n; class = class })) }

        // and where there is none
        ensures none { IfNone result (HasNoRun (in_block self.old.block) n) }
        ensures unchanged { IfNone result (self.new ≡ self.old) }
    {
        let block = self.block?;
        let place = first_run(block.free, n)?;
        let page = block.page + place;
        self.block = Some(Block {
            page: block.page,
            free: without_run(block.free, place, n),
        });
        self.notes[self.used] = CutNote {
            page,
            pages: n,
            class,
        };
        self.used += 1;
        Some(page)
    }
}
