//! Page caches of workers: a block is pulled and settled under the heap lock, and spans are cut out of it without it.
ghost use Rattle.std.specs.Prelude.{◌≡◌, ◌<◌, ◌≤◌, true, false, Some, None, IfNone, IfSome, option_map};
ghost use Rattle.page_alloc.specs.FreeRuns.{IsSpanSize};
ghost use Rattle.page_cache.specs.Cache.{pages_left};
ghost use Rattle.span_laws.specs.CacheAnswers.{CutsSpan, IsEmptyCache, PullsBlock, SettlesBlock, block_of};

use crate::locks::{cut_off, find_no_cut, lock, pull_block, settle_block, unlock, unlock_barren};
use crate::shared::{Shared, Worker};
use crate::spans::new_body;
use fallible_list::NoMemory;
use span_laws::Pulled;
use span_state::Body;
use std::sync::Wait;

impl Worker {
    /// How many pages the block of the worker's page cache has left, 0 where it has no block: None where the worker has no page cache.
    pub fn cached_pages(&self) -> Option<u32>
        ensures pages { result ≡ option_map (λ k. pages_left k.block) self.now.view.own.cache }
        ensures none { IfNone result (self.now.caching ≡ false) }
        ensures some { IfSome result (λ n. self.now.caching ≡ true) }
    {
        let cache = self.cache.as_ref()?;
        Some(match cache.block() {
            Some(block) => block.count(),
            None => 0,
        })
    }
}

impl Shared {
    /// Pulls a block for a worker whose page cache has none: the free pages of the 64 aligned ones that have the least free page. NoPage
    /// where no page was free under the heap lock (`mpagecache.go`, `allocToCache`): its clause tells of a journal without a free page, which
    /// is the table's own as far as the worker was told of that one. Waits for the heap lock.
    pub fn pull<R: Wait>(&self, rt: &R, w: &mut Worker) -> Result<Pulled, NoMemory>
        requires table { w.old.table ≡ self.now }
        requires empty { IsEmptyCache w.old.view.own.cache }
        ensures { PullsBlock w.old w.new result }
    {
        let Some(cache) = &mut w.cache else {
            unreachable!()
        };
        let mut heap = lock(rt, self, &mut w.seat, w.number);
        let Ok(()) = heap.reserve_pull() else {
            unlock(self, &mut w.seat, heap);
            return Err(NoMemory);
        };
        let cycle = ((w.generation - 4) / 2) as u32;
        let line = heap.journal().len() as u64;
        let Some(block) = heap.pull(cycle, w.number) else {
            unlock_barren(self, &mut w.seat, heap);
            return Ok(Pulled::NoPage);
        };
        pull_block(self, &mut w.seat, w.number, &heap, line, block);
        unlock(self, &mut w.seat, heap);
        cache.fill(block);
        w.line = line;
        Ok(Pulled::Got(block.count()))
    }

    /// Cuts the first run of n pages, from 1 to 15, out of the worker's block for a span of this span class: the worker holds it at G.
    /// None exactly where the block has no such run, or the worker has no block, and then nothing changes but for the log. Takes no
    /// memory, and waits for nobody (`mpagecache.go`, `alloc`).
    pub fn cut(&self, w: &mut Worker, n: u32, class: u8) -> Option<Body>
        requires table { w.old.table ≡ self.now }
        requires few { n < 16 }
        requires size { IsSpanSize class n }
        requires class { class < 136 }
        ensures { CutsSpan n class w.old w.new result }
    {
        let Some(cache) = &mut w.cache else {
            find_no_cut(self, &mut w.seat, w.number, n, 0);
            return None;
        };
        let left = match cache.block() {
            Some(block) => block.count(),
            None => 0,
        };
        let Some(page) = cache.cut(n, class) else {
            find_no_cut(self, &mut w.seat, w.number, n, left);
            return None;
        };
        let Some(block) = cache.block() else {
            unreachable!()
        };
        let body = new_body(page, n, class, w.line);
        cut_off(self, &mut w.seat, &body, block, w.generation);
        Some(body)
    }

    /// Settles the worker's block, if it has one: its cuts are written to the journal, and the pages that are left are free again. Takes no
    /// memory, and waits for the heap lock (`mpagecache.go`, `flush`).
    pub fn settle<R: Wait>(&self, rt: &R, w: &mut Worker)
        requires table { w.old.table ≡ self.now }
        ensures settles { SettlesBlock w.old w.new (block_of w.old.view.own.cache) }
        ensures bare { w.old.caching ≡ false → w.new ≡ w.old }
    {
        let Some(cache) = &mut w.cache else {
            return;
        };
        if cache.block().is_none() {
            return;
        }
        let mut heap = lock(rt, self, &mut w.seat, w.number);
        let cycle = ((w.generation - 4) / 2) as u32;
        let line = heap.journal().len() as u64 + cache.cuts().len() as u64;
        heap.settle(cycle, cache);
        settle_block(self, &mut w.seat, w.number, &heap, line);
        unlock(self, &mut w.seat, heap);
    }
}
