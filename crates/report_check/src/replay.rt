//! A journal that is replayed, line by line, over the pages that it speaks of, with a page cache for each processor that may have one.
//!
//! `Replay::accept` answers whether a line may stand behind the lines so far: exactly where the journal stays one that `page_alloc` calls
//! legal. A line without page caches may stand where the pages' own call makes that same line (`plain`); a Pull, a Cut and a
//! Drop where `pull`, `cut` and `settle` make it.

ghost use Rattle.std.specs.Prelude.{◌≡◌, ◌≢◌, ◌≤◌, [], IfOk, MatchBool};
ghost use Rattle.page_bitmap.specs.declared.line.Line.TheVariants.{Cut, Drop, Pull};
ghost use Rattle.page_alloc.specs.Blocks.{open_blocks};
ghost use Rattle.page_alloc.specs.Journal.{GoesOn};
ghost use Rattle.report_check.specs.ReplayedLines.{IsPlainLine, KeepsOrder};
ghost use Rattle.report_check.specs.Replays.{Accepts, Begins, IsReplay, MayFollowIn, MayStandIn, past_in};

mod lines;
mod plain;

use crate::replay::lines::{is_cut_or_drop, is_span_size};
use crate::replay::plain::follows;
use fallible_list::NoMemory;
pub use lines::cycle_of;
use page_alloc::Pages;
use page_bitmap::Line;
use page_cache::PageCache;
use size_classes::MAX_CHUNKS;
use std::alloc::Global;

/// A cut has fewer pages.
const CUT_PAGES: u32 = 16;

/// A journal so far. Its newest lines are Cuts of one processor that the pages do not know yet, if there are any: a block is settled as
/// its Drop comes.
#[derive(Drop)]
pub struct Replay {
    pages: Pages,
    // By the number of the processor.
    caches: Vec<PageCache>,
    // The processor of the newest line, where that is a Cut.
    cutting: Option<u32>,
    // The cycle of the newest line.
    cycle: u32,
    // So many blocks are out.
    out: usize,
}

impl Replay {
    /// An empty journal of a region of so many chunks and this goal, where so many processors have page caches.
    pub fn new(alloc: Global, chunks: u32, procs: u32, goal: u32) -> Result<Replay, NoMemory>
        requires some { 1 ≤ chunks }
        requires few { chunks ≤ MAX_CHUNKS }
        ensures { IfOk result (Begins procs chunks goal) }
    {
        let pages = Pages::new(alloc, chunks, goal)?;
        let mut caches = Vec::new(alloc);
        for proc in 0..procs {
            caches.push(PageCache::new(proc))?;
        }
        Ok(Replay {
            pages,
            caches,
            cutting: None,
            cycle: 0,
            out: 0,
        })
    }

    /// Whether a line may stand behind the lines so far; then it is there. Behind one that may not, and where memory ran out, the
    /// replay is of no more use.
    pub fn accept(&mut self, line: Line) -> Result<bool, NoMemory>
        requires { IsReplay self.old }
        ensures { IfOk result (λ yes. MatchBool yes (Accepts self.old self.new line) (¬ MayStandIn self.old line)) }
    {
        if !self.keeps_order(line) {
            return Ok(false);
        }
        match line {
            Line::Take { .. } => self.goes_on(line),
            Line::Miss { .. } => self.goes_on(line),
            Line::Give { .. } => self.goes_on(line),
            Line::Scav { .. } => self.goes_on(line),
            Line::Pull {
                cycle,
                proc,
                page,
                pages,
            } => self.pulls(cycle, proc, page, pages),
            Line::Cut {
                cycle,
                proc,
                page,
                pages,
                class,
            } => Ok(self.cuts(cycle, proc, page, pages, class)),
            Line::Drop {
                cycle,
                proc,
                page,
                pages,
            } => Ok(self.drops(cycle, proc, page, pages)),
        }
    }

    /// The pages, as the lines so far left them, but for the newest Cuts.
    pub fn pages(&self) -> &Pages
        ensures { result.now ≡ self.now.pages }
    {
        &self.pages
    }

    /// Whether no block is out.
    pub fn is_settled(&self) -> bool
        requires { IsReplay self.now }
        ensures { MatchBool result (open_blocks (past_in self.now) ≡ []) (open_blocks (past_in self.now) ≢ []) }
    {
        self.out == 0
    }

    // Whether a line is of a cycle that may come next, and goes on with the cuts of a processor.
    fn keeps_order(&self, line: Line) -> bool
        requires { IsReplay self.now }
        ensures { MatchBool result (KeepsOrder (past_in self.now) line) (¬ KeepsOrder (past_in self.now) line) }
    {
        let cycle = cycle_of(line);
        if cycle < self.cycle {
            return false;
        }
        if self.out == 0 {
            return self.comes_behind(line);
        }
        if cycle > self.cycle {
            return false;
        }
        self.comes_behind(line)
    }

    // Whether the newest line lets this one come next.
    fn comes_behind(&self, line: Line) -> bool
        requires { IsReplay self.now }
        ensures { MatchBool result (GoesOn (past_in self.now) line) (¬ GoesOn (past_in self.now) line) }
    {
        match self.cutting {
            Some(proc) => is_cut_or_drop(line, proc),
            None => true,
        }
    }

    fn goes_on(&mut self, line: Line) -> Result<bool, NoMemory>
        requires sound { IsReplay self.old }
        requires order { KeepsOrder (past_in self.old) line }
        requires plain { IsPlainLine line }
        ensures { IfOk result (λ yes. MatchBool yes (Accepts self.old self.new line) (¬ MayFollowIn self.old line)) }
    {
        if !follows(&mut self.pages, line)? {
            return Ok(false);
        }
        self.cycle = cycle_of(line);
        Ok(true)
    }

    fn pulls(&mut self, cycle: u32, proc: u32, page: u32, n: u32) -> Result<bool, NoMemory>
        requires sound { IsReplay self.old }
        requires order { KeepsOrder (past_in self.old) (Pull cycle proc page n) }
        ensures { IfOk result (λ yes. MatchBool yes (Accepts self.old self.new (Pull cycle proc page n)) (¬ MayFollowIn self.old (Pull cycle proc page n))) }
    {
        let index = proc as usize;
        if index >= self.caches.len() || self.caches[index].block().is_some() {
            return Ok(false);
        }
        self.pages.reserve_pull()?;
        let Some(block) = self.pages.pull(cycle, proc) else {
            return Ok(false);
        };
        if block.page != page || block.count() != n {
            return Ok(false);
        }
        self.caches[index].fill(block);
        self.cycle = cycle;
        self.out += 1;
        Ok(true)
    }

    fn cuts(&mut self, cycle: u32, proc: u32, page: u32, n: u32, class: u8) -> bool
        requires sound { IsReplay self.old }
        requires order { KeepsOrder (past_in self.old) (Cut cycle proc page n class) }
        ensures { MatchBool result (Accepts self.old self.new (Cut cycle proc page n class)) (¬ MayFollowIn self.old (Cut cycle proc page n class)) }
    {
        let index = proc as usize;
        if index >= self.caches.len() || n >= CUT_PAGES || !is_span_size(n, class) {
            return false;
        }
        match self.caches[index].cut(n, class) {
            Some(first) if first == page => {}
            _ => return false,
        }
        self.cutting = Some(proc);
        self.cycle = cycle;
        true
    }

    fn drops(&mut self, cycle: u32, proc: u32, page: u32, n: u32) -> bool
        requires sound { IsReplay self.old }
        requires order { KeepsOrder (past_in self.old) (Drop cycle proc page n) }
        ensures { MatchBool result (Accepts self.old self.new (Drop cycle proc page n)) (¬ MayFollowIn self.old (Drop cycle proc page n)) }
    {
        let index = proc as usize;
        if index >= self.caches.len() {
            return false;
        }
        let Some(block) = self.caches[index].block() else {
            return false;
        };
        if block.page != page || block.count() != n {
            return false;
        }
        self.pages.settle(cycle, &mut self.caches[index]);
        self.cutting = None;
        self.cycle = cycle;
        self.out -= 1;
        true
    }
}
