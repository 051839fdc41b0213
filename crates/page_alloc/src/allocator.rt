//! The pages of one region, and the journal of what happened to them.

ghost use Rattle.std.specs.Prelude.{
  ◌≡◌,
  ℕ,
  ◌+◌,
  ◌*◌,
  ◌<◌,
  ◌≤◌,
  ◌^◌,
  ◌⊎◌,
  [],
  ◌∷◌,
  Option,
  length,
  vec_capacity,
  vec_len,
  IfErr,
  IfNone,
  IfOk,
  IfSome,
  OnErr,
  OnOk,
};
ghost use Rattle.std.specs.List.{AllByRecursion};
ghost use Rattle.page_cache.specs.Cache.{only};
ghost use Rattle.page_alloc.specs.Heap.{AddsLine, HasMoreRoom, owed};
ghost use Rattle.page_alloc.specs.Lists.{In};
ghost use Rattle.page_alloc.specs.Owners.{backed, owner, taken};
ghost use Rattle.page_alloc.specs.Lives.{Life, open_lives};
ghost use Rattle.page_alloc.specs.Blocks.{AreOfCycle, HasNoBlock};
ghost use Rattle.page_alloc.specs.Cuts.{IsCutFrom, Pulls, Settles, behind_cuts, with_firsts, with_lengths};
ghost use Rattle.page_alloc.specs.FreeRuns.{HasNoRun, IsFirstFit, IsLongestFree, IsLoose, IsSpanSize};
ghost use Rattle.page_alloc.specs.Journal.{AreAllowed, IsBy, LegalFor, past_of};
ghost use Rattle.page_alloc.specs.Region.{pages_in};

use crate::levels::Levels;
use crate::runs::{
    BLOCK_PAGES, chunk_behind, free_block, free_run, free_word, scavenge_run, take_block, take_run,
    top_run,
};
use crate::starts::{last_start, mark_start};
use fallible_list::NoMemory;
use page_bitmap::{Bitmap, Chunk, Line, Run};
use page_cache::{Block, CutNote, PageCache};
use size_classes::{CHUNK_PAGES, MAX_CHUNKS, MAX_PAGES};
use std::alloc::Global;
use std::marker::Model;

/// The lines that a block may need once it is out: 64 cuts, a drop, and a give for each cut.
const BLOCK_LINES: usize = 129;

/// No run of the wanted pages was free. The Miss line of the journal that says so has this number.
#[derive(Clone, Copy, Debug, PartialEq, Eq)]
pub struct NoRun {
    pub line: u64,
}

/// The pages of one region: which span has each of them, which are backed by memory, and the journal.
#[derive(Drop)]
pub struct Pages {
    chunks: Vec<Chunk>,
    levels: Levels,
    // No page below this one is free.
    search: u32,
    // No chunk from this one on has a page that is free and backed.
    top: usize,
    starts: Vec<Bitmap>,
    lengths: Vec<u32>,
    journal: Vec<Line>,
    goal: u32,
    live: usize,
    // So many blocks are out in page caches.
    out: usize,
    taken: u32,
    backed: u32,
}

impl Model for Pages {
    ghost use Rattle.page_alloc.specs.Heap.{PageHeap};

    ghost Value = { PageHeap };

    ghost use Rattle.page_alloc.specs.Kept.{IsSound, heap_of};

    ghost view = { heap_of };

    ghost invariant = { IsSound };
}

impl Pages {
    /// The pages of a region of so many chunks of 512 pages, from 1 to 4096: all free and scavenged, with an
    /// empty journal and this goal for backed pages.
    pub fn new(alloc: Global, chunks: u32, goal: u32) -> Result<Pages, NoMemory>
        requires some { 1 ≤ chunks }
        requires few { chunks ≤ MAX_CHUNKS }
        ensures region { IfOk result (λ pages. pages.region ≡ 512 * chunks) }
        ensures goal { IfOk result (λ pages. pages.goal ≡ goal) }
        ensures empty { IfOk result (λ pages. pages.past ≡ []) }
    {
        let count = chunks as usize;
        let chunks = vec![in alloc; Chunk::new(); count]?;
        let levels = Levels::new(alloc, chunks.as_slice())?;
        Ok(Pages {
            chunks,
            levels,
            search: 0,
            top: 0,
            starts: vec![in alloc; Bitmap::empty(); count]?,
            lengths: vec![in alloc; 0; CHUNK_PAGES as usize * count]?,
            journal: Vec::new(alloc),
            goal,
            live: 0,
            out: 0,
            taken: 0,
            backed: 0,
        })
    }

    /// Makes room for lines: two more than there are live spans.
    pub fn reserve_line(&mut self) -> Result<(), NoMemory>
        ensures ok { OnOk result (owed self.new.past + 2 ≤ self.new.spare) }
        ensures same { HasMoreRoom self.old self.new }
        ensures err { OnErr result (self.new ≡ self.old) }
    {
        self.journal
            .reserve(self.live + BLOCK_LINES * self.out + 2)?;
        Ok(())
    }

    /// First fit: the least page from which `n` pages are free, for n from 1 on. None exactly where no run of
    /// n pages is free. The search goes down five levels of sums, as Go's does (`mpagealloc.go`, `find`), and raises
    /// the counter of steps by one for each entry and for each word of a chunk that it looks at: by 1 to 41.
    pub fn find(&self, n: u32, steps: &mut u64) -> Option<u32>
        requires some { 1 ≤ n }
        requires room { steps.old ≤ 2 ^ 63 }
        ensures found { IfSome result (λ page. IsFirstFit self.now.region self.now.past page n) }
        ensures none { IfNone result (HasNoRun self.now.region self.now.past n) }
        ensures steps { (steps.old < steps.new) × (steps.new ≤ steps.old + 41) }
    {
        self.levels
            .find(self.chunks.as_slice(), self.search, n, steps)
    }

    /// A span of `n` pages and this span class takes the pages at first fit, and a Take line says so; the
    /// answer is its first page. Where no run of n pages is free, a Miss line says that. Takes no memory
    /// (`mheap.go`, `allocSpan`).
    pub fn take(&mut self, cycle: u32, n: u32, class: u8) -> Result<u32, NoRun>
        // the journal
        requires cycle { IsBy cycle self.old.past }
        requires blocks { AreOfCycle cycle self.old.past }
        requires spare { owed self.old.past + 2 ≤ self.old.spare }

        // the span
        requires some { 1 ≤ n }
        requires size { (page : ℕ) → IsFirstFit self.old.region self.old.past page n → IsSpanSize class n }

        // the answer, and its line
        ensures taken { IfOk result (λ page. AddsLine self.old self.new (Line.Take cycle page n class)) }
        ensures missed { IfErr result (λ _. AddsLine self.old self.new (Line.Miss cycle n class)) }
        ensures line { IfErr result (λ none. none.line ≡ length self.old.past) }
    {
        let Some(page) = self
            .levels
            .find(self.chunks.as_slice(), self.search, n, &mut 0)
        else {
            let line = self.journal.len() as u64;
            append(
                &mut self.journal,
                Line::Miss {
                    cycle,
                    pages: n,
                    class,
                },
            );
            return Err(NoRun { line });
        };
        let run = Run { page, pages: n };
        self.backed += take_run(self.chunks.as_mut_slice(), run);
        self.levels.update(
            self.chunks.as_slice(),
            (page / CHUNK_PAGES) as usize,
            ((page + n - 1) / CHUNK_PAGES) as usize,
        );
        self.search = raised(self.search, page, n);
        self.taken += n;
        self.live += 1;
        self.lengths[page as usize] = n;
        mark_start(self.starts.as_mut_slice(), page, true);
        append(
            &mut self.journal,
            Line::Take {
                cycle,
                page,
                pages: n,
                class,
            },
        );
        Ok(page)
    }

    /// The span that begins at a page gives its pages back, and a Give line says so. They stay backed. Takes
    /// no memory (`mheap.go`, `freeSpanLocked`).
    pub fn give(&mut self, cycle: u32, page: u32)
        requires cycle { IsBy cycle self.old.past }
        requires blocks { AreOfCycle cycle self.old.past }
        requires begins { owner self.old.past page ≡ Some page }
        ensures given { (life : Life) × In life (open_lives self.old.past) × (life.page ≡ page) × AddsLine self.old self.new (Line.Give cycle page life.pages) }
    {
        let pages = self.lengths[page as usize];
        free_run(self.chunks.as_mut_slice(), Run { page, pages });
        self.levels.update(
            self.chunks.as_slice(),
            (page / CHUNK_PAGES) as usize,
            ((page + pages - 1) / CHUNK_PAGES) as usize,
        );
        self.search = self.search.min(page);
        self.top = self.top.max(chunk_behind(Run { page, pages }));
        self.taken -= pages;
        self.live -= 1;
        mark_start(self.starts.as_mut_slice(), page, false);
        append(&mut self.journal, Line::Give { cycle, page, pages });
    }

    /// One scavenging step: the highest free and backed page, with those directly below it in its chunk, at
    /// most 64 in all, is no longer backed, and a Scav line says so. None exactly where the backed pages are
    /// at most the goal, or no free page is backed (ours; Go's is `mgcscavenge.go`, `scavengeOne`). It looks at no chunk
    /// above the highest one that a give or a step touched since, as Go's index does (`scavengeIndex`).
    pub fn scavenge(&mut self, cycle: u32) -> Option<Run>
        requires cycle { IsBy cycle self.old.past }
        requires blocks { AreOfCycle cycle self.old.past }
        requires spare { owed self.old.past < self.old.spare }
        ensures released { IfSome result (λ run. AddsLine self.old self.new (Line.Scav cycle run.page run.pages)) }
        ensures done { IfNone result ((backed self.old.region self.old.past ≤ self.old.goal) ⊎ ((p : ℕ) → p < self.old.region → ¬ IsLoose self.old.past p)) }
        ensures same { IfNone result (HasMoreRoom self.old self.new) }
    {
        if self.backed <= self.goal {
            return None;
        }
        let Some(run) = top_run(self.chunks.as_slice(), self.top) else {
            self.top = 0;
            return None;
        };
        scavenge_run(self.chunks.as_mut_slice(), run);
        self.top = chunk_behind(run);
        self.backed -= run.pages;
        append(
            &mut self.journal,
            Line::Scav {
                cycle,
                page: run.page,
                pages: run.pages,
            },
        );
        Some(run)
    }

    /// Makes room for the lines of a block: a Pull, and 129 for what the block may need once it is out, beside those that are owed.
    pub fn reserve_pull(&mut self) -> Result<(), NoMemory>
        ensures ok { OnOk result (owed self.new.past + 130 ≤ self.new.spare) }
        ensures same { HasMoreRoom self.old self.new }
        ensures err { OnErr result (self.new ≡ self.old) }
    {
        self.journal
            .reserve(self.live + BLOCK_LINES * self.out + 130)?;
        Ok(())
    }

    /// The free pages of the block of 64 pages that has the least free page go to the page cache of a processor, and a Pull line
    /// says so. None exactly where no page is free. Takes no memory (`mpagecache.go`, `allocToCache`).
    pub fn pull(&mut self, cycle: u32, proc: u32) -> Option<Block>
        // the journal
        requires cycle { IsBy cycle self.old.past }
        requires blocks { AreOfCycle cycle self.old.past }
        requires spare { owed self.old.past + 130 ≤ self.old.spare }

        // the processor
        requires none_out { HasNoBlock self.old.past proc }

        // what was done
        ensures pulled { IfSome result (λ block. Pulls self.old self.new cycle proc block) }

        // where no page is free
        ensures none { IfNone result (HasNoRun self.old.region self.old.past 1) }
        ensures same { IfNone result (self.new ≡ self.old) }
    {
        let first = self
            .levels
            .find(self.chunks.as_slice(), self.search, 1, &mut 0)?;
        let page = first / BLOCK_PAGES * BLOCK_PAGES;
        let free = free_word(self.chunks.as_slice(), page);
        let block = Block { page, free };
        self.backed += take_block(self.chunks.as_mut_slice(), page);
        let index = (page / CHUNK_PAGES) as usize;
        self.levels.update(self.chunks.as_slice(), index, index);
        self.search = page + BLOCK_PAGES;
        let pages = block.count();
        self.taken += pages;
        self.out += 1;
        append(
            &mut self.journal,
            Line::Pull {
                cycle,
                proc,
                page,
                pages,
            },
        );
        Some(block)
    }

    /// What a processor cut of its block becomes spans, with a Cut line for each in order, and what is left of the block is free
    /// again, as a Drop line says. The cache is empty then. Takes no memory (`mpagecache.go`, `flush`; that spans are told when the
    /// block is settled is ours).
    pub fn settle(&mut self, cycle: u32, cache: &mut PageCache)
        requires cycle { IsBy cycle self.old.past }
        requires blocks { AreOfCycle cycle self.old.past }
        requires cut { IsCutFrom self.old.past cache.old }
        ensures settled { Settles self.old self.new cycle cache.old }
        ensures cleared { cache.new ≡ only cache.old.proc None }
    {
        let Some(block) = cache.block() else {
            unreachable!()
        };
        let proc = cache.proc();
        let cuts = cache.cuts();
        note_cuts(
            &mut self.journal,
            self.starts.as_mut_slice(),
            self.lengths.as_mut_slice(),
            cycle,
            proc,
            cuts,
        );
        self.live += cuts.len();
        free_block(self.chunks.as_mut_slice(), block.page, block.free);
        let index = (block.page / CHUNK_PAGES) as usize;
        self.levels.update(self.chunks.as_slice(), index, index);
        self.search = self.search.min(block.page);
        self.top = self.top.max(index + 1);
        let pages = block.count();
        self.taken -= pages;
        self.out -= 1;
        append(
            &mut self.journal,
            Line::Drop {
                cycle,
                proc,
                page: block.page,
                pages,
            },
        );
        cache.clear();
    }

    /// The first page of the span that has a page of the region: None exactly where no span has it.
    pub fn owner(&self, page: u32) -> Option<u32>
        requires { page < self.now.region }
        ensures { result ≡ owner self.now.past page }
    {
        let first = last_start(self.starts.as_slice(), page)?;
        if page - first < self.lengths[first as usize] {
            Some(first)
        } else {
            None
        }
    }

    /// The number of pages of the longest run of free pages.
    pub fn longest_free(&self) -> u32
        ensures { IsLongestFree self.now.region self.now.past result }
    {
        self.levels.longest()
    }

    /// The number of pages that are backed by memory: those of spans, and the free ones that aren't scavenged.
    pub fn backed(&self) -> u32
        ensures { result ≡ backed self.now.region self.now.past }
    {
        self.backed
    }

    /// The number of pages of the region: 512 a chunk.
    pub fn region(&self) -> u32
        ensures region { result ≡ self.now.region }
        ensures some { 512 ≤ result }
        ensures most { result ≤ MAX_PAGES }
    {
        CHUNK_PAGES * self.chunks.len() as u32
    }

    /// The goal for backed pages, in pages: scavenging steps are made only while more pages are backed.
    pub fn goal(&self) -> u32
        ensures { result ≡ self.now.goal }
    {
        self.goal
    }

    /// The number of pages that spans have.
    pub fn taken(&self) -> u32
        ensures { result ≡ taken self.now.region self.now.past }
    {
        self.taken
    }

    /// The lines of the journal, as they were made.
    pub fn journal(&self) -> &[Line]
        ensures lines { past_of result.now ≡ self.now.past }
        ensures legal { (procs : ℕ) → AreAllowed procs self.now.past → LegalFor procs self.now.region self.now.goal self.now.past }
        ensures room { owed self.now.past ≤ self.now.spare }
    {
        self.journal.as_slice()
    }

    /// The same lines, where the pages are no longer needed: none is copied.
    pub fn into_journal(self) -> Vec<Line>
        ensures { past_of result.items ≡ self.past }
    {
        let Pages { journal, .. } = self;
        journal
    }
}

/// The search page after a take at first fit: behind the pages taken, where the first of them is the least free page, which a run
/// of one page always is.
fn raised(search: u32, page: u32, n: u32) -> u32
    requires { page + n < 2 ^ 32 }
    ensures { ((result ≡ page + n) × ((n ≡ 1) ⊎ (page ≡ search))) ⊎ (result ≡ search) }
{
    if n == 1 || page == search {
        page + n
    } else {
        search
    }
}

/// Writes a Cut line for each cut, and the cuts' first pages and page counts.
fn note_cuts(
    journal: &mut Vec<Line>,
    starts: &mut [Bitmap],
    lengths: &mut [u32],
    cycle: u32,
    proc: u32,
    cuts: &[CutNote],
)
    // the journal
    requires room { vec_len journal.old + length cuts.now ≤ vec_capacity journal.old }

    // the first pages and the page counts
    requires starts { AllByRecursion (λ (cut : CutNote). cut.page < 512 * length starts.old) cuts.now }
    requires lengths { AllByRecursion (λ (cut : CutNote). cut.page < length lengths.old) cuts.now }

    // the journal behind it
    ensures past { past_of journal.new.items ≡ behind_cuts cycle proc cuts.now (past_of journal.old.items) }
    ensures len { vec_len journal.new ≡ vec_len journal.old + length cuts.now }
    ensures capacity { vec_capacity journal.old ≤ vec_capacity journal.new }

    // the first pages and the page counts behind it
    ensures starts { (p : ℕ) → pages_in starts.new p ≡ with_firsts cuts.now (pages_in starts.old) p }
    ensures lengths { lengths.new ≡ with_lengths cuts.now lengths.old }
{
    for cut in cuts {
        mark_start(starts, cut.page, true);
        lengths[cut.page as usize] = cut.pages;
        append(
            journal,
            Line::Cut {
                cycle,
                proc,
                page: cut.page,
                pages: cut.pages,
                class: cut.class,
            },
        );
    }
}

/// Puts a line at the end of a journal that has room for it.
fn append(journal: &mut Vec<Line>, line: Line)
    requires { vec_len journal.old < vec_capacity journal.old }
    ensures past { past_of journal.new.items ≡ line ∷ past_of journal.old.items }
    ensures len { vec_len journal.new ≡ vec_len journal.old + 1 }
    ensures capacity { vec_capacity journal.old ≤ vec_capacity journal.new }
{
    let Ok(()) = journal.push(line) else {
        unreachable!()
    };
}
