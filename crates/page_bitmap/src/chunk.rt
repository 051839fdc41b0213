//! The pages of a chunk.

ghost use Rattle.std.specs.Prelude.{
  ◌≡◌,
  ℕ,
  ◌+◌,
  ◌*◌,
  ◌%◌,
  ◌<◌,
  ◌≤◌,
  ◌&&◌,
  ◌||◌,
  not,
  true,
  false,
  IfSome,
  IfNone,
};
ghost use Rattle.page_bitmap.specs.Counts.{count_run};
ghost use Rattle.page_bitmap.specs.Runs.{
  HasNoRun,
  IsBackRun,
  IsEmpty,
  IsFirstRun,
  IsFrontRun,
  IsLongestRun,
  IsRun,
  IsTopRun,
  SetsRun,
};
ghost use Rattle.page_bitmap.specs.Pages.{can_scavenge, is_free, is_scavenged, is_taken};
ghost use Rattle.page_bitmap.specs.Words.{has_bit, in_word, IsWordOf};

use crate::bitmap::Bitmap;
use crate::line::Run;

/// 512 neighbouring pages, numbered from 0, each of which is free or taken, and scavenged or backed by
/// memory (`mpallocbits.go`).
#[derive(Clone, Copy, Debug)]
pub struct Chunk {
    free_pages: Bitmap,
    scavenged_pages: Bitmap,
}

#[tactic(auto, unfolding(crate::specs::Pages::is_free, crate::specs::Pages::is_scavenged))]
impl Chunk {
    /// A chunk whose pages are all free and scavenged (`mpagealloc.go`, `grow`).
    pub fn new() -> Chunk
        ensures free { IsRun (is_free result) 0 512 }
        ensures scavenged { IsRun (is_scavenged result) 0 512 }
    {
        Chunk {
            free_pages: Bitmap::full(),
            scavenged_pages: Bitmap::full(),
        }
    }

    /// The least page at or above `from` that begins `n` free pages of the chunk, for n from 1 to 512:
    /// None exactly where there is none (`mpallocbits.go`, `find`).
    pub fn find(&self, n: u32, from: u32) -> Option<u32>
        requires some { 1 ≤ n }
        requires pages { n ≤ 512 }
        requires start { from ≤ 512 }
        ensures found { IfSome result (λ page. IsFirstRun (is_free self.now) n from page) }
        ensures none { IfNone result (HasNoRun (is_free self.now) n from) }
    {
        self.free_pages.first_run(n, from)
    }

    /// Takes the `n` pages from `page` on, which are free. They are no longer scavenged (`mpagealloc.go`,
    /// `allocRange`).
    pub fn take(&mut self, page: u32, n: u32)
        requires { IsRun (is_free self.old) page n }
        ensures free { SetsRun (is_free self.old) (is_free self.new) page n false }
        ensures scavenged { SetsRun (is_scavenged self.old) (is_scavenged self.new) page n false }
    {
        self.free_pages.set_run(page, n, false);
        self.scavenged_pages.set_run(page, n, false);
    }

    /// Frees the `n` pages from `page` on, which are taken. What is scavenged stays as it is (`mpagealloc.go`,
    /// `free`).
    pub fn free(&mut self, page: u32, n: u32)
        requires { IsRun (is_taken self.old) page n }
        ensures free { SetsRun (is_free self.old) (is_free self.new) page n true }
        ensures scavenged { is_scavenged self.new ≡ is_scavenged self.old }
    {
        self.free_pages.set_run(page, n, true);
    }

    /// How many of the `n` pages from `page` on are scavenged (`mpagealloc.go`, `allocRange`).
    pub fn scavenged_in(&self, page: u32, n: u32) -> u32
        requires { page + n ≤ 512 }
        ensures { result ≡ count_run page n (is_scavenged self.now) }
    {
        self.scavenged_pages.count_run(page, n)
    }

    /// The highest free page that isn't scavenged, with the free and unscavenged pages directly below it,
    /// at most `max` pages in all: None exactly where every free page is scavenged
    /// (`mgcscavenge.go`, `findScavengeCandidate`, without its alignment).
    pub fn scavenge_candidate(&self, max: u32) -> Option<Run>
        requires { 1 ≤ max }
        ensures found { IfSome result (λ run. IsTopRun (can_scavenge self.now) max run.page run.pages) }
        ensures none { IfNone result (IsEmpty (can_scavenge self.now)) }
    {
        let backed = self.free_pages.without(&self.scavenged_pages);
        let top = backed.last_below(512)?;
        let pages = (top + 1 - backed.run_below(top)).min(max);
        Some(Run {
            page: top + 1 - pages,
            pages,
        })
    }

    /// Marks the pages of a free run as scavenged (`mgcscavenge.go`, `scavengeOne`).
    pub fn mark_scavenged(&mut self, run: Run)
        requires { IsRun (is_free self.old) run.page run.pages }
        ensures scavenged { SetsRun (is_scavenged self.old) (is_scavenged self.new) run.page run.pages true }
        ensures free { is_free self.new ≡ is_free self.old }
    {
        self.scavenged_pages.set_run(run.page, run.pages, true);
    }

    /// Which of the 64 pages from `64 * block` on are free, as the bits of a word (`mpallocbits.go`, `pages64`).
    pub fn free_word(&self, block: u32) -> u64
        requires { block < 8 }
        ensures { IsWordOf (is_free self.now) block result }
    {
        self.free_pages.word(block)
    }

    /// Takes each of the 64 pages from `64 * block` on that is free, and says how many of them were scavenged, which they are no
    /// longer (`mpagecache.go`, `allocToCache`).
    pub fn take_block(&mut self, block: u32) -> u32
        requires { block < 8 }
        ensures free { (p : ℕ) → is_free self.new p ≡ (is_free self.old p && not (in_word block p)) }
        ensures scavenged { (p : ℕ) →
            is_scavenged self.new p ≡ (is_scavenged self.old p && not (in_word block p && is_free self.old p)) }
        ensures count { result ≡ count_run (64 * block) 64 (λ p. is_free self.old p && is_scavenged self.old p) }
    {
        let free = self.free_pages.word(block);
        let scavenged = self.scavenged_pages.word(block);
        self.free_pages.set_word(block, 0);
        self.scavenged_pages.set_word(block, scavenged & !free);
        (free & scavenged).count_ones()
    }

    /// Frees those of the 64 pages from `64 * block` on whose bits are 1. What is scavenged stays as it is (`mpagecache.go`, `flush`).
    pub fn free_block(&mut self, block: u32, pages: u64)
        requires { block < 8 }
        ensures free { (p : ℕ) → is_free self.new p ≡ (is_free self.old p || (in_word block p && has_bit pages (p % 64))) }
        ensures scavenged { is_scavenged self.new ≡ is_scavenged self.old }
    {
        self.free_pages
            .set_word(block, self.free_pages.word(block) | pages);
    }

    /// The number of pages of the free run at the front of the chunk, of its longest free run, and of the
    /// free run at its back (`mpallocbits.go`, `summarize`).
    pub fn sums(&self) -> (u32, u32, u32)
        ensures start { IsFrontRun (is_free self.now) result.0 }
        ensures max { IsLongestRun (is_free self.now) result.1 }
        ensures end { IsBackRun (is_free self.now) result.2 }
    {
        (
            self.free_pages.front_run(),
            self.free_pages.longest_run(),
            self.free_pages.back_run(),
        )
    }
}
