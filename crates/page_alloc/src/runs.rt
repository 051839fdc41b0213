//! Runs of pages over neighbouring chunks.

ghost use Rattle.std.specs.Prelude.{
  ◌≡◌,
  ℕ,
  ◌+◌,
  ◌-◌,
  ◌*◌,
  ◌/◌,
  ◌<◌,
  ◌≤◌,
  false,
  ◌&&◌,
  ◌||◌,
  ◌%◌,
  not,
  true,
  length,
  IfNone,
  IfSome,
};
ghost use Rattle.page_bitmap.specs.Counts.{count_run};
ghost use Rattle.page_bitmap.specs.Runs.{SetsRun};
ghost use Rattle.page_bitmap.specs.Words.{has_bit};
ghost use Rattle.page_alloc.specs.Owners.{within};
ghost use Rattle.page_alloc.specs.Region.{
  IsRunIn,
  IsTopRunIn,
  free_in,
  loose_in,
  scavenged_in,
};

use page_bitmap::{Chunk, Run};
use size_classes::{CHUNK_PAGES, MAX_CHUNKS, MAX_PAGES};

/// The most pages that one scavenging step releases (ours).
const SCAVENGE_PAGES: u32 = 64;

/// Takes the pages of a free run, and says how many of them were scavenged.
pub(crate) fn take_run(chunks: &mut [Chunk], run: Run) -> u32
    requires chunks { length chunks.old ≤ MAX_CHUNKS }
    requires free { IsRunIn (free_in chunks.old) (512 * length chunks.old) run.page run.pages }
    ensures free { SetsRun (free_in chunks.old) (free_in chunks.new) run.page run.pages false }
    ensures scavenged { SetsRun (scavenged_in chunks.old) (scavenged_in chunks.new) run.page run.pages false }
    ensures count { result ≡ count_run run.page run.pages (scavenged_in chunks.old) }
{
    let mut scavenged = 0;
    let mut done = 0;
    while done < run.pages {
        let (index, page, n) = piece(run, done);
        let chunk = &mut chunks[index];
        scavenged += chunk.scavenged_in(page, n);
        chunk.take(page, n);
        done += n;
    }
    scavenged
}

/// Frees the pages of a taken run.
pub(crate) fn free_run(chunks: &mut [Chunk], run: Run)
    requires chunks { length chunks.old ≤ MAX_CHUNKS }
    requires taken { IsRunIn (λ p. not (free_in chunks.old p)) (512 * length chunks.old) run.page run.pages }
    ensures free { SetsRun (free_in chunks.old) (free_in chunks.new) run.page run.pages true }
    ensures scavenged { (p : ℕ) → scavenged_in chunks.new p ≡ scavenged_in chunks.old p }
{
    let mut done = 0;
    while done < run.pages {
        let (index, page, n) = piece(run, done);
        chunks[index].free(page, n);
        done += n;
    }
}

/// The chunk, the first page in it and the number of pages of the part of a run that follows its first `done` pages.
fn piece(run: Run, done: u32) -> (usize, u32, u32)
    requires left { done < run.pages }
    requires fits { run.page + run.pages ≤ MAX_PAGES }
    ensures page { run.page + done ≡ 512 * result.0 + result.1 }
    ensures some { 1 ≤ result.2 }
    ensures chunk { result.1 + result.2 ≤ 512 }
    ensures inside { done + result.2 ≤ run.pages }
{
    let at = run.page + done;
    let page = at % CHUNK_PAGES;
    let n = (CHUNK_PAGES - page).min(run.pages - done);
    ((at / CHUNK_PAGES) as usize, page, n)
}

/// The number of the chunk behind the last one that a run has pages of.
pub(crate) fn chunk_behind(run: Run) -> usize
    requires { run.page + run.pages ≤ MAX_PAGES }
    ensures behind { run.page + run.pages ≤ 512 * result }
    ensures least { 512 * result < run.page + run.pages + 512 }
{
    (run.page + run.pages).div_ceil(CHUNK_PAGES) as usize
}

/// The run that a scavenging step releases, where no chunk from the number `end` on has a page that is free and backed: None
/// where no chunk has one.
pub(crate) fn top_run(chunks: &[Chunk], end: usize) -> Option<Run>
    requires few { length chunks.now ≤ MAX_CHUNKS }
    requires end { end ≤ length chunks.now }
    requires above { (p : ℕ) → 512 * end ≤ p → loose_in chunks.now p ≡ false }
    ensures found { IfSome result (λ run. IsTopRunIn (loose_in chunks.now) (512 * length chunks.now) run.page run.pages) }
    ensures none { IfNone result ((p : ℕ) → p < 512 * length chunks.now → loose_in chunks.now p ≡ false) }
{
    for index in (0..end).rev() {
        if let Some(run) = chunks[index].scavenge_candidate(SCAVENGE_PAGES) {
            let page = CHUNK_PAGES * index as u32 + run.page;
            return Some(Run {
                page,
                pages: run.pages,
            });
        }
    }
    None
}

/// Marks the pages of a free run inside one chunk as scavenged.
pub(crate) fn scavenge_run(chunks: &mut [Chunk], run: Run)
    requires chunks { length chunks.old ≤ MAX_CHUNKS }
    requires some { 1 ≤ run.pages }
    requires one { run.page / 512 ≡ (run.page + run.pages - 1) / 512 }
    requires free { IsRunIn (free_in chunks.old) (512 * length chunks.old) run.page run.pages }
    ensures scavenged { SetsRun (scavenged_in chunks.old) (scavenged_in chunks.new) run.page run.pages true }
    ensures free { (p : ℕ) → free_in chunks.new p ≡ free_in chunks.old p }
{
    let index = (run.page / CHUNK_PAGES) as usize;
    chunks[index].mark_scavenged(Run {
        page: run.page % CHUNK_PAGES,
        pages: run.pages,
    });
}

/// The pages of a block.
pub(crate) const BLOCK_PAGES: u32 = 64;

/// Which pages of the block that begins at this page are free, as the bits of a word.
pub(crate) fn free_word(chunks: &[Chunk], page: u32) -> u64
    requires block { page % 64 ≡ 0 }
    requires inside { page < 512 * length chunks.now }
    ensures { (k : ℕ) → k < 64 → has_bit result k ≡ free_in chunks.now (page + k) }
{
    chunks[(page / CHUNK_PAGES) as usize].free_word(page % CHUNK_PAGES / BLOCK_PAGES)
}

/// Takes the free pages of the block that begins at this page, and says how many of them were scavenged.
pub(crate) fn take_block(chunks: &mut [Chunk], page: u32) -> u32
    requires block { page % 64 ≡ 0 }
    requires inside { page < 512 * length chunks.old }
    ensures free { (p : ℕ) → free_in chunks.new p ≡ (free_in chunks.old p && not (within p page 64)) }
    ensures scavenged { (p : ℕ) →
        scavenged_in chunks.new p ≡ (scavenged_in chunks.old p && not (within p page 64 && free_in chunks.old p)) }
    ensures count { result ≡ count_run page 64 (λ p. free_in chunks.old p && scavenged_in chunks.old p) }
{
    chunks[(page / CHUNK_PAGES) as usize].take_block(page % CHUNK_PAGES / BLOCK_PAGES)
}

/// Frees those pages of the block that begins at this page whose bits are 1.
pub(crate) fn free_block(chunks: &mut [Chunk], page: u32, pages: u64)
    requires block { page % 64 ≡ 0 }
    requires inside { page < 512 * length chunks.old }
    ensures free { (p : ℕ) → free_in chunks.new p ≡ (free_in chunks.old p || (within p page 64 && has_bit pages (p % 64))) }
    ensures scavenged { (p : ℕ) → scavenged_in chunks.new p ≡ scavenged_in chunks.old p }
{
    chunks[(page / CHUNK_PAGES) as usize].free_block(page % CHUNK_PAGES / BLOCK_PAGES, pages);
}
