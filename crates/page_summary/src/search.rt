//! The search for the first run of free pages, down the levels of sums.

ghost use Rattle.std.specs.Prelude.{◌≡◌, ℕ, ◌+◌, ◌*◌, ◌^◌, ◌<◌, ◌≤◌, Bool, false, length};
ghost use Rattle.page_summary.specs.Places.{HasBlock, IsPlaced, IsWithin};
ghost use Rattle.page_summary.specs.Sums.{AllFit, AreSums};

use crate::sum::Sum;

/// The entries of the longest level: a chunk of 512 pages each, of 2^21 pages in all.
pub const MAX_ENTRIES: u32 = 4096;

/// Where the first run of so many free pages begins, as far as a level of sums shows.
#[derive(Clone, Copy, Debug)]
pub enum Place {
    /// At this page.
    Page(u32),
    /// Inside the pages of the entry with this number.
    Entry(u32),
    /// There is none.
    Nowhere,
}

/// Where the first run of `n` pages begins in a block of neighbouring entries of `pages` pages each; the first
/// `skip` of them have no free page. It raises the counter by one for each entry that it looks at.
fn scan(block: &[Sum], pages: u32, skip: usize, n: u32, steps: &mut u64) -> Place
    // the run, and the entries that are looked at
    requires some { 1 ≤ n }
    requires skip { skip ≤ length block.now }

    // the block
    requires few { length block.now ≤ 8 }
    requires pages { pages * length block.now ≤ 2 ^ 21 }
    requires fit { AllFit pages block.now }

    // the counter
    requires room { steps.old + 8 < 2 ^ 64 }

    // the place, and the entries counted
    ensures found { (map : ℕ → Bool) → AreSums map pages block.now → ((p : ℕ) → p < pages * skip → map p ≡ false) →
        IsPlaced map (pages * length block.now) pages n result }
    ensures within { IsWithin pages (length block.now) result }
    ensures steps { (steps.old ≤ steps.new) × (steps.new ≤ steps.old + 8) }
{
    let mut back = 0;
    for index in skip..block.len() {
        *steps += 1;
        let sum = &block[index];
        let (start, end) = (sum.start(), sum.end());
        if n <= back + start {
            return Place::Page(pages * index as u32 - back);
        }
        if n <= sum.max() {
            return Place::Entry(index as u32);
        }
        back = if end == pages { back + end } else { end };
    }
    Place::Nowhere
}

/// Where the first run of `n` free pages begins, in a level whose entries have `pages` pages each, from the place that
/// the level above showed, whose entries have eight times as many. The entries below `from` have no free page. It
/// looks at eight entries at most, and raises the counter by one for each (`mpagealloc.go`, `find`).
pub fn descend(level: &[Sum], pages: u32, place: Place, from: u32, n: u32, steps: &mut u64) -> Place
    // the run
    requires some { 1 ≤ n }

    // the level, and the place that the level above showed
    requires few { length level.now ≤ MAX_ENTRIES }
    requires block { HasBlock (length level.now) place }
    requires pages { pages * length level.now ≤ 2 ^ 21 }
    requires fit { AllFit pages level.now }

    // the counter
    requires room { steps.old + 8 < 2 ^ 64 }

    // the place, and the entries counted
    ensures found { (map : ℕ → Bool) → AreSums map pages level.now → ((p : ℕ) → p < pages * from → map p ≡ false) →
        IsPlaced map (2 ^ 21) (8 * pages) n place → IsPlaced map (2 ^ 21) pages n result }
    ensures steps { (steps.old ≤ steps.new) × (steps.new ≤ steps.old + 8) }
{
    let _steps = *steps;
    let Place::Entry(entry) = place else {
        return place;
    };
    let first = 8 * entry;
    let skip = from.saturating_sub(first).min(8) as usize;
    let block = &level[first as usize..first as usize + 8];
    match scan(block, pages, skip, n, steps) {
        Place::Page(page) => Place::Page(pages * first + page),
        Place::Entry(index) => Place::Entry(first + index),
        Place::Nowhere => Place::Nowhere,
    }
}
