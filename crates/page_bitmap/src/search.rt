//! Runs in a map of 512 pages, found a word at a time.

ghost use Rattle.std.specs.Prelude.{ℕ, ◌+◌, ◌≤◌, Bool, IfSome, IfNone};
ghost use Rattle.page_bitmap.specs.Runs.{
  HasNoRun,
  IsBackRun,
  IsFirstRun,
  IsFrontRun,
  IsLongestRun,
};
ghost use Rattle.page_bitmap.specs.Scans.{IsMeasured, IsSearched, IsWordOf, Scans};
ghost use Rattle.page_bitmap.specs.Words.{has_page};

use crate::bitmap::Bitmap;
use crate::word;

/// What a search knows once it has seen a word.
enum Scan {
    /// The run begins at this page.
    Found(u32),
    /// No run yet; the pages from this one on reach the word's end.
    Reaches(u32),
}

/// Looks for a run of `n` pages that ends in the word, whose first place is the page `base`. The pages from
/// `begin` up to `base` are in the map (`mpallocbits.go`, `findSmallN`, `findLargeN`).
fn scan_word(word: u64, base: u32, begin: u32, n: u32) -> Scan
    requires order { begin ≤ base }
    requires base { base + 64 ≤ 512 }
    requires some { 1 ≤ n }
    requires pages { n ≤ 512 }
    ensures { (map : ℕ → Bool) → IsWordOf map base word → IsSearched map n base begin → Scans map n (base + 64) result }
{
    let low = word::low_ones(word);
    if begin + n <= base + low {
        return Scan::Found(begin);
    }
    if low == 64 {
        return Scan::Reaches(begin);
    }
    match word::first_run(word, n) {
        Some(place) => Scan::Found(base + place),
        None => Scan::Reaches(base + 64 - word::high_ones(word)),
    }
}

/// The first page of the run that reaches the word's end, and the length of the longest run up to there,
/// from the same of the words before (`mpallocbits.go`, `summarize`).
fn measure_word(word: u64, base: u32, begin: u32, longest: u32) -> (u32, u32)
    requires order { begin ≤ base }
    requires base { base + 64 ≤ 512 }
    ensures { (map : ℕ → Bool) → IsWordOf map base word → IsMeasured map base begin longest →
        IsMeasured map (base + 64) result.0 result.1 }
{
    let low = word::low_ones(word);
    let longest = longest.max(base + low - begin);
    if low == 64 {
        (begin, longest)
    } else {
        (
            base + 64 - word::high_ones(word),
            word::longest_run(word, longest),
        )
    }
}

impl Bitmap {
    /// The least page at or above `from` that begins a run of `n` pages.
    pub fn first_run(&self, n: u32, from: u32) -> Option<u32>
        requires some { 1 ≤ n }
        requires pages { n ≤ 512 }
        requires start { from ≤ 512 }
        ensures found { IfSome result (λ page. IsFirstRun (has_page self.now.words) n from page) }
        ensures none { IfNone result (HasNoRun (has_page self.now.words) n from) }
    {
        let first = from / 64;
        let mut begin = 64 * first;
        for i in first..8 {
            let base = 64 * i;
            let word = self.words[i as usize] & (u64::MAX << from.saturating_sub(base));
            match scan_word(word, base, begin, n) {
                Scan::Found(page) => return Some(page),
                Scan::Reaches(page) => begin = page,
            }
        }
        None
    }

    /// The length of the longest run.
    pub fn longest_run(&self) -> u32
        ensures { IsLongestRun (has_page self.now.words) result }
    {
        let mut begin = 0;
        let mut longest = 0;
        for i in 0..8 {
            (begin, longest) = measure_word(self.words[i as usize], 64 * i, begin, longest);
        }
        longest
    }

    /// The length of the run at the front.
    pub fn front_run(&self) -> u32
        ensures { IsFrontRun (has_page self.now.words) result }
    {
        for i in 0..8 {
            let ones = word::low_ones(self.words[i as usize]);
            if ones < 64 {
                return 64 * i + ones;
            }
        }
        512
    }

    /// The length of the run at the back.
    pub fn back_run(&self) -> u32
        ensures { IsBackRun (has_page self.now.words) result }
    {
        for i in (0..8).rev() {
            let ones = word::high_ones(self.words[i as usize]);
            if ones < 64 {
                return 64 * (7 - i) + ones;
            }
        }
        512
    }
}
