//! A map of the 512 pages of a chunk, in eight words of 64 bits.

ghost use Rattle.std.specs.Prelude.{
  ◌≡◌,
  ◌≢◌,
  ℕ,
  ◌+◌,
  ◌-◌,
  ◌/◌,
  ◌%◌,
  ◌<◌,
  ◌≤◌,
  true,
  false,
  not,
  ◌&&◌,
  IfSome,
  IfNone,
};
ghost use Rattle.page_bitmap.specs.Counts.{count_run};
ghost use Rattle.page_bitmap.specs.Runs.{IsEmpty, IsRun, SetsRun};
ghost use Rattle.page_bitmap.specs.Words.{has_bit, has_page, IsWordOf};

use crate::word::{highest_one, span, with_span};

/// Page `p` is bit `p % 64` of word `p / 64`.
#[derive(Clone, Copy, Debug)]
pub struct Bitmap {
    pub words: [u64; 8],
}

impl Bitmap {
    /// The map that has every page.
    pub fn full() -> Bitmap
        ensures { IsRun (has_page result.words) 0 512 }
    {
        Bitmap {
            words: [u64::MAX; 8],
        }
    }

    /// The map that has no page.
    pub fn empty() -> Bitmap
        ensures { IsEmpty (has_page result.words) }
    {
        Bitmap { words: [0; 8] }
    }

    /// Puts the `n` pages from `page` on in or out of the map.
    pub fn set_run(&mut self, page: u32, n: u32, value: bool)
        requires { page + n ≤ 512 }
        ensures { SetsRun (has_page self.old.words) (has_page self.new.words) page n value }
    {
        let end = page + n;
        for i in page / 64..end.div_ceil(64) {
            let base = 64 * i;
            let low = page.saturating_sub(base);
            let high = (end - base).min(64);
            let index = i as usize;
            self.words[index] = with_span(self.words[index], low, high, value);
        }
    }

    /// The pages that this map has and the other has not.
    pub fn without(&self, other: &Bitmap) -> Bitmap
        ensures { (p : ℕ) →
            has_page result.words p ≡ (has_page self.now.words p && not (has_page other.now.words p)) }
    {
        let mut words = self.words;
        for i in 0..8 {
            words[i] &= !other.words[i];
        }
        Bitmap { words }
    }

    /// The highest page of the map below `end`.
    pub fn last_below(&self, end: u32) -> Option<u32>
        requires { end ≤ 512 }
        ensures page { IfSome result (λ page. (page < end) × (has_page self.now.words page ≡ true)) }
        ensures last { IfSome result (λ page. (p : ℕ) → page < p → p < end → has_page self.now.words p ≡ false) }
        ensures none { IfNone result ((p : ℕ) → p < end → has_page self.now.words p ≡ false) }
    {
        for i in (0..end.div_ceil(64)).rev() {
            let base = 64 * i;
            let word = self.words[i as usize] & span(0, (end - base).min(64));
            if let Some(place) = highest_one(word) {
                return Some(base + place);
            }
        }
        None
    }

    /// The first of the pages directly below `end` that are in the map: `end` where the page below it isn't.
    pub fn run_below(&self, end: u32) -> u32
        requires { end ≤ 512 }
        ensures order { result ≤ end }
        ensures run { (p : ℕ) → result ≤ p → p < end → has_page self.now.words p ≡ true }
        ensures stops { 0 < result → has_page self.now.words (result - 1) ≡ false }
    {
        match Bitmap::full().without(self).last_below(end) {
            Some(gap) => gap + 1,
            None => 0,
        }
    }

    /// How many of the `n` pages from `page` on are in the map.
    pub fn count_run(&self, page: u32, n: u32) -> u32
        requires { page + n ≤ 512 }
        ensures { result ≡ count_run page n (has_page self.now.words) }
    {
        let end = page + n;
        let mut count = 0;
        for i in page / 64..end.div_ceil(64) {
            let base = 64 * i;
            let mask = span(page.saturating_sub(base), (end - base).min(64));
            count += (self.words[i as usize] & mask).count_ones();
        }
        count
    }

    /// The 64 pages from `64 * index` on as the bits of a word (`mpallocbits.go`, `block64`).
    pub fn word(&self, index: u32) -> u64
        requires { index < 8 }
        ensures { IsWordOf (has_page self.now.words) index result }
    {
        self.words[index as usize]
    }

    /// Puts each of the 64 pages from `64 * index` on in or out of the map, as the word's bits say.
    pub fn set_word(&mut self, index: u32, word: u64)
        requires { index < 8 }
        ensures inside { (p : ℕ) → p / 64 ≡ index → has_page self.new.words p ≡ has_bit word (p % 64) }
        ensures others { (p : ℕ) → p / 64 ≢ index → has_page self.new.words p ≡ has_page self.old.words p }
    {
        self.words[index as usize] = word;
    }
}
