//! A sum of a run of pages, packed into one word.

ghost use Rattle.std.specs.Prelude.{◌≡◌, ℕ, ◌*◌, ◌^◌, ◌≤◌, Bool, length};
ghost use Rattle.page_summary.specs.Runs.{Fits};
ghost use Rattle.page_summary.specs.Sums.{
  AllFit,
  AreSums,
  IsPacked,
  IsSum,
  bits_of,
  end_of,
  max_of,
  start_of,
};

use crate::join::{Runs, join};

/// The most pages that a sum can say: 2^21 (`mpallocbits.go`, `maxPackedValue`).
pub const MOST_PAGES: u32 = 1 << 21;

/// The values of a field of 21 bits.
const FIELD: u64 = 1 << 21;

/// The word that says 2^21 three times, which no field can hold.
const ALL: u64 = 1 << 63;

/// The free pages at the front of a run of pages, those of its longest free run, and those at its back, each from
/// 0 to 2^21: three fields of 21 bits, the front's lowest, or bit 63 alone where each is 2^21 (`mpallocbits.go`,
/// `pallocSum`).
#[derive(Clone, Copy, Debug, PartialEq, Eq)]
pub struct Sum {
    word: u64,
}

#[tactic(auto, unfolding(crate::specs::Sums::start_of, crate::specs::Sums::max_of, crate::specs::Sums::end_of, crate::specs::Sums::bits_of))]
impl Sum {
    /// The sum of these three numbers of pages, of which `max` is the greatest and at most 2^21; where it is 2^21,
    /// so are the others (`mpallocbits.go`, `packPallocSum`).
    pub fn pack(start: u32, max: u32, end: u32) -> Sum
        requires { Fits (2 ^ 21) start max end }
        ensures start { start_of result ≡ start }
        ensures max { max_of result ≡ max }
        ensures end { end_of result ≡ end }
        ensures packed { IsPacked result }
    {
        if max == MOST_PAGES {
            Sum { word: ALL }
        } else {
            Sum {
                word: start as u64 + FIELD * max as u64 + FIELD * FIELD * end as u64,
            }
        }
    }

    /// The free pages at the front (`mpallocbits.go`, `start`).
    pub fn start(&self) -> u32
        ensures { result ≡ start_of self.now }
    {
        if self.word >= ALL {
            MOST_PAGES
        } else {
            (self.word % FIELD) as u32
        }
    }

    /// The pages of the longest free run (`mpallocbits.go`, `max`).
    pub fn max(&self) -> u32
        ensures { result ≡ max_of self.now }
    {
        if self.word >= ALL {
            MOST_PAGES
        } else {
            (self.word / FIELD % FIELD) as u32
        }
    }

    /// The free pages at the back (`mpallocbits.go`, `end`).
    pub fn end(&self) -> u32
        ensures { result ≡ end_of self.now }
    {
        if self.word >= ALL {
            MOST_PAGES
        } else {
            (self.word / (FIELD * FIELD) % FIELD) as u32
        }
    }

    /// The word.
    pub fn bits(&self) -> u64
        ensures { result ≡ bits_of self.now }
    {
        self.word
    }

    fn runs(&self) -> Runs
        ensures start { result.start ≡ start_of self.now }
        ensures max { result.max ≡ max_of self.now }
        ensures end { result.end ≡ end_of self.now }
    {
        Runs {
            start: self.start(),
            max: self.max(),
            end: self.end(),
        }
    }
}

/// The sum of the pages of 1 to 8 neighbouring runs of `2^log_pages` pages each, from the sums of these runs; they
/// have at most 2^21 pages together (`mpagealloc.go`, `mergeSummaries`).
pub fn merge(sums: &[Sum], log_pages: u32) -> Sum
    requires some { 1 ≤ length sums.now }
    requires few { length sums.now ≤ 8 }
    requires pages { 2 ^ log_pages * length sums.now ≤ 2 ^ 21 }
    requires fit { AllFit (2 ^ log_pages) sums.now }
    ensures sum { (map : ℕ → Bool) → AreSums map (2 ^ log_pages) sums.now → IsSum map (2 ^ log_pages * length sums.now) result }
    ensures packed { IsPacked result }
{
    let pages = 1 << log_pages;
    let mut done = 0;
    let mut whole = Runs {
        start: 0,
        max: 0,
        end: 0,
    };
    for sum in sums {
        whole = join(whole, done, sum.runs(), pages);
        done += pages;
    }
    Sum::pack(whole.start, whole.max, whole.end)
}
