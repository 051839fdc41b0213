//! A level of sums over the level below it.

ghost use Rattle.std.specs.Prelude.{ℕ, ◌+◌, ◌*◌, ◌^◌, ◌<◌, ◌≤◌, Bool, length};
ghost use Rattle.page_summary.specs.Sums.{AllFit, AreSums, AreSumsBut};

use crate::sum::{Sum, merge};

/// Makes the entries from `first` to `last` the sums of the pages that they cover, each from the eight entries of the
/// level below that cover the same pages, of `2^log_pages` pages each (`mpagealloc.go`, `update`).
pub fn rebuild(level: &mut [Sum], below: &[Sum], log_pages: u32, first: usize, last: usize)
    requires within { last < length level.old }
    requires below { 8 * last + 8 ≤ length below.now }
    requires pages { 2 ^ log_pages * 8 ≤ 2 ^ 21 }
    requires fit { AllFit (2 ^ log_pages) below.now }
    ensures sums { (map : ℕ → Bool) → AreSums map (2 ^ log_pages) below.now →
        AreSumsBut map (8 * 2 ^ log_pages) level.old first (last + 1) → AreSums map (8 * 2 ^ log_pages) level.new }
{
    for index in first..last + 1 {
        level[index] = merge(&below[8 * index..8 * index + 8], log_pages);
    }
}
