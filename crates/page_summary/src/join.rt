//! The sum of two neighbouring runs of pages.

ghost use Rattle.std.specs.Prelude.{ℕ, ◌+◌, ◌^◌, ◌≤◌, Bool};
ghost use Rattle.page_summary.specs.Runs.{Fits, IsSumOf};

/// The free pages at the front of a run of pages, those of its longest free run, and those at its back.
#[derive(Clone, Copy, Debug)]
pub(crate) struct Runs {
    pub start: u32,
    pub max: u32,
    pub end: u32,
}

/// The sum of a run of `done` pages and of the run of `pages` pages that follows it.
pub(crate) fn join(left: Runs, done: u32, right: Runs, pages: u32) -> Runs
    requires left { Fits done left.start left.max left.end }
    requires right { Fits pages right.start right.max right.end }
    requires few { done + pages ≤ 2 ^ 21 }
    ensures fits { Fits (done + pages) result.start result.max result.end }
    ensures sum { (map : ℕ → Bool) → IsSumOf map done left.start left.max left.end →
        IsSumOf (λ p. map (done + p)) pages right.start right.max right.end →
        IsSumOf map (done + pages) result.start result.max result.end }
{
    Runs {
        start: if left.start == done {
            done + right.start
        } else {
            left.start
        },
        max: left.max.max(left.end + right.start).max(right.max),
        end: if right.end == pages {
            left.end + pages
        } else {
            right.end
        },
    }
}
