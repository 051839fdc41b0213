//! The search for a span that waits for its sweep and has no mark (`mheap.go`, `reclaimChunk`).

ghost use Rattle.std.specs.Prelude.{◌≡◌, ◌↔◌, ℕ, ◌+◌, ◌<◌, ◌≤◌, false, MatchOption, length, slice_index};
ghost use Rattle.span_state.specs.MarkSet.{is_marked};
ghost use Rattle.sweep_reads.specs.Waiting.{HasNoMark, NoneIsWaiting};

use span_state::Marks;

/// The first page from `from` on and before `to` whose word is that of a span that waits at this generation, and which has no mark.
pub fn first_waiting(
    words: &[u64],
    generation: u64,
    marks: &Marks,
    from: u32,
    to: u32,
) -> Option<u32>
    requires pages { to ≤ length words.now }
    requires low { 4 ≤ generation }
    ensures { MatchOption result
        (NoneIsWaiting words.now generation marks.now.pairs from to)
        (λ page. (from ≤ page) × (page < to) × (slice_index words.now page + 2 ≡ generation) × HasNoMark marks.now.pairs page × NoneIsWaiting words.now generation marks.now.pairs from page) }
{
    let waiting = generation - 2;
    for page in from..to {
        if words[page as usize] == waiting && !has_mark(marks, page) {
            return Some(page);
        }
    }
    None
}

// Whether an object of the page's span is marked. Most spans that have a mark have one at their first object, so that is looked at
// first.
fn has_mark(marks: &Marks, page: u32) -> bool
    ensures { (result ≡ false) ↔ ((index : ℕ) → is_marked marks.now page index ≡ false) }
{
    if marks.marked(page, 0) {
        return true;
    }
    marks.count(page) > 0
}
