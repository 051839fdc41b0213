//! Looks over many pages or sets: a loop of the single steps.
ghost use Rattle.std.specs.Prelude.{◌≡◌, ◌<◌, ◌≤◌, ◌↔◌, ℕ, [], true, false};
ghost use Rattle.span_laws.specs.Scans.{AcquiresUnmarked, FindsUnswept, nth_unswept};
ghost use Rattle.span_state.specs.MarkSet.{is_marked};
ghost use Rattle.span_table.specs.Scanned.{AcquiresPage};

use crate::shared::{Shared, Worker};
use span_laws::Acquired;
use span_state::{Body, Marks};

// How many unswept sets there are: for each span class a full and a partial one.
pub(crate) const UNSWEPT_SETS: u32 = 272;

// The number of the unswept set at a place in the order of sweeping.
fn number_at(index: u32, generation: u64) -> u32
    requires { index < 272 }
    ensures number { result ≡ nth_unswept generation index }
    ensures low { result < 544 }
{
    4 * (index / 2) + 2 * (1 - index % 2) + ((generation / 2 + 1) % 2) as u32
}

// Whether an object of the page's span is marked. Most spans that have a mark have one at their first object, so that is looked at first.
fn has_mark(marks: &Marks, page: u32) -> bool
    ensures { (result ≡ false) ↔ ((index : ℕ) → is_marked marks.now page index ≡ false) }
{
    if marks.marked(page, 0) {
        return true;
    }
    marks.count(page) > 0
}

// A worker begins to sweep the span of a page, where it waits and has no mark.
fn acquire_at(shared: &Shared, w: &mut Worker, marks: &Marks, page: u32) -> Option<Body>
    requires table { w.old.table ≡ shared.now }
    requires page { page < w.old.view.region }
    requires marks { marks.now.pairs ≡ w.old.view.marks }
    ensures { AcquiresPage page w.old w.new result }
{
    if has_mark(marks, page) {
        return None;
    }
    match shared.acquire(w, page) {
        Acquired::Got(body) => Some(body),
        Acquired::Other(_) => None,
    }
}

impl Shared {
    /// A worker looks at the 272 unswept sets in the order in which they are swept, by span class and the full set before the partial
    /// one, from a place on, up to the first that is not empty (`mgcsweep.go`, `nextSpanForSweep`). Answers its place; none where all to
    /// the last are empty. The log tells each look, as `look` does. Takes no memory, and waits for nobody.
    pub fn next_unswept(&self, w: &mut Worker, from: u32) -> Option<u32>
        requires table { w.old.table ≡ self.now }
        requires from { from ≤ 272 }
        ensures { FindsUnswept from w.old w.new result }
    {
        let generation = w.generation;
        for index in from..UNSWEPT_SETS {
            let (head, tail) = self.look(w, number_at(index, generation));
            if head != tail {
                return Some(index);
            }
        }
        None
    }

    /// A worker begins to sweep the first span, of those that begin at the pages from one to another, that waits for its sweep and has
    /// no marked object, and gets its body (`mheap.go`, `reclaimChunk`). The log tells of each page without a mark before it, and of
    /// all where there is none, that its word was another than that of a span that waits, as `acquire` tells it. The worker has popped
    /// no entry. Takes no memory, and waits for nobody.
    pub fn acquire_unmarked(
        &self,
        w: &mut Worker,
        marks: &Marks,
        from: u32,
        to: u32,
    ) -> Option<Body>
        requires table { w.old.table ≡ self.now }
        requires order { from ≤ to }
        requires pages { to ≤ w.old.view.region }
        requires marks { marks.now.pairs ≡ w.old.view.marks }
        requires unpopped { w.old.view.own.popped ≡ [] }
        ensures { AcquiresUnmarked from to w.old w.new result }
    {
        for page in from..to {
            if let Some(body) = acquire_at(self, w, marks, page) {
                return Some(body);
            }
        }
        None
    }
}
