//! The spans of numbers that a mark end marks, and whether they have a number.

ghost use Rattle.std.specs.Prelude.{◌≡◌, ℕ, ◌+◌, ◌<◌, ◌≤◌, length, slice_index_or};
ghost use Rattle.trace_reader.specs.Rising.{AreSpans};
ghost use Rattle.cycle_history.specs.Requests.{is_within, last_cycle};
ghost use Rattle.cycle_history.specs.Before.{marks_at};

use trace_reader::{Span, Trace};

/// The spans that a mark end marks, in rising order.
pub fn spans_at(trace: &Trace, mark: u32) -> &[Span]
    requires { mark ≤ last_cycle trace.now }
    ensures { result.now ≡ marks_at trace.now mark }
{
    if mark == 0 {
        return &[];
    }
    match &trace.cycles.as_slice()[mark as usize - 1].mark {
        Some(end) => end.marks.as_slice(),
        None => &[],
    }
}

/// A walk along spans that rise, beside numbers that do so too: each number is asked for at most once, in a run, and no span is
/// looked at again that ends below it.
#[derive(Drop)]
pub(crate) struct Walk<'a> {
    /// The spans.
    pub spans: &'a [Span],
    /// How many of them end below each number that is still to come.
    pub next: usize,
}

impl Walk<'_> {
    ghost use Rattle.cycle_history.specs.MarkedLoops.{IsBehind};

    /// Whether one of the spans has the number, and up to which number, the end at most, the answer stays the same.
    pub(crate) fn run(&mut self, number: usize, end: usize) -> (bool, usize)
        // the walk
        requires rise { AreSpans 0 self.old.spans.now }
        requires behind { IsBehind self.old number }

        // the numbers
        requires order { number < end }

        // the answer
        ensures has { (i : ℕ) → number ≤ i → i < result.1 → is_within self.old.spans.now i ≡ result.0 }
        ensures order { (number < result.1) × (result.1 ≤ end) }

        // the walk behind it
        ensures spans { self.new.spans.now ≡ self.old.spans.now }
        ensures behind { IsBehind self.new result.1 }
    {
        self.pass(number);
        if self.next == self.spans.len() {
            return (false, end);
        }
        let span = self.spans[self.next];
        let has = span.lo as usize <= number;
        let stop = if has {
            span.hi as usize + 1
        } else {
            span.lo as usize
        };
        (has, stop.min(end))
    }

    // Leaves the spans behind that end below the number.
    #[inline(always)]
    fn pass(&mut self, number: usize)
        requires { IsBehind self.old number }
        ensures spans { self.new.spans.now ≡ self.old.spans.now }
        ensures behind { IsBehind self.new number }
        ensures next { (d : Span) → self.new.next < length self.new.spans.now → number ≤ (slice_index_or self.new.spans.now self.new.next d).hi }
    {
        while self.next < self.spans.len() && (self.spans[self.next].hi as usize) < number {
            self.next += 1;
        }
    }
}
