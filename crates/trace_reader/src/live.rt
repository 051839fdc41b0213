//! The objects that a mark end may mark.

ghost use Rattle.std.specs.Prelude.{◌≤◌};
ghost use Rattle.trace_reader.specs.Kept.{Asked, Passes, lives};

use crate::span::Span;

/// The least object of the span that is not live, and how many of the kept spans end below the span's end; so many were
/// passed before. Live are the objects of the kept spans, which rise, and those from `first` to below `objects`.
#[inline(always)]
pub(crate) fn first_dead(
    kept: &[Span],
    passed: usize,
    first: u32,
    objects: u32,
    span: Span,
) -> (usize, Option<u32>)
    ensures { span.lo ≤ span.hi → Passes kept.now passed span.lo → Asked kept.now (lives kept.now first objects) span result.0 result.1 }
{
    // Most spans lie within the kept span at hand, or within the next one.
    let at = step_on(kept, passed, span.lo);
    if at < kept.len() && kept[at].lo <= span.lo && span.hi <= kept[at].hi {
        return (at, None);
    }
    walk(kept, at, first, objects, span)
}

// The kept span behind the one at hand, if that ends below `lo`.
#[inline(always)]
fn step_on(kept: &[Span], passed: usize, lo: u32) -> usize
    ensures { Passes kept.now passed lo → Passes kept.now result lo }
{
    if passed < kept.len() && kept[passed].hi < lo {
        passed + 1
    } else {
        passed
    }
}

// The same as `first_dead` for any span, kept span by kept span.
#[inline(never)]
fn walk(kept: &[Span], passed: usize, first: u32, objects: u32, span: Span) -> (usize, Option<u32>)
    ensures { span.lo ≤ span.hi → Passes kept.now passed span.lo → Asked kept.now (lives kept.now first objects) span result.0 result.1 }
{
    let mut at = passed;
    let mut id = u64::from(span.lo);
    while id <= u64::from(span.hi) {
        if at < kept.len() && u64::from(kept[at].hi) < id {
            at += 1;
        } else if at < kept.len() && u64::from(kept[at].lo) <= id {
            id = u64::from(kept[at].hi) + 1;
        } else if u64::from(first) <= id && id < u64::from(objects) {
            id = u64::from(objects);
        } else {
            return (at, Some(id as u32));
        }
    }
    (at, None)
}
