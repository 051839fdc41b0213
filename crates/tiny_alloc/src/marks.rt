//! The marks of a base.

ghost use Rattle.std.specs.Prelude.{◌≡◌, ◌+◌, ◌<◌, ◌≤◌, length, IfOk, OnOk};
ghost use Rattle.std.specs.List.Sorted.{IsNonDecreasingBy};
ghost use Rattle.trace_reader.specs.declared.span.Span.{Span as ASpan};
ghost use Rattle.tiny_alloc.specs.Base.{AreBasedMarks, AreSpaced};
ghost use Rattle.tiny_alloc.specs.Parts.{part_by};
ghost use Rattle.tiny_alloc.specs.Marks.{AreFair, Gains, HaveLeads, HaveSame, IsLeadWithin};

use crate::part::Part;
use edge_io::{List, NoMemory};
use std::alloc::Global;
use trace_reader::Span;

/// The marks of the base where a trace has these: an object is marked where it is so there, or one that rides in its block. They
/// rise, and there is a gap between any two.
pub(crate) fn based_marks(
    alloc: Global,
    marks: &[Span],
    parts: &[Part],
) -> Result<List<Span>, NoMemory>
    requires marks { AreFair marks.now }
    requires leads { HaveLeads (part_by parts.now) }
    ensures { IfOk result (AreBasedMarks (part_by parts.now) marks.now) }
{
    let mut kept = Vec::from_slice(alloc, marks)?;
    for span in marks {
        add_leads(&mut kept, span.lo as usize, span.hi as usize + 1, parts)?;
    }
    kept.sort_unstable_by_key(|span| span.lo);
    join(alloc, kept.as_slice())
}

// Adds the leads of the riders from object `low` up to `high`.
fn add_leads(kept: &mut Vec<Span>, low: usize, high: usize, parts: &[Part]) -> Result<(), NoMemory>
    requires leads { HaveLeads (part_by parts.now) }
    requires fair { AreFair kept.old.items }
    ensures fair { OnOk result (AreFair kept.new.items) }
    ensures leads { OnOk result (Gains (IsLeadWithin (part_by parts.now) low high) kept.old.items kept.new.items) }
{
    for object in low..high.min(parts.len()) {
        if let Part::Ride(lead, _) = parts[object] {
            kept.push(Span { lo: lead, hi: lead })?;
        }
    }
    Ok(())
}

// Spans that have the same objects as these, which stand by their first objects, and between which there are gaps.
fn join(alloc: Global, spans: &[Span]) -> Result<List<Span>, NoMemory>
    requires fair { AreFair spans.now }
    requires order { IsNonDecreasingBy (λ (span : ASpan). span.lo) spans.now }
    ensures spaced { IfOk result (AreSpaced 0) }
    ensures same { IfOk result (HaveSame spans.now) }
{
    let mut joined = List::new(alloc);
    if spans.is_empty() {
        return Ok(joined);
    }
    let mut last = spans[0];
    for next in 1..spans.len() {
        let span = spans[next];
        if span.lo <= last.hi + 1 {
            last.hi = last.hi.max(span.hi);
        } else {
            joined.push(last)?;
            last = span;
        }
    }
    joined.push(last)?;
    Ok(joined)
}
