//! What a line of a journal says of itself.

ghost use Rattle.std.specs.Prelude.{◌≡◌, ◌≤◌, MatchBool};
ghost use Rattle.page_alloc.specs.FreeRuns.{IsSpanSize};
ghost use Rattle.page_alloc.specs.Journal.{IsCutOrDrop, cycle_of as cycle_in};

use page_bitmap::Line;
use size_classes::{SPAN_CLASSES, span_pages};

/// The cycle that a line was made in.
pub fn cycle_of(line: Line) -> u32
    ensures { result ≡ cycle_in line }
{
    match line {
        Line::Take { cycle, .. } => cycle,
        Line::Miss { cycle, .. } => cycle,
        Line::Give { cycle, .. } => cycle,
        Line::Scav { cycle, .. } => cycle,
        Line::Pull { cycle, .. } => cycle,
        Line::Cut { cycle, .. } => cycle,
        Line::Drop { cycle, .. } => cycle,
    }
}

/// Whether a line is a Cut or a Drop of this processor.
pub(crate) fn is_cut_or_drop(line: Line, of: u32) -> bool
    ensures { MatchBool result (IsCutOrDrop of line) (¬ IsCutOrDrop of line) }
{
    match line {
        Line::Take { .. } => false,
        Line::Miss { .. } => false,
        Line::Give { .. } => false,
        Line::Scav { .. } => false,
        Line::Pull { .. } => false,
        Line::Cut { proc, .. } => proc == of,
        Line::Drop { proc, .. } => proc == of,
    }
}

/// Whether a span of this class may have so many pages.
pub(crate) fn is_span_size(n: u32, class: u8) -> bool
    ensures { MatchBool result ((1 ≤ n) × IsSpanSize class n) (¬ IsSpanSize class n) }
{
    if class < 2 {
        n >= 5
    } else if class < SPAN_CLASSES {
        span_pages(class / 2) == n
    } else {
        false
    }
}
