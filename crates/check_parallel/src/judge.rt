//! The rules in their order, by parts that are judged beside each other.

ghost use Rattle.std.specs.Thread.{IsSync};
ghost use Rattle.cycle_history.specs.Before.{IsLimited};
ghost use Rattle.report_check.specs.Fault.{IsJudgedByRules};
ghost use Rattle.report_check.specs.Known.{AreKnownItems};
ghost use Rattle.report_check.specs.Lasts.{AreLasts};
ghost use Rattle.check_parallel.specs.Parts.{IsClosingJudged, IsEarlyJudged, IsInsideJudged, IsLived, IsMissesJudged};
ghost use Rattle.check_parallel.specs.Seating.{AreSeatedItems};

use crate::closing::judge_closing;
use crate::pieces::judge_inside;
use crate::settled::{Lived, settle};
use cycle_history::Report;
use report_check::{CheckFault, Item, Pieces, ReportView, judge_misses};
use std::alloc::Global;
use std::thread::{Threads, join};
use trace_reader::Trace;

/// Tries the nine rules of a sound report, as `check` of `report_check` does, with the objects in so many pieces: the first that
/// the report breaks, with the first of its lines that breaks it. A sound report is refused for want of memory alone.
///
/// A piece has the objects of some size classes, and is judged for the rules 5 and 6. Beside the pieces the other rules behind
/// rule 4 are judged whole, each in a thread of its own where one can be made.
pub fn check_parallel<R: Threads + Sync>(
    rt: &R,
    alloc: Global,
    trace: &Trace,
    report: &Report,
    pieces: Pieces,
) -> Result<(), CheckFault>
    requires limited { IsLimited trace.now }
    ensures { IsJudgedByRules trace.now report.now result }
{
    judge_rules(rt, alloc, trace, &ReportView::of(report), pieces)
}

/// The same, of a report whose answers may be others than it prints.
pub(crate) fn judge_rules<R: Threads + Sync>(
    rt: &R,
    alloc: Global,
    trace: &Trace,
    report: &ReportView,
    pieces: Pieces,
) -> Result<(), CheckFault>
    requires limited { IsLimited trace.now }
    ensures { IsJudgedByRules trace.now report.now result }
{
    let settled = settle(rt, alloc, trace, report, pieces.count)?;
    judge_settled(
        rt,
        alloc,
        trace,
        report,
        &settled.items,
        &settled.lasts,
        settled.lived,
        pieces,
    )
}

// The rules 3 and 5 to 9, over the objects in their seats.
fn judge_settled<R: Threads + Sync>(
    rt: &R,
    alloc: Global,
    trace: &Trace,
    report: &ReportView,
    items: &[Item],
    lasts: &[u32],
    lived: Lived,
    pieces: Pieces,
) -> Result<(), CheckFault>
    // what is known of the objects and the lives, and how many pieces there may be
    requires limited { IsLimited trace.now }
    requires settled { AreSeatedItems trace.now report.now items.now }
    requires lasts { AreLasts trace.now items.now lasts.now }
    requires lived { IsLived trace.now report.now lived }

    // the verdict
    ensures { IsJudgedByRules trace.now report.now result }
{
    let (early, closing) = judge_beside(rt, alloc, trace, report, items, lasts, lived, pieces);
    early?;
    closing
}

// The rules 3, 5 and 6, and beside them the rules 7 to 9.
fn judge_beside<R: Threads + Sync>(
    rt: &R,
    alloc: Global,
    trace: &Trace,
    report: &ReportView,
    items: &[Item],
    lasts: &[u32],
    lived: Lived,
    pieces: Pieces,
) -> (Result<(), CheckFault>, Result<(), CheckFault>)
    requires known { AreKnownItems trace.now report.now items.now lasts.now }
    requires lived { IsLived trace.now report.now lived }
    ensures early { IsEarlyJudged trace.now report.now items.now result.0 }
    ensures closing { IsClosingJudged trace.now report.now items.now result.1 }
{
    let one = || -> Result<(), CheckFault>
        requires { IsSync R.row × AreKnownItems trace.now report.now items.now lasts.now }
        ensures { IsEarlyJudged trace.entry.now report.entry.now items.entry.now result }
    { judge_early(rt, alloc, trace, report, items, lasts, pieces) };
    let two = || -> Result<(), CheckFault>
        requires { IsSync R.row × AreKnownItems trace.now report.now items.now lasts.now × IsLived trace.now report.now lived }
        ensures { IsClosingJudged trace.entry.now report.entry.now items.entry.now result }
    { judge_closing(rt, alloc, trace, report, items, lasts, lived) };
    join(rt, one, two)
}

// Rule 3, and beside it the rules 5 and 6.
fn judge_early<R: Threads + Sync>(
    rt: &R,
    alloc: Global,
    trace: &Trace,
    report: &ReportView,
    items: &[Item],
    lasts: &[u32],
    pieces: Pieces,
) -> Result<(), CheckFault>
    requires known { AreKnownItems trace.now report.now items.now lasts.now }
    ensures { IsEarlyJudged trace.now report.now items.now result }
{
    let one = || -> Result<(), CheckFault>
        ensures { IsMissesJudged report.entry.now items.entry.now result }
    { judge_misses(alloc, report, items) };
    let two = || -> Result<(), CheckFault>
        requires { IsSync R.row × AreKnownItems trace.now report.now items.now lasts.now }
        ensures { IsInsideJudged trace.entry.now items.entry.now result }
    { judge_inside(rt, alloc, trace, report, items, lasts, pieces) };
    let (misses, inside) = join(rt, one, two);
    misses?;
    inside
}
