//! The rules in their order.

ghost use Rattle.std.specs.Prelude.{List as Things, IfErr, IfOk, OnOk};
ghost use Rattle.cycle_history.specs.Broken.{MeetsUpTo};
ghost use Rattle.cycle_history.specs.Before.{IsLimited};
ghost use Rattle.cycle_history.specs.Objects.{Object};
ghost use Rattle.report_check.specs.Fault.{IsFault, IsJudgedByRules, IsUpTo};
ghost use Rattle.report_check.specs.Known.{AreSettledItems};

use crate::CheckFault;
use crate::items::{Item, items_of};
use crate::journal::judge_journal;
use crate::lasts::lasts_of;
use crate::misses::judge_misses;
use crate::objects::Objects;
use crate::piece::Piece;
use crate::places::judge_places;
use crate::totals::judge_totals;
use crate::view::ReportView;
use cycle_history::Report;
use std::alloc::Global;
use trace_reader::Trace;

/// Tries the nine rules of a sound report: the first that the report breaks, with the first of its lines that breaks it. A sound
/// report is refused for want of memory alone.
///
/// It replays the journal over the pages, and takes time in the objects, the lines, the marks and the chunks, and in the
/// pages of the region for each mark end; the profile's samples and lines cost a logarithm more.
pub fn check(alloc: Global, trace: &Trace, report: &Report) -> Result<(), CheckFault>
    requires limited { IsLimited trace.now }
    ensures { IsJudgedByRules trace.now report.now result }
{
    judge_rules(alloc, trace, &ReportView::of(report))
}

/// The same, of a report whose answers may be others than it prints.
pub(crate) fn judge_rules(
    alloc: Global,
    trace: &Trace,
    report: &ReportView,
) -> Result<(), CheckFault>
    requires limited { IsLimited trace.now }
    ensures { IsJudgedByRules trace.now report.now result }
{
    let items = settled(alloc, trace, report)?;
    judge_settled(alloc, trace, report, &items)
}

/// Tries the rules 1 to 4 alone, on answers, the journal, misses and places: a report that breaks a later rule first isn't refused.
pub fn check_first_rules(alloc: Global, trace: &Trace, report: &Report) -> Result<(), CheckFault>
    requires limited { IsLimited trace.now }
    ensures met { OnOk result ((objects : Things Object) × MeetsUpTo 4 trace.now report.now objects) }
    ensures broken { IfErr result (IsFault trace.now report.now) }
    ensures early { IfErr result (IsUpTo 4) }
{
    settled(alloc, trace, &ReportView::of(report))?;
    Ok(())
}

// The objects of the report in their seats, where it meets the rules 1 to 4.
fn settled(alloc: Global, trace: &Trace, report: &ReportView) -> Result<Vec<Item>, CheckFault>
    requires limited { IsLimited trace.now }
    ensures settled { IfOk result (λ items. AreSettledItems trace.now report.now items.items) }
    ensures broken { IfErr result (IsFault trace.now report.now) }
    ensures early { IfErr result (IsUpTo 4) }
{
    let mut items = items_of(alloc, trace, report)?.into_vec();
    judge_journal(alloc, trace, report)?;
    judge_misses(alloc, report, &items)?;
    judge_places(alloc, trace, report, &mut items)?;
    Ok(items)
}

// The rules 5 to 9, over the objects in their seats.
fn judge_settled(
    alloc: Global,
    trace: &Trace,
    report: &ReportView,
    items: &[Item],
) -> Result<(), CheckFault>
    requires limited { IsLimited trace.now }
    requires settled { AreSettledItems trace.now report.now items.now }
    ensures { IsJudgedByRules trace.now report.now result }
{
    let lasts = lasts_of(alloc, trace)?;
    let objects = Objects {
        trace,
        report,
        items,
        lasts: &lasts,
    };
    let whole = Piece {
        number: 0,
        count: 1,
    };
    objects.judge_apart(alloc, whole)?;
    objects.judge_filling(alloc, whole)?;
    objects.judge_sweeps(alloc)?;
    judge_totals(alloc, trace, report)?;
    objects.judge_profile(alloc)
}
