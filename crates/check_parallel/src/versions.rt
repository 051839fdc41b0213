//! The rules of a trace of any version.

ghost use Rattle.cycle_history.specs.Before.{IsLimited};
ghost use Rattle.report_check.specs.Versions.{IsJudgedByVersion, IsJudgedTiny};

use crate::judge::{check_parallel, judge_rules};
use cycle_history::{Report, TINY_VERSION};
use report_check::{CheckFault, Pieces, ReportView, base_report, judge_riders};
use std::alloc::Global;
use std::thread::Threads;
use trace_reader::Trace;

/// Tries the rules of a sound report of a trace of any version, as `check_version` of `report_check` does, with the objects in so many pieces:
/// the first that the report breaks, with the first of its lines that breaks it. A sound report is refused for want of memory alone.
///
/// Of a trace with tiny objects the base is made once, and judged in pieces. Rule 1 of the trace itself and rule 10 are judged whole.
pub fn check_version_parallel<R: Threads + Sync>(
    rt: &R,
    alloc: Global,
    trace: &Trace,
    report: &Report,
    pieces: Pieces,
) -> Result<(), CheckFault>
    requires limited { IsLimited trace.now }
    ensures { IsJudgedByVersion trace.now report.now result }
{
    if trace.header.version < TINY_VERSION {
        return check_parallel(rt, alloc, trace, report, pieces);
    }
    judge_tiny(rt, alloc, trace, report, pieces)
}

// The ten rules.
fn judge_tiny<R: Threads + Sync>(
    rt: &R,
    alloc: Global,
    trace: &Trace,
    report: &Report,
    pieces: Pieces,
) -> Result<(), CheckFault>
    requires limited { IsLimited trace.now }
    ensures { IsJudgedTiny trace.now report.now result }
{
    let base = base_report(alloc, trace, report)?;
    let answered = ReportView::with_answers(report, &base.answers);
    judge_rules(rt, alloc, &base.trace, &answered, pieces)?;
    judge_riders(report, &base)
}
