//! The rules of a trace's version.

ghost use Rattle.cycle_history.specs.Before.{IsLimited};
ghost use Rattle.report_check.specs.Versions.{IsJudgedByVersion, IsJudgedTiny};

use crate::CheckFault;
use crate::judge::{check, judge_rules};
use crate::tiny::{base_report, judge_riders};
use crate::view::ReportView;
use cycle_history::{Report, TINY_VERSION};
use std::alloc::Global;
use trace_reader::Trace;

/// Tries the rules of a sound report: the first that the report breaks, with the first of its lines that breaks it. A sound report is
/// refused for want of memory alone. There are nine rules, and a tenth for a trace of version 3.
///
/// For such a trace it takes the time of `check` on the base, and that of the base.
pub fn check_version(alloc: Global, trace: &Trace, report: &Report) -> Result<(), CheckFault>
    requires limited { IsLimited trace.now }
    ensures { IsJudgedByVersion trace.now report.now result }
{
    if trace.header.version < TINY_VERSION {
        return check(alloc, trace, report);
    }
    check_tiny(alloc, trace, report)
}

// The ten rules.
fn check_tiny(alloc: Global, trace: &Trace, report: &Report) -> Result<(), CheckFault>
    requires limited { IsLimited trace.now }
    ensures { IsJudgedTiny trace.now report.now result }
{
    let base = base_report(alloc, trace, report)?;
    let answered = ReportView::with_answers(report, &base.answers);
    judge_rules(alloc, &base.trace, &answered)?;
    judge_riders(report, &base)
}
