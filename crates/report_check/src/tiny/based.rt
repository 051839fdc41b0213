//! The base of a report: what the rules 2 to 9 are tried on.

ghost use Rattle.std.specs.Prelude.{IfErr, IfOk};
ghost use Rattle.cycle_history.specs.Before.{IsLimited};
ghost use Rattle.report_check.specs.Based.{IsBaseReport};
ghost use Rattle.report_check.specs.Versions.{IsFaultTiny};

use crate::CheckFault;
use crate::tiny::answers::judge_answers;
use crate::view::ReportView;
use cycle_history::{Answer, Report};
use edge_io::List;
use std::alloc::Global;
use tiny_alloc::{Based, Rider, base_of};
use trace_reader::Trace;

/// The base of a trace with tiny objects and of a report of it.
#[derive(Debug, Drop)]
pub struct BaseReport {
    /// The base of the trace, of version 2.
    pub trace: Trace,
    /// The answers of the base. The report of the base has these, and is as printed else.
    pub answers: List<Answer>,
    /// The riders, by their numbers.
    pub riders: List<Rider>,
}

/// Tries rule 1 of the trace itself, and where it is met makes the base.
pub fn base_report(alloc: Global, trace: &Trace, report: &Report) -> Result<BaseReport, CheckFault>
    requires limited { IsLimited trace.now }
    ensures base { IfOk result (IsBaseReport trace.now report.now) }
    ensures limited { IfOk result (λ base. IsLimited base.trace) }
    ensures broken { IfErr result (IsFaultTiny trace.now report.now) }
{
    judge_answers(trace, &ReportView::of(report))?;
    let Based {
        trace: base,
        answers,
        riders,
    } = base_of(alloc, trace, &report.answers)?;
    Ok(BaseReport {
        trace: base,
        answers,
        riders,
    })
}
