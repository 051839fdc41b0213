//! Rule 1 of the trace itself.

ghost use Rattle.std.specs.Prelude.{◌≡◌, ◌+◌, ◌<◌, length, IfErr, OnOk};
ghost use Rattle.cycle_history.specs.Before.{IsLimited, objects_before};
ghost use Rattle.report_check.specs.Answers.{BreaksAnswers};
ghost use Rattle.report_check.specs.Fault.{IsFaultOf};
ghost use Rattle.tiny_alloc.specs.Base.{as_version_2};
ghost use Rattle.report_check.specs.Answered.{AreAnsweredTo, IsAnswered};

use crate::CheckFault;
use crate::items::is_right;
use crate::lines::end_of;
use crate::view::ReportView;
use trace_reader::Trace;

/// Whether a report has one answer for each object of the trace, zero exactly where its size is 0.
pub(crate) fn judge_answers(trace: &Trace, report: &ReportView) -> Result<(), CheckFault>
    requires limited { IsLimited (as_version_2 trace.now) }
    ensures answers { OnOk result (IsAnswered trace.now report.now) }
    ensures fault { IfErr result (IsFaultOf 1 (BreaksAnswers trace.now report.now)) }
{
    let cycles = trace.cycles.as_slice();
    let mut first = 0;
    for cycle in 0..cycles.len() {
        judge_cycle(trace, cycle, first, report)?;
        first += cycles[cycle].events.len();
    }
    let answers = report.answers();
    if first < answers.len() {
        let line = first as u64 + 1;
        return Err(CheckFault::Broken { rule: 1, line });
    }
    Ok(())
}

// The same for the objects of a cycle, whose first has this number, where the answers before it are right.
fn judge_cycle(
    trace: &Trace,
    cycle: usize,
    first: usize,
    report: &ReportView,
) -> Result<(), CheckFault>
    requires limited { IsLimited (as_version_2 trace.now) }
    requires cycle { cycle < length trace.now.cycles }
    requires first { first ≡ objects_before trace.now cycle }
    requires before { AreAnsweredTo trace.now report.now first }
    ensures answers { OnOk result (AreAnsweredTo trace.now report.now (objects_before trace.now (cycle + 1))) }
    ensures fault { IfErr result (IsFaultOf 1 (BreaksAnswers trace.now report.now)) }
{
    let answers = report.answers();
    let cycles = trace.cycles.as_slice();
    let events = cycles[cycle].events.as_slice();
    let mut number = first;
    for event in events {
        if number == answers.len() {
            let line = end_of(report);
            return Err(CheckFault::Broken { rule: 1, line });
        }
        if !is_right(answers[number], event.size) {
            let line = number as u64 + 1;
            return Err(CheckFault::Broken { rule: 1, line });
        }
        number += 1;
    }
    Ok(())
}
