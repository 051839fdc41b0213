//! Rule 8: the totals of the size classes.

ghost use Rattle.std.specs.Prelude.{◌≡◌, ◌<◌, ◌^◌, List as Items, length, IfErr, MatchBool, MatchOption, OnOk};
ghost use Rattle.page_alloc.specs.Lists.{In};
ghost use Rattle.cycle_history.specs.Before.{IsLimited};
ghost use Rattle.cycle_history.specs.Objects.{Object};
ghost use Rattle.cycle_history.specs.Requests.{last_cycle, marked_by};
ghost use Rattle.cycle_history.specs.Sound.{HasAnswers};
ghost use Rattle.cycle_history.specs.Sweeps.{AreTotals};
ghost use Rattle.report_check.specs.Closing.{BreaksTotals};
ghost use Rattle.report_check.specs.Lines as lines;
ghost use Rattle.report_check.specs.Fault.{IsFaultOf};
ghost use Rattle.report_check.specs.Totals.{AreFitting, HasAll, IsMisfit, LacksTotal};

use crate::CheckFault;
use crate::lines::end_of;
use crate::view::ReportView;
use cycle_history::{Total, totals_of};
use std::alloc::Global;
use trace_reader::Trace;

/// Whether the report's totals are those of the size classes that have placed objects: rule 8, where rule 1 is met.
///
/// The fault is that of the first total that isn't right, or is out of order; or of the line `end`, where all are right
/// and a size class of a placed object has none. It takes time in the objects, the cycles and the last mark end's marks.
pub fn judge_totals(alloc: Global, trace: &Trace, report: &ReportView) -> Result<(), CheckFault>
    requires limited { IsLimited trace.now }
    requires answers { (objects : Items Object) × HasAnswers trace.now report.now objects }
    ensures totals { OnOk result ((objects : Items Object) → HasAnswers trace.now report.now objects
        → AreTotals (marked_by trace.now) (last_cycle trace.now) objects report.now.totals) }
    ensures fault { IfErr result (λ fault. (objects : Items Object) → HasAnswers trace.now report.now objects
        → IsFaultOf 8 (BreaksTotals (marked_by trace.now) (last_cycle trace.now) report.now objects) fault) }
{
    let counted = totals_of(alloc, trace, report.answer_list())?;
    let printed = report.totals();
    if let Some(place) = first_misfit(printed, counted.as_slice()) {
        let line = line_of(report, place);
        return Err(CheckFault::Broken { rule: 8, line });
    }
    if !has_all(printed, counted.as_slice()) {
        let line = end_of(report);
        return Err(CheckFault::Broken { rule: 8, line });
    }
    Ok(())
}

// The line of the total at this place.
fn line_of(report: &ReportView, place: usize) -> u64
    requires place { place < 2 ^ 62 }
    ensures { result ≡ lines.total_at report.now place }
{
    report.answers().len() as u64
        + report.journal().len() as u64
        + report.sweeps().len() as u64
        + place as u64
        + 1
}

// The first place at which a total stands that isn't one of the right ones, or is out of order. There are at most 68
// right ones, and no more are looked at before one is out of order.
fn first_misfit(printed: &[Total], right: &[Total]) -> Option<usize>
    ensures { MatchOption result (AreFitting right.now printed.now (length printed.now)) (IsMisfit right.now printed.now) }
{
    let mut newest = 0;
    for place in 0..printed.len() {
        let total = printed[place];
        if place > 0 && total.class <= newest {
            return Some(place);
        }
        if !has(right, total) {
            return Some(place);
        }
        newest = total.class;
    }
    None
}

// Whether each of these totals is printed.
fn has_all(printed: &[Total], totals: &[Total]) -> bool
    ensures { MatchBool result (HasAll printed.now totals.now) (LacksTotal printed.now totals.now) }
{
    for total in totals {
        if !has(printed, *total) {
            return false;
        }
    }
    true
}

// Whether a total is among others.
fn has(totals: &[Total], total: Total) -> bool
    ensures { MatchBool result (In total totals.now) (¬ In total totals.now) }
{
    for other in totals {
        if *other == total {
            return true;
        }
    }
    false
}
