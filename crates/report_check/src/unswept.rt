//! Rule 7, as far as the lives tell it that a mark end finds alive.

ghost use Rattle.std.specs.Prelude.{◌≤◌, true, false, length, List as Things, IfErr, IfOk, MatchBool, OnOk};
ghost use Rattle.span_state.specs.declared.sweep.SweepNote.{SweepNote as Note};
ghost use Rattle.cycle_history.specs.Before.{IsLimited};
ghost use Rattle.cycle_history.specs.Objects.{Object};
ghost use Rattle.cycle_history.specs.Requests.{last_cycle, marked_by};
ghost use Rattle.cycle_history.specs.Sound.{HasJournal};
ghost use Rattle.report_check.specs.Closing.{BreaksSweeps};
ghost use Rattle.report_check.specs.Fault.{IsFaultOf};
ghost use Rattle.report_check.specs.Keys.{AreKeys};
ghost use Rattle.report_check.specs.SaidSweeps.{AreAllNoted, LacksNote};
ghost use Rattle.report_check.specs.Sweeping.{AllMayGive, AllSwept, AreRightTo, LacksSweep};

use crate::CheckFault;
use crate::cycle_lives::Opened;
use crate::keys::Keys;
use crate::lines::end_of;
use crate::lives::OpenLife;
use crate::view::ReportView;
use edge_io::NoMemory;
use size_classes::MAX_PAGES;
use std::alloc::Global;
use trace_reader::Trace;

/// Whether each life that a mark end finds alive has a sweep: rule 7, as far as the lives tell it. No object is asked, so that the
/// answer is the same whichever there are. The fault is the first that breaks the rule where no Give does and no sweep.
pub fn judge_lives(alloc: Global, trace: &Trace, report: &ReportView) -> Result<(), CheckFault>
    requires limited { IsLimited trace.now }
    requires journal { HasJournal trace.now report.now }
    ensures swept { OnOk result (AllSwept trace.now report.now) }
    ensures fault { IfErr result (λ fault. (objects : Things Object)
        → AllMayGive report.now
        → AreRightTo trace.now report.now objects (length report.now.sweeps)
        → IsFaultOf 7 (BreaksSweeps (marked_by trace.now) (last_cycle trace.now) report.now objects) fault) }
{
    if !all_swept(alloc, trace, report)? {
        let line = end_of(report);
        return Err(CheckFault::Broken { rule: 7, line });
    }
    Ok(())
}

// Whether each life that a mark end finds alive has a sweep.
fn all_swept(alloc: Global, trace: &Trace, report: &ReportView) -> Result<bool, NoMemory>
    requires limited { IsLimited trace.now }
    requires journal { HasJournal trace.now report.now }
    ensures { IfOk result (λ all. MatchBool all (AllSwept trace.now report.now) (LacksSweep trace.now report.now)) }
{
    let keys = Keys::of(alloc, report.sweeps(), false)?;
    let mut opened = Opened::new(alloc, trace)?;
    for cycle in 1..trace.cycles.len() as u32 {
        opened.take_up(trace, report, cycle - 1);
        if !all_noted(&opened.lives, &keys, cycle) {
            return Ok(false);
        }
    }
    Ok(true)
}

// Whether each life of the table has a sweep of the cycle.
fn all_noted(lives: &[Option<OpenLife>], keys: &Keys, cycle: u32) -> bool
    requires { length lives.now ≤ MAX_PAGES }
    ensures { (sweeps : Things Note) → AreKeys false sweeps keys.now → MatchBool result (AreAllNoted lives.now sweeps cycle) (LacksNote lives.now sweeps cycle) }
{
    for page in 0..lives.len() {
        if lives[page].is_some() && !keys.has(cycle, page as u32) {
            return false;
        }
    }
    true
}
