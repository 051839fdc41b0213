//! Rule 7, as far as the journal's Gives tell it.

ghost use Rattle.std.specs.Prelude.{◌<◌, true, List as Things, IfErr, MatchBool, OnOk};
ghost use Rattle.span_state.specs.declared.sweep.SweepNote.{SweepNote as Note};
ghost use Rattle.cycle_history.specs.Before.{IsLimited};
ghost use Rattle.cycle_history.specs.Objects.{Object};
ghost use Rattle.cycle_history.specs.Requests.{last_cycle, marked_by};
ghost use Rattle.cycle_history.specs.Sound.{HasJournal};
ghost use Rattle.report_check.specs.Closing.{BreaksSweeps};
ghost use Rattle.report_check.specs.Fault.{IsFaultOf};
ghost use Rattle.report_check.specs.Keys.{AreKeys};
ghost use Rattle.report_check.specs.Sweeping.{AllMayGive, CanGive};

use crate::CheckFault;
use crate::keys::Keys;
use crate::lives::{OpenLife, no_lives, take_up};
use crate::view::ReportView;
use page_bitmap::Line;
use size_classes::CHUNK_PAGES;
use std::alloc::Global;
use trace_reader::Trace;

/// Whether each Give is of a life of an earlier cycle whose sweep of this cycle prints that nothing was kept: rule 7, as far as
/// the Gives tell it. No object is asked, so that the answer is the same whichever there are.
pub fn judge_gives(alloc: Global, trace: &Trace, report: &ReportView) -> Result<(), CheckFault>
    requires limited { IsLimited trace.now }
    requires journal { HasJournal trace.now report.now }
    ensures gives { OnOk result (AllMayGive report.now) }
    ensures fault { IfErr result (λ fault. (objects : Things Object)
        → IsFaultOf 7 (BreaksSweeps (marked_by trace.now) (last_cycle trace.now) report.now objects) fault) }
{
    let keys = Keys::of(alloc, report.sweeps(), true)?;
    let answers = report.answers().len() as u64;
    let journal = report.journal();
    let mut lives = no_lives(alloc, CHUNK_PAGES as usize * trace.header.chunks as usize)?;
    for number in 0..journal.len() {
        let line = journal[number];
        if let Line::Give { cycle, page, .. } = line {
            if !may_give(&lives, &keys, cycle, page) {
                let line = answers + number as u64 + 1;
                return Err(CheckFault::Broken { rule: 7, line });
            }
        }
        take_up(&mut lives, number as u64, line);
    }
    Ok(())
}

// Whether the life that begins at the page may be given back in the cycle, by the sweeps that print that they kept nothing.
fn may_give(lives: &[Option<OpenLife>], keys: &Keys, cycle: u32, page: u32) -> bool
    ensures { (sweeps : Things Note) → AreKeys true sweeps keys.now → MatchBool result (CanGive lives.now sweeps cycle page) (¬ CanGive lives.now sweeps cycle page) }
{
    if page as usize >= lives.len() {
        return false;
    }
    let entry = lives[page as usize];
    match entry {
        Some(life) => life.cycle < cycle && keys.has(cycle, page),
        None => false,
    }
}
