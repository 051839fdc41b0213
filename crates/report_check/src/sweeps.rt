//! Rule 7: the sweeps of the lives that the mark ends find alive.

ghost use Rattle.std.specs.Prelude.{◌≡◌, ◌≤◌, ◌<◌, ◌^◌, length, slice_index_or, IfErr, IfOk, IfSome, MatchBool, MatchOption, OnOk, Some as Just, None as Nothing};
ghost use Rattle.std.specs.List.{slice_get};
ghost use Rattle.cycle_history.specs.Orders.{IsSweepBefore};
ghost use Rattle.cycle_history.specs.Requests.{last_cycle, marked_by};
ghost use Rattle.cycle_history.specs.Sound.{past_in};
ghost use Rattle.cycle_history.specs.Sweeps.{AreSwept};
ghost use Rattle.report_check.specs.Closing.{BreaksSweeps};
ghost use Rattle.report_check.specs.Lines as lines;
ghost use Rattle.span_state.specs.declared.sweep.SweepNote.{SweepNote as Note};
ghost use Rattle.report_check.specs.Tallies.{freed_in, kept_in, tally_at};
ghost use Rattle.report_check.specs.Ledgers.{used_at};
ghost use Rattle.report_check.specs.Sweeping.{IsDisorder};
ghost use Rattle.report_check.specs.SaidSweeps.{AreSaidRight, IsNoteOf, IsSettledLife, SaysRight};

use crate::CheckFault;
use crate::gives::judge_gives;
use crate::ledger::{Ledger, Tally};
use crate::lives::OpenLife;
use crate::objects::Objects;
use crate::unswept::judge_lives;
use edge_io::NoMemory;
use span_state::SweepNote;
use std::alloc::Global;

impl Objects<'_> {
    ghost use Rattle.report_check.specs.Fault.{IsFaultOf};
    ghost use Rattle.report_check.specs.Items.{objects_of};
    ghost use Rattle.report_check.specs.Known.{AreKnownItems};
    ghost use Rattle.report_check.specs.Sweeping.{AllMayGive, AreRightTo, IsFirstWrong};

    /// Whether the sweeps are those of the lives that the mark ends find alive, and lives are given back where nothing of
    /// them is kept: rule 7. It takes time in the journal, the sweeps, the objects and the marks.
    pub fn judge_sweeps(&self, alloc: Global) -> Result<(), CheckFault>
        requires known { AreKnownItems self.now.trace.now self.now.report.now self.now.items.now self.now.lasts.now }
        ensures sweeps { OnOk result (AreSwept (marked_by self.now.trace.now) (last_cycle self.now.trace.now) (past_in self.now.report.now) (objects_of self.now.items.now) self.now.report.now.sweeps) }
        ensures fault { IfErr result (IsFaultOf 7 (BreaksSweeps (marked_by self.now.trace.now) (last_cycle self.now.trace.now) self.now.report.now (objects_of self.now.items.now))) }
    {
        judge_gives(alloc, self.trace, self.report)?;
        self.judge_notes(alloc)?;
        judge_lives(alloc, self.trace, self.report)
    }

    /// Whether the sweeps are right and in order: rule 7, as far as the lines of the sweeps tell it. The fault is the first
    /// that breaks the rule where no Give does.
    pub fn judge_notes(&self, alloc: Global) -> Result<(), CheckFault>
        requires known { AreKnownItems self.now.trace.now self.now.report.now self.now.items.now self.now.lasts.now }
        ensures right { OnOk result (AreRightTo self.now.trace.now self.now.report.now (objects_of self.now.items.now) (length self.now.report.now.sweeps)) }
        ensures fault { IfErr result (λ fault. AllMayGive self.now.report.now
            → IsFaultOf 7 (BreaksSweeps (marked_by self.now.trace.now) (last_cycle self.now.trace.now) self.now.report.now (objects_of self.now.items.now)) fault) }
    {
        if let Some(place) = self.first_wrong(alloc)? {
            let line = self.sweep_at(place);
            return Err(CheckFault::Broken { rule: 7, line });
        }
        Ok(())
    }

    // The line of the sweep at this place.
    fn sweep_at(&self, place: usize) -> u64
        requires place { place < 2 ^ 62 }
        ensures { result ≡ lines.sweep_at self.now.report.now place }
    {
        self.report.answers().len() as u64 + self.report.journal().len() as u64 + place as u64 + 1
    }

    // The first sweep that isn't right, or is out of order.
    fn first_wrong(&self, alloc: Global) -> Result<Option<usize>, NoMemory>
        requires known { AreKnownItems self.now.trace.now self.now.report.now self.now.items.now self.now.lasts.now }
        ensures few { IfOk result (λ place. IfSome place (λ place. place < 2 ^ 62)) }
        ensures wrong { IfOk result (λ place. MatchOption place (AreRightTo self.now.trace.now self.now.report.now (objects_of self.now.items.now) (length self.now.report.now.sweeps)) (IsFirstWrong self.now.trace.now self.now.report.now (objects_of self.now.items.now))) }
    {
        let sweeps = self.report.sweeps();
        let end = in_order(sweeps);
        let mut place = 0;
        if is_of(sweeps, 0, end, 0) {
            return Ok(Some(0));
        }
        let mut ledger = Ledger::new(alloc, self)?;
        for cycle in 1..self.trace.cycles.len() as u32 {
            ledger.go_on(alloc, self, cycle)?;
            place = right_from(&ledger, sweeps, place, end, cycle);
            if is_of(sweeps, place, end, cycle) {
                return Ok(Some(place));
            }
        }
        if place < sweeps.len() {
            Ok(Some(place))
        } else {
            Ok(None)
        }
    }
}

// Up to which place the sweeps rise by cycle and page.
fn in_order(sweeps: &[SweepNote]) -> usize
    ensures { IsDisorder sweeps.now result }
{
    for place in 1..sweeps.len() {
        if !comes_before(sweeps[place - 1], sweeps[place]) {
            return place;
        }
    }
    sweeps.len()
}

// Whether a sweep comes before another.
fn comes_before(a: SweepNote, b: SweepNote) -> bool
    ensures { MatchBool result (IsSweepBefore a b) (¬ IsSweepBefore a b) }
{
    a.cycle < b.cycle || a.cycle == b.cycle && a.page < b.page
}

// Whether the sweep at the place, which is before the end, is of the cycle.
fn is_of(sweeps: &[SweepNote], place: usize, end: usize, cycle: u32) -> bool
    requires { end ≤ length sweeps.now }
    ensures { MatchBool result (IsNoteOf sweeps.now place end cycle) (¬ IsNoteOf sweeps.now place end cycle) }
{
    place < end && sweeps[place].cycle == cycle
}

// Up to which place, from one on and before the end, the sweeps are of the cycle and right.
fn right_from(ledger: &Ledger, sweeps: &[SweepNote], from: usize, end: usize, cycle: u32) -> usize
    requires end { end ≤ length sweeps.now }
    requires from { from ≤ end }
    ensures from { from ≤ result }
    ensures end { result ≤ end }
    ensures right { AreSaidRight ledger.now sweeps.now from result cycle }
    ensures wrong { (note : Note) → result < end → slice_get sweeps.now result ≡ Just note → note.cycle ≡ cycle → ¬ SaysRight ledger.now note }
{
    for place in from..end {
        if !is_of(sweeps, place, end, cycle) || !is_right(ledger, sweeps[place]) {
            return place;
        }
    }
    end
}

// Whether the sweep is one of a life that its mark end found alive, with what was kept and freed of it, and where nothing
// was kept, the life was given back in the cycle or used again.
fn is_right(ledger: &Ledger, note: SweepNote) -> bool
    ensures { MatchBool result (SaysRight ledger.now note) (¬ SaysRight ledger.now note) }
{
    match life_at(&ledger.before.lives, note.page) {
        Some(life) => {
            let tally = tally_of(&ledger.tallies, life.number);
            if u64::from(note.kept) != kept_of(tally, note.cycle) {
                return false;
            }
            if u64::from(note.freed) != freed_of(tally, note.cycle) {
                return false;
            }
            note.kept > 0 || is_settled(ledger, life, note.cycle)
        }
        None => false,
    }
}

// Whether a life is given back by the end of the cycle, or was used again in it.
fn is_settled(ledger: &Ledger, life: OpenLife, cycle: u32) -> bool
    ensures { MatchBool result (IsSettledLife ledger.now life cycle) (¬ IsSettledLife ledger.now life cycle) }
{
    if used_in(&ledger.used, life.number) == cycle {
        return true;
    }
    match life_at(&ledger.after.lives, life.page) {
        Some(other) => other.number != life.number,
        None => true,
    }
}

// The life of the table that begins at the page.
fn life_at(lives: &[Option<OpenLife>], page: u32) -> Option<OpenLife>
    ensures { result ≡ slice_index_or lives.now page Nothing }
{
    if page as usize >= lives.len() {
        return None;
    }
    lives[page as usize]
}

// What was counted of a life.
fn tally_of(tallies: &[Tally], life: u64) -> Tally
    ensures { result ≡ tally_at tallies.now life }
{
    if life >= tallies.len() as u64 {
        return Tally {
            cycle: 0,
            kept: 0,
            freed: 0,
        };
    }
    tallies[life as usize]
}

// The newest cycle in which a life was used.
fn used_in(used: &[u32], life: u64) -> u32
    ensures { result ≡ used_at used.now life }
{
    if life >= used.len() as u64 {
        return 0;
    }
    used[life as usize]
}

// How many objects were kept in the cycle.
fn kept_of(tally: Tally, cycle: u32) -> u64
    ensures { result ≡ kept_in tally cycle }
{
    if tally.cycle == cycle { tally.kept } else { 0 }
}

// How many objects were freed in the cycle.
fn freed_of(tally: Tally, cycle: u32) -> u64
    ensures { result ≡ freed_in tally cycle }
{
    if tally.cycle == cycle { tally.freed } else { 0 }
}
