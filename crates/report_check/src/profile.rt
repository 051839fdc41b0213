//! Rule 9: the sampled profile.

ghost use Rattle.std.specs.Prelude.{◌≡◌, ◌≢◌, ◌<◌, ◌^◌, ◌⊎◌, true, length, IfErr, IfOk, MatchBool, MatchOption, OnOk, List as Lines};
ghost use Rattle.cycle_history.specs.declared.Prof.{Prof as ALine};
ghost use Rattle.cycle_history.specs.Orders.{IsProfBefore};
ghost use Rattle.cycle_history.specs.Profile.{allocs_at, frees_at};
ghost use Rattle.cycle_history.specs.Requests.{last_cycle, marked_by};
ghost use Rattle.report_check.specs.Lines as lines;
ghost use Rattle.report_check.specs.Published.{IsRightProf, is_of_each};
ghost use Rattle.report_check.specs.Printed.{ArePrinted, HasBucketLine, HasNumbers, IsFirstWrongProf, IsItemPrinted, LacksLine, AreRightProfs};

use crate::CheckFault;
use crate::lines::end_of;
use crate::objects::Objects;
use crate::sampled::{Sampled, count_before, place_of};
use crate::sorted::Sorted;
use cycle_history::Prof;
use edge_io::NoMemory;
use profile_cycle::Count;
use std::alloc::Global;

impl Objects<'_> {
    ghost use Rattle.cycle_history.specs.Sound.{HasProfile};
    ghost use Rattle.report_check.specs.Published.{BreaksProfile};
    ghost use Rattle.report_check.specs.Fault.{IsFaultOf};
    ghost use Rattle.report_check.specs.Items.{objects_of};
    ghost use Rattle.report_check.specs.Known.{AreKnownItems};
    ghost use Rattle.report_check.specs.Printed.{AllPrinted};
    ghost use Rattle.report_check.specs.Sampling.{AreSamples, samples_by};

    /// Whether the profile is that of the samples, in the form that its first line is of: rule 9. It takes time in the
    /// objects and the profile's lines, but for a logarithm.
    pub fn judge_profile(&self, alloc: Global) -> Result<(), CheckFault>
        requires known { AreKnownItems self.now.trace.now self.now.report.now self.now.items.now self.now.lasts.now }
        ensures profile { OnOk result (HasProfile self.now.trace.now self.now.report.now (objects_of self.now.items.now)) }
        ensures fault { IfErr result (IsFaultOf 9 (BreaksProfile self.now.trace.now self.now.report.now (objects_of self.now.items.now))) }
    {
        let sampled = Sampled::of(alloc, self)?;
        let each = self.is_of_each();
        if let Some(place) = self.first_wrong_prof(&sampled, each) {
            let line = self.profile_at(place);
            return Err(CheckFault::Broken { rule: 9, line });
        }
        if !self.all_printed(alloc, &sampled, each)? {
            let line = end_of(self.report);
            return Err(CheckFault::Broken { rule: 9, line });
        }
        Ok(())
    }

    // The number of the last mark end, and 0 where there is none.
    fn last_mark(&self) -> u32
        requires known { AreKnownItems self.now.trace.now self.now.report.now self.now.items.now self.now.lasts.now }
        ensures last { result ≡ last_cycle self.now.trace.now }
        ensures few { result < 2 ^ 31 }
    {
        self.trace.cycles.len() as u32 - 1
    }

    // Whether the profile is of the form of each mark end: its first line names one before the last.
    fn is_of_each(&self) -> bool
        requires known { AreKnownItems self.now.trace.now self.now.report.now self.now.items.now self.now.lasts.now }
        ensures { result ≡ is_of_each (last_cycle self.now.trace.now) self.now.report.now.profile }
    {
        let lines = self.report.profile();
        !lines.is_empty() && lines[0].mark < self.last_mark()
    }

    // The line of the bucket at this place of the profile.
    fn profile_at(&self, place: usize) -> u64
        requires place { place < 2 ^ 62 }
        ensures { result ≡ lines.profile_at self.now.report.now place }
    {
        self.report.answers().len() as u64
            + self.report.journal().len() as u64
            + self.report.sweeps().len() as u64
            + self.report.totals().len() as u64
            + place as u64
            + 1
    }

    // The first line of the profile that isn't right, or is out of order.
    fn first_wrong_prof(&self, sampled: &Sampled, each: bool) -> Option<usize>
        requires known { AreKnownItems self.now.trace.now self.now.report.now self.now.items.now self.now.lasts.now }
        requires sampled { AreSamples self.now.trace.now self.now.items.now sampled.now }
        ensures { MatchOption result
            (AreRightProfs (IsRightProf each (marked_by self.now.trace.now) (samples_by self.now.trace.now sampled.now) (last_cycle self.now.trace.now) (objects_of self.now.items.now)) self.now.report.now.profile (length self.now.report.now.profile))
            (IsFirstWrongProf (IsRightProf each (marked_by self.now.trace.now) (samples_by self.now.trace.now sampled.now) (last_cycle self.now.trace.now) (objects_of self.now.items.now)) self.now.report.now.profile) }
    {
        let lines = self.report.profile();
        for place in 0..lines.len() {
            if place > 0 && !comes_before(lines[place - 1], lines[place]) {
                return Some(place);
            }
            if !self.is_right_prof(sampled, each, lines[place]) {
                return Some(place);
            }
        }
        None
    }

    // Whether a line of the profile is right in the form.
    fn is_right_prof(&self, sampled: &Sampled, each: bool, line: Prof) -> bool
        requires known { AreKnownItems self.now.trace.now self.now.report.now self.now.items.now self.now.lasts.now }
        requires sampled { AreSamples self.now.trace.now self.now.items.now sampled.now }
        ensures { MatchBool result
            (IsRightProf each (marked_by self.now.trace.now) (samples_by self.now.trace.now sampled.now) (last_cycle self.now.trace.now) (objects_of self.now.items.now) line)
            (¬ IsRightProf each (marked_by self.now.trace.now) (samples_by self.now.trace.now sampled.now) (last_cycle self.now.trace.now) (objects_of self.now.items.now) line) }
    {
        let last = self.last_mark();
        let now = self.numbers(sampled, line.stack, line.size, line.mark);
        if !tells(line, now) {
            return false;
        }
        if !each {
            return line.mark == last;
        }
        if line.mark >= last {
            return line.mark == last;
        }
        let before = self.numbers(sampled, line.stack, line.size, line.mark - 1);
        differ(now, before)
    }

    // The allocs and frees of a bucket as of a mark end.
    fn numbers(&self, sampled: &Sampled, stack: u32, slot: u64, mark: u32) -> Count
        requires sampled { AreSamples self.now.trace.now self.now.items.now sampled.now }
        ensures allocs { result.allocs ≡ allocs_at (samples_by self.now.trace.now sampled.now) (objects_of self.now.items.now) mark (record { stack = stack; slot = slot }) }
        ensures frees { result.frees ≡ frees_at (marked_by self.now.trace.now) (samples_by self.now.trace.now sampled.now) (objects_of self.now.items.now) mark (record { stack = stack; slot = slot }) }
    {
        Count {
            allocs: count_before(&sampled.starts, stack, slot, mark),
            frees: count_before(&sampled.ends, stack, slot, mark),
        }
    }

    // Whether each bucket has a line of each mark end at which it is due.
    fn all_printed(&self, alloc: Global, sampled: &Sampled, each: bool) -> Result<bool, NoMemory>
        requires known { AreKnownItems self.now.trace.now self.now.report.now self.now.items.now self.now.lasts.now }
        requires sampled { AreSamples self.now.trace.now self.now.items.now sampled.now }
        ensures { IfOk result (λ all. MatchBool all
            (AllPrinted each (marked_by self.now.trace.now) (samples_by self.now.trace.now sampled.now) (last_cycle self.now.trace.now) (objects_of self.now.items.now) self.now.report.now.profile)
            (LacksLine each (marked_by self.now.trace.now) (samples_by self.now.trace.now sampled.now) (last_cycle self.now.trace.now) (objects_of self.now.items.now) self.now.report.now.profile)) }
    {
        let printed = printed_of(alloc, self.report.profile())?;
        for number in 0..self.items.len() {
            if sampled.flags[number] && !self.is_printed(&printed, sampled, each, number) {
                return Ok(false);
            }
        }
        Ok(true)
    }

    // Whether the bucket of a sample has a line of each mark end at which the sample makes it due: the last, and in the
    // form of each mark end the first behind its own cycle and the first behind its last one.
    fn is_printed(&self, printed: &Sorted, sampled: &Sampled, each: bool, number: usize) -> bool
        requires known { AreKnownItems self.now.trace.now self.now.report.now self.now.items.now self.now.lasts.now }
        requires sampled { AreSamples self.now.trace.now self.now.items.now sampled.now }
        requires printed { ArePrinted self.now.report.now.profile printed.now }
        requires inside { number < length self.now.items.now }
        ensures { MatchBool result
            (IsItemPrinted each (last_cycle self.now.trace.now) self.now.items.now self.now.lasts.now sampled.now.stacks.items self.now.report.now.profile number)
            (¬ IsItemPrinted each (last_cycle self.now.trace.now) self.now.items.now self.now.lasts.now sampled.now.stacks.items self.now.report.now.profile number) }
    {
        let item = self.items[number];
        let stack = sampled.stacks[number];
        let last = self.last_mark();
        if !is_shown(printed, stack, item.slot, last, item.cycle < last) {
            return false;
        }
        if !each {
            return true;
        }
        let next = item.cycle + 1;
        if !is_shown(printed, stack, item.slot, next, next < last) {
            return false;
        }
        let end = self.lasts[number] + 1;
        is_shown(printed, stack, item.slot, end, end < last)
    }
}

// Whether a line has the numbers of its bucket, of which there are some samples, as of a mark end.
fn tells(line: Prof, now: Count) -> bool
    ensures { MatchBool result (HasNumbers line now) (¬ HasNumbers line now) }
{
    line.mark != 0 && line.allocs != 0 && line.allocs == now.allocs && line.frees == now.frees
}

// Whether a bucket's numbers changed.
fn differ(a: Count, b: Count) -> bool
    ensures { MatchBool result ((a.allocs ≢ b.allocs) ⊎ (a.frees ≢ b.frees)) (¬ ((a.allocs ≢ b.allocs) ⊎ (a.frees ≢ b.frees))) }
{
    a.allocs != b.allocs || a.frees != b.frees
}

// Whether a line of the profile comes before another.
fn comes_before(a: Prof, b: Prof) -> bool
    ensures { MatchBool result (IsProfBefore a b) (¬ IsProfBefore a b) }
{
    a.mark < b.mark
        || a.mark == b.mark && (a.stack < b.stack || a.stack == b.stack && a.size < b.size)
}

// The places of the profile's lines.
fn printed_of(alloc: Global, lines: &[Prof]) -> Result<Sorted, NoMemory>
    ensures { IfOk result (λ printed. ArePrinted lines.now printed) }
{
    let mut places = Vec::new(alloc);
    for line in lines {
        places.push(place_of(line.stack, line.size, line.mark))?;
    }
    Ok(Sorted::of(places))
}

// Whether the profile has a line of the bucket and the mark end.
fn has_line(printed: &Sorted, stack: u32, slot: u64, mark: u32) -> bool
    ensures { (lines : Lines ALine) → ArePrinted lines printed.now
        → MatchBool result (HasBucketLine lines mark (record { stack = stack; slot = slot })) (¬ HasBucketLine lines mark (record { stack = stack; slot = slot })) }
{
    printed.has(place_of(stack, slot, mark))
}

// Whether the profile has a line of the bucket and the mark end, where that is due.
fn is_shown(printed: &Sorted, stack: u32, slot: u64, mark: u32, due: bool) -> bool
    ensures { (lines : Lines ALine) → ArePrinted lines printed.now
        → MatchBool result (due ≡ true → HasBucketLine lines mark (record { stack = stack; slot = slot })) (¬ (due ≡ true → HasBucketLine lines mark (record { stack = stack; slot = slot }))) }
{
    !due || has_line(printed, stack, slot, mark)
}
