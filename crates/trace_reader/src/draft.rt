//! A trace while its lines are read: what those behind the header said so far.

ghost use Rattle.std.specs.Prelude.{◌≡◌, ◌≢◌, ◌<◌, ◌≤◌, [], List as Items, None, Some, IfErr, IfOk, MatchBool, MatchOption, OnOk, length, take};
ghost use Rattle.std.specs.List.{AllByRecursion, flat_map};
ghost use Rattle.trace_reader.specs.declared.statement.Statement.{Statement as Said};
ghost use Rattle.trace_reader.specs.declared.statement.Statement.TheVariants.{Alloc, End, Gc, Mark};
ghost use Rattle.trace_reader.specs.Spelling.{cycle_statements};
ghost use Rattle.trace_reader.specs.Says.{said};
ghost use Rattle.trace_reader.specs.Refusal.{said_fault};
ghost use Rattle.trace_reader.specs.Told.{IsOfTrace, NoReadFault};
ghost use Rattle.trace_reader.specs.Draft.{AreEnded, HasEnd, ended, ended_at, kept_of, told_of};
ghost use Rattle.trace_reader.specs.Follows.{Follows, IsStart, Took};

use crate::fault::{TraceFault, Which};
use crate::limits::{limited_distance, limited_event, limited_span};
use crate::live::first_dead;
use crate::short::{short_alloc, short_mark};
use crate::span::Span;
use crate::statement::{AllocForm, Statement, statement_of};
use crate::trace::{Cycle, Event, MarkEnd};
use edge_io::{List, NoMemory};
use std::alloc::Global;
use std::mem::replace;

/// The most objects of a trace.
const MAX_OBJECTS: u32 = 1_000_000;

/// The most mark ends of a trace.
const MAX_MARK_ENDS: usize = 10_000;

/// The most marked objects of a trace, over all mark ends.
const MAX_MARKS: u32 = 20_000_000;

/// What the lines behind the header said so far.
#[derive(Drop)]
pub(crate) struct Draft {
    /// The processors of the header.
    procs: u8,
    /// The cycles that ended, without the one whose marks may go on.
    cycles: List<Cycle>,
    /// The events of the cycle behind them.
    events: List<Event>,
    /// The distance of the mark end behind these events, while its marks may go on.
    distance: Option<u64>,
    /// The marks of that mark end.
    marks: List<Span>,
    /// The objects before these events, and with them.
    first: u32,
    objects: u32,
    /// How many more objects may be marked, over all mark ends.
    marks_left: u32,
    /// The least object with which the next `m` line may begin.
    next: u32,
    /// So many spans of the mark end before end below that object.
    passed: usize,
}

impl Draft {
    /// Nothing was said yet.
    pub(crate) fn new(alloc: Global, procs: u8) -> Self
        ensures told { told_of result ≡ [] }
        ensures follows { (past : Items Said) → IsStart past procs → Follows past result }
    {
        Draft {
            procs,
            cycles: List::new(alloc),
            events: List::new(alloc),
            distance: None,
            marks: List::new(alloc),
            first: 0,
            objects: 0,
            marks_left: MAX_MARKS,
            next: 0,
            passed: 0,
        }
    }

    /// Takes the next line, if it is not the last one, or tells what is wrong with it. The answer is whether it is the last
    /// one, which changes nothing. The line stands before `end`. Nearly all lines are `a` and `m` lines with short numbers:
    /// they are tried first, with the line feed behind them.
    #[inline(always)]
    pub(crate) fn take_line(
        &mut self,
        alloc: Global,
        ahead: &[u8],
        end: usize,
        number: u64,
    ) -> Result<bool, TraceFault>
        requires { end ≤ length ahead.now }
        ensures took { IfOk result (λ last. MatchBool last
            ((said (take end ahead.now) ≡ Some End) × (self.new ≡ self.old))
            (MatchOption (said (take end ahead.now)) ⊥ (λ s. Took self.old self.new s))) }
        ensures no_read { NoReadFault result }
        ensures fault { IfErr result (λ fault. IsOfTrace fault → (past : Items Said) → Follows past self.old → said_fault number past (said (take end ahead.now)) ≡ Some fault) }
    {
        if end < ahead.len() && ahead[end] == b'\n' {
            if let Some(short) = short_alloc(ahead, end) {
                self.take_event(alloc, short.form(), number)?;
                return Ok(false);
            }
            if let Some((lo, hi)) = short_mark(ahead, end) {
                self.take_mark(u128::from(lo), u128::from(hi), number)?;
                return Ok(false);
            }
        }
        self.take_any_line(alloc, &ahead[..end], number)
    }

    // The same of a line of any form. It stands apart, since a whole statement is large to return.
    #[inline(never)]
    fn take_any_line(&mut self, alloc: Global, line: &[u8], number: u64) -> Result<bool, TraceFault>
        ensures took { IfOk result (λ last. MatchBool last
            ((said line.now ≡ Some End) × (self.new ≡ self.old))
            (MatchOption (said line.now) ⊥ (λ s. Took self.old self.new s))) }
        ensures no_read { NoReadFault result }
        ensures fault { IfErr result (λ fault. IsOfTrace fault → (past : Items Said) → Follows past self.old → said_fault number past (said line.now) ≡ Some fault) }
    {
        let said = statement_of(line);
        if matches!(said, Some(Statement::End)) {
            return Ok(true);
        }
        self.take(alloc, said, number)?;
        Ok(false)
    }

    // Takes what the next line says, if it is not the last one, or tells what is wrong with it.
    fn take(
        &mut self,
        alloc: Global,
        said: Option<Statement>,
        number: u64,
    ) -> Result<(), TraceFault>
        requires { said ≢ Some End }
        ensures took { OnOk result (MatchOption said ⊥ (λ s. Took self.old self.new s)) }
        ensures no_read { NoReadFault result }
        ensures fault { IfErr result (λ fault. IsOfTrace fault → (past : Items Said) → Follows past self.old → said_fault number past said ≡ Some fault) }
    {
        match said {
            Some(Statement::Alloc(form)) => self.take_event(alloc, form, number),
            Some(Statement::Gc(distance)) => self.take_mark_end(alloc, distance, number),
            Some(Statement::Mark(lo, hi)) => self.take_mark(lo, hi, number),
            _ => Err(TraceFault::Malformed(number)),
        }
    }

    /// The cycles of the whole trace.
    pub(crate) fn finish(mut self, alloc: Global) -> Result<List<Cycle>, NoMemory>
        ensures told { IfOk result (λ cycles. flat_map cycle_statements cycles ≡ told_of self) }
        ensures ended { IfOk result (λ cycles. AllByRecursion HasEnd self.cycles → AreEnded cycles) }
    {
        self.end_cycle(alloc)?;
        let Draft {
            mut cycles,
            events,
            ..
        } = self;
        cycles.push(Cycle { events, mark: None })?;
        Ok(cycles)
    }

    // Takes an `a` line.
    #[inline(always)]
    fn take_event(&mut self, alloc: Global, form: AllocForm, number: u64) -> Result<(), TraceFault>
        ensures took { OnOk result (Took self.old self.new (Alloc form)) }
        ensures no_read { NoReadFault result }
        ensures fault { IfErr result (λ fault. IsOfTrace fault → (past : Items Said) → Follows past self.old → said_fault number past (Some (Alloc form)) ≡ Some fault) }
    {
        let event = limited_event(form, number, self.procs)?;
        if self.objects >= MAX_OBJECTS {
            return Err(TraceFault::Limit(number, Which::Objects));
        }
        self.end_cycle(alloc)?;
        self.events.push(event)?;
        self.objects += 1;
        Ok(())
    }

    // Takes a `gc` line. The new marks get room for as many as the mark end before has: the cycles of one trace are alike, so
    // they need not move as they grow. All that was asked for so is at most as much as was read.
    fn take_mark_end(
        &mut self,
        alloc: Global,
        distance: u128,
        number: u64,
    ) -> Result<(), TraceFault>
        ensures took { OnOk result (Took self.old self.new (Gc distance)) }
        ensures no_read { NoReadFault result }
        ensures fault { IfErr result (λ fault. IsOfTrace fault → (past : Items Said) → Follows past self.old → said_fault number past (Some (Gc distance)) ≡ Some fault) }
    {
        let distance = limited_distance(distance, number)?;
        self.end_cycle(alloc)?;
        if self.cycles.len() >= MAX_MARK_ENDS {
            return Err(TraceFault::Limit(number, Which::MarkEnds));
        }
        let marks = List::with_room(alloc, kept_by(self.cycles.as_slice()).len())?;
        self.distance = Some(distance);
        self.marks = marks;
        self.next = 0;
        self.passed = 0;
        Ok(())
    }

    // Takes an `m` line.
    #[inline(always)]
    fn take_mark(&mut self, lo: u128, hi: u128, number: u64) -> Result<(), TraceFault>
        ensures took { OnOk result (Took self.old self.new (Mark lo hi)) }
        ensures no_read { NoReadFault result }
        ensures fault { IfErr result (λ fault. IsOfTrace fault → (past : Items Said) → Follows past self.old → said_fault number past (Some (Mark lo hi)) ≡ Some fault) }
    {
        if self.distance.is_none() || hi < lo || lo < u128::from(self.next) {
            return Err(TraceFault::Malformed(number));
        }
        let span = limited_span(lo, hi, number)?;
        let count = span.hi - span.lo + 1;
        if count > self.marks_left {
            return Err(TraceFault::Limit(number, Which::Marks));
        }
        let kept = kept_by(self.cycles.as_slice());
        let (passed, dead) = first_dead(kept, self.passed, self.first, self.objects, span);
        if let Some(id) = dead {
            return Err(TraceFault::BadMark(number, id));
        }
        self.marks.push(span)?;
        self.marks_left -= count;
        self.next = span.hi + 1;
        self.passed = passed;
        Ok(())
    }

    // Ends the cycle whose marks could go on, if there is one.
    #[inline(always)]
    fn end_cycle(&mut self, alloc: Global) -> Result<(), NoMemory>
        ensures { OnOk result (self.new ≡ ended self.old) }
    {
        let Some(distance) = self.distance else {
            return Ok(());
        };
        self.end_cycle_at(alloc, distance)
    }

    // Ends the cycle with a mark end of this distance. The next events get room for as many as this cycle has, for the same reason
    // as the marks of a `gc` line.
    #[inline(never)]
    fn end_cycle_at(&mut self, alloc: Global, distance: u64) -> Result<(), NoMemory>
        ensures { OnOk result (self.new ≡ ended_at self.old (Some distance)) }
    {
        let room = List::with_room(alloc, self.events.len())?;
        let events = replace(&mut self.events, room);
        let marks = replace(&mut self.marks, List::new(alloc));
        let mark = Some(MarkEnd { distance, marks });
        self.cycles.push(Cycle { events, mark })?;
        self.distance = None;
        self.first = self.objects;
        Ok(())
    }
}

// The marks of the mark end of the last cycle.
fn kept_by(cycles: &[Cycle]) -> &[Span]
    ensures { result.now ≡ kept_of cycles.now }
{
    let Some(last) = cycles.last() else {
        return &[];
    };
    let Some(end) = &last.mark else {
        return &[];
    };
    end.marks.as_slice()
}
