//! The base of a trace as a run goes on.

ghost use Rattle.std.specs.Prelude.{◌≡◌, ◌+◌, ◌<◌, ◌++◌, List as Items, [], ◌∷◌, length, take, drop, IfOk, OnOk};
ghost use Rattle.std.specs.List.{flat_map};
ghost use Rattle.trace_reader.specs.declared.trace.Cycle.{Cycle as ACycle};
ghost use Rattle.trace_reader.specs.Limits.{events_of};
ghost use Rattle.cycle_history.specs.Before.{IsLimited, objects_before};
ghost use Rattle.cycle_history.specs.Requests.{last_cycle};
ghost use Rattle.tiny_alloc.specs.Riders.{part_at};
ghost use Rattle.tiny_alloc.specs.Base.{as_version_2, based_answers as answers_by};
ghost use Rattle.tiny_alloc.specs.Growing.{HasGrown, IsGrowing};

use crate::base::{BASE_VERSION, add_answers, based_end, based_events};
use crate::lone::lone_events;
use crate::part::Part;
use crate::parts::{add_parts, blocks_of};
use cycle_history::Answer;
use edge_io::{List, NoMemory};
use std::alloc::Global;
use std::mem::replace;
use trace_reader::{Cycle, MarkEnd, Trace};

/// The base of a trace as a run goes on: that of the cycles that are answered, and behind them the cycle under way. Until it is
/// answered each of its tiny objects has a block of its own.
///
/// Without memory nothing is known of it.
#[derive(Debug, Drop)]
pub struct Growing {
    /// The cycles of the base so far, of version 2. The last one has no mark end yet.
    pub trace: Trace,
    /// The parts of the objects of the cycles that are answered.
    pub parts: Vec<Part>,
}

impl Growing {
    /// As a run begins: cycle 0 is under way.
    pub fn new(alloc: Global, trace: &Trace) -> Result<Growing, NoMemory>
        requires limited { IsLimited (as_version_2 trace.now) }
        ensures growing { IfOk result (HasGrown trace.now [] 0 0) }
    {
        let mut header = trace.header;
        header.version = BASE_VERSION;
        let mut cycles = List::new(alloc);
        let events = trace.cycles.as_slice()[0].events.as_slice();
        cycles.push(Cycle {
            events: lone_events(alloc, events)?,
            mark: None,
        })?;
        Ok(Growing {
            trace: Trace { header, cycles },
            parts: Vec::new(alloc),
        })
    }

    /// Takes the answers of the cycle under way, which end those that are printed so far. The cycle's events become those of the
    /// base, and the base's answers of its objects go behind `based`.
    ///
    /// It takes time in the objects of the cycle.
    pub fn answer_cycle(
        &mut self,
        alloc: Global,
        trace: &Trace,
        answers: &[Answer],
        based: &mut List<Answer>,
    ) -> Result<(), NoMemory>
        // the trace, its base so far, and the answers
        requires limited { IsLimited (as_version_2 trace.now) }
        requires growing { HasGrown trace.now answers.now (last_cycle self.old.trace) (last_cycle self.old.trace) self.old }
        requires answers { length answers.now ≡ objects_before trace.now (last_cycle self.old.trace + 1) }

        // the base behind it, and its answers
        ensures growing { OnOk result (HasGrown trace.now answers.now (last_cycle self.old.trace) (last_cycle self.old.trace + 1) self.new) }
        ensures done { OnOk result (take (last_cycle self.old.trace) self.new.trace.cycles ≡ take (last_cycle self.old.trace) self.old.trace.cycles) }
        ensures based { OnOk result (based.new ≡ based.old ++ answers_by (part_at trace.now answers.now)
            (objects_before trace.now (last_cycle self.old.trace)) (drop (objects_before trace.now (last_cycle self.old.trace)) answers.now)) }
    {
        let cycle = self.trace.cycles.len() - 1;
        let first = self.parts.len();
        let mut blocks = blocks_of(alloc, trace.header.procs)?;
        add_parts(trace, cycle, answers, &mut blocks, &mut self.parts)?;
        let events = trace.cycles.as_slice()[cycle].events.as_slice();
        let events = based_events(alloc, events, first, self.parts.as_slice())?;
        add_answers(&answers[first..], first, self.parts.as_slice(), based)?;
        put_last(alloc, &mut self.trace.cycles, Cycle { events, mark: None });
        Ok(())
    }

    /// Ends the cycle that was answered last with its mark end, and the next one is under way.
    ///
    /// It takes time in the marks of that mark end and in the objects of the next cycle; where riders are marked, a logarithm more
    /// in the spans and those riders.
    pub fn next_cycle(&mut self, alloc: Global, trace: &Trace) -> Result<(), NoMemory>
        // the trace, which has a next cycle
        requires limited { IsLimited (as_version_2 trace.now) }
        requires next { last_cycle self.old.trace + 1 < length trace.now.cycles }

        // the base so far
        requires growing { IsGrowing trace.now (last_cycle self.old.trace) self.old.parts.items self.old.trace }
        requires answered { length self.old.parts.items ≡ objects_before trace.now (last_cycle self.old.trace + 1) }

        // the base behind it
        ensures growing { OnOk result (IsGrowing trace.now (last_cycle self.old.trace + 1) self.new.parts.items self.new.trace) }
        ensures parts { OnOk result (self.new.parts.items ≡ self.old.parts.items) }
        ensures done { OnOk result (take (last_cycle self.old.trace) self.new.trace.cycles ≡ take (last_cycle self.old.trace) self.old.trace.cycles) }
        ensures events { OnOk result (flat_map (λ (c : ACycle). c.events) (take (last_cycle self.old.trace + 1) self.new.trace.cycles) ≡ events_of self.old.trace) }
    {
        let cycle = self.trace.cycles.len() - 1;
        let cycles = trace.cycles.as_slice();
        let mark = based_end(alloc, &cycles[cycle].mark, self.parts.as_slice())?;
        let events = lone_events(alloc, cycles[cycle + 1].events.as_slice())?;
        end_last(alloc, &mut self.trace.cycles, mark);
        self.trace.cycles.push(Cycle { events, mark: None })?;
        Ok(())
    }
}

// Puts a cycle in the place of the last one.
fn put_last(alloc: Global, cycles: &mut List<Cycle>, cycle: Cycle)
    requires { 0 < length cycles.old }
    ensures { (front : Items ACycle) (last : ACycle) → cycles.old ≡ front ++ last ∷ [] → cycles.new ≡ front ++ cycle ∷ [] }
{
    let mut items = replace(cycles, List::new(alloc)).into_vec();
    let last = items.len() - 1;
    items[last] = cycle;
    *cycles = List::from_vec(items);
}

// Gives the last cycle this mark end.
fn end_last(alloc: Global, cycles: &mut List<Cycle>, mark: Option<MarkEnd>)
    requires { 0 < length cycles.old }
    ensures { (front : Items ACycle) (last : ACycle) → cycles.old ≡ front ++ last ∷ [] → cycles.new ≡ front ++ record last { mark = mark } ∷ [] }
{
    let mut items = replace(cycles, List::new(alloc)).into_vec();
    let last = items.len() - 1;
    items[last].mark = mark;
    *cycles = List::from_vec(items);
}
