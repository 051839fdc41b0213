//! The base of a trace: the trace by which all is judged but the riders.

ghost use Rattle.std.specs.Prelude.{◌≡◌, ◌+◌, ◌≤◌, ◌++◌, length, IfOk, OnOk};
ghost use Rattle.trace_reader.specs.Limits.{events_of};
ghost use Rattle.cycle_history.specs.Before.{IsLimited};
ghost use Rattle.cycle_history.specs.Requests.{spans_of};
ghost use Rattle.tiny_alloc.specs.Base.{
  AreBased,
  as_version_2,
  based_answer as answer_by,
  based_answers as answers_by,
  based_event as event_by,
  based_events as events_by,
  IsBase,
  IsBaseBy,
  IsBasedEnd,
  riders_below,
};
ghost use Rattle.tiny_alloc.specs.Marks.{AreFair, HaveLeads};
ghost use Rattle.tiny_alloc.specs.Parts.{part_by};

use crate::block::BLOCK;
use crate::marks::based_marks;
use crate::part::{Part, Rider};
use crate::parts::parts_of;
use cycle_history::Answer;
use edge_io::{List, NoMemory};
use std::alloc::Global;
use trace_reader::{Cycle, Event, MarkEnd, Trace};

/// The version of a base.
pub(crate) const BASE_VERSION: u8 = 2;

/// The base of a trace with its answers.
#[derive(Debug, Drop)]
pub struct Based {
    /// The trace, of version 2, in which a lead has 16 bytes and a rider none, and a lead is marked where it or one of its riders is.
    pub trace: Trace,
    /// The answers, in which those of riders are zero.
    pub answers: List<Answer>,
    /// The riders, by their numbers.
    pub riders: List<Rider>,
}

/// The base of a trace with its answers, one for each object.
///
/// It takes time in the objects and the marks; where riders are marked, a logarithm more in the spans and those riders.
pub fn base_of(alloc: Global, trace: &Trace, answers: &List<Answer>) -> Result<Based, NoMemory>
    requires limited { IsLimited (as_version_2 trace.now) }
    requires answers { length answers.now ≡ length (events_of trace.now) }
    ensures base { IfOk result (IsBase trace.now answers.now) }
    ensures limited { IfOk result (λ based. IsLimited based.trace) }
{
    let parts = parts_of(alloc, trace, answers.as_slice())?;
    based_by(alloc, trace, answers.as_slice(), parts.as_slice())
}

// The base by the parts of the objects.
fn based_by(
    alloc: Global,
    trace: &Trace,
    answers: &[Answer],
    parts: &[Part],
) -> Result<Based, NoMemory>
    requires limited { IsLimited (as_version_2 trace.now) }
    requires answers { length answers.now ≡ length parts.now }
    requires parts { length parts.now ≡ length (events_of trace.now) }
    requires leads { HaveLeads (part_by parts.now) }
    ensures { IfOk result (IsBaseBy (part_by parts.now) trace.now answers.now) }
{
    let mut header = trace.header;
    header.version = BASE_VERSION;
    let mut printed = List::new(alloc);
    add_answers(answers, 0, parts, &mut printed)?;
    Ok(Based {
        trace: Trace {
            header,
            cycles: based_cycles(alloc, trace, parts)?,
        },
        answers: printed,
        riders: riders_of(alloc, parts)?,
    })
}

// Its cycles.
pub(crate) fn based_cycles(
    alloc: Global,
    trace: &Trace,
    parts: &[Part],
) -> Result<List<Cycle>, NoMemory>
    requires limited { IsLimited (as_version_2 trace.now) }
    requires parts { length parts.now ≡ length (events_of trace.now) }
    requires leads { HaveLeads (part_by parts.now) }
    ensures { IfOk result (AreBased (part_by parts.now) 0 trace.now.cycles) }
{
    let mut cycles = List::new(alloc);
    let mut first = 0;
    for cycle in trace.cycles.as_slice() {
        cycles.push(based_cycle(alloc, cycle, first, parts)?)?;
        first += cycle.events.len();
    }
    Ok(cycles)
}

// A cycle of the base, whose first object has this number.
fn based_cycle(
    alloc: Global,
    cycle: &Cycle,
    first: usize,
    parts: &[Part],
) -> Result<Cycle, NoMemory>
    requires marks { AreFair (spans_of cycle.now.mark) }
    requires inside { first + length cycle.now.events ≤ length parts.now }
    requires few { length parts.now ≤ 1000000 }
    requires leads { HaveLeads (part_by parts.now) }
    ensures events { IfOk result (λ based. based.events ≡ events_by (part_by parts.now) first cycle.now.events) }
    ensures mark { IfOk result (λ based. IsBasedEnd (part_by parts.now) cycle.now.mark based.mark) }
{
    Ok(Cycle {
        events: based_events(alloc, cycle.events.as_slice(), first, parts)?,
        mark: based_end(alloc, &cycle.mark, parts)?,
    })
}

// The mark end of the base where the trace has this one.
pub(crate) fn based_end(
    alloc: Global,
    mark: &Option<MarkEnd>,
    parts: &[Part],
) -> Result<Option<MarkEnd>, NoMemory>
    requires marks { AreFair (spans_of mark.now) }
    requires leads { HaveLeads (part_by parts.now) }
    ensures { IfOk result (IsBasedEnd (part_by parts.now) mark.now) }
{
    let Some(end) = mark else {
        return Ok(None);
    };
    Ok(Some(MarkEnd {
        distance: end.distance,
        marks: based_marks(alloc, end.marks.as_slice(), parts)?,
    }))
}

// The events of such a cycle.
pub(crate) fn based_events(
    alloc: Global,
    events: &[Event],
    first: usize,
    parts: &[Part],
) -> Result<List<Event>, NoMemory>
    requires inside { first + length events.now ≤ length parts.now }
    requires few { length parts.now ≤ 1000000 }
    ensures { IfOk result (λ based. based ≡ events_by (part_by parts.now) first events.now) }
{
    let mut based = List::new(alloc);
    for event in events {
        let number = first + based.len();
        based.push(based_event(parts[number], *event))?;
    }
    Ok(based)
}

// The event of an object: a lead asks for its whole block, and a rider for nothing.
pub(crate) fn based_event(part: Part, mut event: Event) -> Event
    ensures { result ≡ event_by part event }
{
    match part {
        Part::Other => {}
        Part::Lead => event.size = u64::from(BLOCK),
        Part::Ride(_, _) => event.size = 0,
    }
    event
}

// Adds the answers of the base for objects with these, from number `first` on.
pub(crate) fn add_answers(
    answers: &[Answer],
    first: usize,
    parts: &[Part],
    based: &mut List<Answer>,
) -> Result<(), NoMemory>
    requires inside { first + length answers.now ≤ length parts.now }
    requires few { length parts.now ≤ 1000000 }
    ensures { OnOk result (based.new ≡ based.old ++ answers_by (part_by parts.now) first answers.now) }
{
    for place in 0..answers.len() {
        based.push(based_answer(parts[first + place], answers[place]))?;
    }
    Ok(())
}

// The answer of an object: a rider has none of its own.
fn based_answer(part: Part, answer: Answer) -> Answer
    ensures { result ≡ answer_by part answer }
{
    match part {
        Part::Ride(_, _) => Answer::Zero,
        _ => answer,
    }
}

// The riders.
fn riders_of(alloc: Global, parts: &[Part]) -> Result<List<Rider>, NoMemory>
    requires { length parts.now ≤ 1000000 }
    ensures { IfOk result (λ riders. riders ≡ riders_below (part_by parts.now) (length parts.now)) }
{
    let mut riders = List::new(alloc);
    for object in 0..parts.len() {
        if let Part::Ride(lead, offset) = parts[object] {
            riders.push(Rider {
                object: object as u32,
                lead,
                offset,
            })?;
        }
    }
    Ok(riders)
}
