//! The last cycle in which each object lives.

ghost use Rattle.std.specs.Prelude.{◌≡◌, ◌++◌, ◌<◌, ◌≤◌, true, length, map, List as Things, IfOk, OnOk};
ghost use Rattle.trace_reader.specs.declared.trace.Event.{Event as AnEvent};
ghost use Rattle.cycle_history.specs.declared.Report.{Report as AReport};
ghost use Rattle.cycle_history.specs.Before.{IsLimited};
ghost use Rattle.cycle_history.specs.Requests.{is_within, requests_from};
ghost use Rattle.cycle_history.specs.Sound.{HasAnswers};
ghost use Rattle.report_check.specs.declared.items.Item.{Item as Entry};
ghost use Rattle.report_check.specs.Items.{objects_of};
ghost use Rattle.report_check.specs.Lasts.{AreLasts, AreSet, cycle_asked};

use crate::items::Item;
use cycle_history::spans_at;
use edge_io::NoMemory;
use std::alloc::Global;
use trace_reader::{Event, Span, Trace};

/// The last cycle in which each object lives if it is placed: its own, or the last one whose mark end marks it. The trace alone
/// tells it, whatever a report answers. It takes time in the objects and the marks.
pub fn lasts_of(alloc: Global, trace: &Trace) -> Result<Vec<u32>, NoMemory>
    requires limited { IsLimited trace.now }
    ensures { IfOk result (λ lasts. (report : AReport) (items : Things Entry) → HasAnswers trace.now report (objects_of items)
        → AreLasts trace.now items lasts.items) }
{
    let mut lasts = asked_cycles(alloc, trace)?;
    for mark in 1..trace.cycles.len() as u32 {
        note_marks(&mut lasts, spans_at(trace, mark), mark);
    }
    Ok(lasts)
}

// The cycle of each event.
fn asked_cycles(alloc: Global, trace: &Trace) -> Result<Vec<u32>, NoMemory>
    requires { length trace.now.cycles ≤ 10001 }
    ensures { IfOk result (λ cycles. cycles.items ≡ map cycle_asked (requests_from 0 trace.now.cycles)) }
{
    let mut cycles = Vec::new(alloc);
    let mut cycle = 0;
    for part in trace.cycles.as_slice() {
        add_cycles(&mut cycles, cycle, part.events.as_slice())?;
        cycle += 1;
    }
    Ok(cycles)
}

// Adds the cycle of each of its events.
fn add_cycles(cycles: &mut Vec<u32>, cycle: u32, events: &[Event]) -> Result<(), NoMemory>
    ensures { OnOk result (cycles.new.items ≡ cycles.old.items ++ map (λ (e : AnEvent). cycle) events.now) }
{
    for _event in events {
        cycles.push(cycle)?;
    }
    Ok(())
}

/// The cycle of each object.
pub(crate) fn own_cycles(alloc: Global, items: &[Item]) -> Result<Vec<u32>, NoMemory>
    ensures { IfOk result (λ cycles. cycles.items ≡ map (λ (item : Entry). item.cycle) items.now) }
{
    let mut cycles = Vec::new(alloc);
    for item in items {
        cycles.push(item.cycle)?;
    }
    Ok(cycles)
}

// Notes for each object that the spans have that this mark end marks it.
fn note_marks(lasts: &mut [u32], spans: &[Span], mark: u32)
    ensures { AreSet (λ i. is_within spans.now i ≡ true) mark lasts.old lasts.new }
{
    for span in spans {
        set_range(lasts, span.lo as usize, span.hi as usize + 1, mark);
    }
}

// Sets the entries from low up to high to the number.
fn set_range(numbers: &mut [u32], low: usize, high: usize, value: u32)
    ensures { AreSet (λ i. (low ≤ i) × (i < high)) value numbers.old numbers.new }
{
    for place in low..high {
        if place >= numbers.len() {
            return;
        }
        numbers[place] = value;
    }
}
