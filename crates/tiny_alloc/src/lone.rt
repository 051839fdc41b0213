//! A trace as if each of its tiny objects had a block of its own.

ghost use Rattle.std.specs.Prelude.{◌≡◌, ◌++◌, map, IfOk, OnOk};
ghost use Rattle.std.specs.List.{flat_map};
ghost use Rattle.trace_reader.specs.declared.trace.Cycle.{Cycle as ACycle};
ghost use Rattle.trace_reader.specs.Limits.{events_of};
ghost use Rattle.cycle_history.specs.Before.{IsLimited};
ghost use Rattle.tiny_alloc.specs.Base.{as_version_2};
ghost use Rattle.tiny_alloc.specs.Growing.{
  lone_event as event_of,
  lone_events as events_alone,
  lone_part as part_of,
};

use crate::base::{BASE_VERSION, based_cycles, based_event};
use crate::part::Part;
use crate::parts::is_tiny;
use edge_io::{List, NoMemory};
use std::alloc::Global;
use trace_reader::{Cycle, Event, Trace};

/// The trace, as one of version 2, in which each tiny object has 16 bytes. Its marks are those of the trace, in their one spelling.
///
/// It takes time in the objects and the marks.
pub fn all_leads(alloc: Global, trace: &Trace) -> Result<Trace, NoMemory>
    requires limited { IsLimited (as_version_2 trace.now) }
    ensures header { IfOk result (λ leads. leads.header ≡ (as_version_2 trace.now).header) }
    ensures events { IfOk result (λ leads. events_of leads ≡ events_alone (events_of trace.now)) }
    ensures limited { IfOk result (λ leads. IsLimited leads) }
{
    let parts = lone_parts(alloc, trace.cycles.as_slice())?;
    let mut header = trace.header;
    header.version = BASE_VERSION;
    Ok(Trace {
        header,
        cycles: based_cycles(alloc, trace, parts.as_slice())?,
    })
}

// The parts of the objects of these cycles.
fn lone_parts(alloc: Global, cycles: &[Cycle]) -> Result<Vec<Part>, NoMemory>
    ensures { IfOk result (λ parts. parts.items ≡ map part_of (flat_map (λ (c : ACycle). c.events) cycles.now)) }
{
    let mut parts = Vec::new(alloc);
    for cycle in cycles {
        add_lone_parts(cycle.events.as_slice(), &mut parts)?;
    }
    Ok(parts)
}

// Adds the parts of these objects.
fn add_lone_parts(events: &[Event], parts: &mut Vec<Part>) -> Result<(), NoMemory>
    ensures { OnOk result (parts.new.items ≡ parts.old.items ++ map part_of events.now) }
{
    for event in events {
        parts.push(lone_part(*event))?;
    }
    Ok(())
}

// The part of an object as if each tiny one had a block of its own.
fn lone_part(event: Event) -> Part
    ensures { result ≡ part_of event }
{
    if is_tiny(event) {
        Part::Lead
    } else {
        Part::Other
    }
}

// The events of such objects.
pub(crate) fn lone_events(alloc: Global, events: &[Event]) -> Result<List<Event>, NoMemory>
    ensures { IfOk result (λ lone. lone ≡ events_alone events.now) }
{
    let mut lone = List::new(alloc);
    for event in events {
        lone.push(lone_event(*event))?;
    }
    Ok(lone)
}

fn lone_event(event: Event) -> Event
    ensures { result ≡ event_of event }
{
    based_event(lone_part(event), event)
}
