//! What a trace asks for, as one list.

ghost use Rattle.std.specs.Prelude.{◌≡◌, ◌≤◌, ◌++◌, length, map, IfOk, OnOk};
ghost use Rattle.report_check.specs.Items.{AreRequests};
ghost use Rattle.report_check.specs.Asked.{asked_in};

use edge_io::{List, NoMemory};
use std::alloc::Global;
use trace_reader::{Event, Trace};

/// An event with its cycle.
#[derive(Clone, Copy, Debug)]
pub struct Asked {
    /// The cycle in which it is asked for.
    pub cycle: u32,
    /// What is asked for.
    pub event: Event,
}

/// The events of a trace in order, each with its cycle.
pub fn asked_of(alloc: Global, trace: &Trace) -> Result<List<Asked>, NoMemory>
    requires { length trace.now.cycles ≤ 10001 }
    ensures { IfOk result (AreRequests trace.now) }
{
    let mut asked = List::new(alloc);
    let mut cycle = 0;
    for part in trace.cycles.as_slice() {
        add_events(&mut asked, cycle, part.events.as_slice())?;
        cycle += 1;
    }
    Ok(asked)
}

// Adds the events of a cycle.
fn add_events(asked: &mut List<Asked>, cycle: u32, events: &[Event]) -> Result<(), NoMemory>
    ensures { OnOk result (asked.new ≡ asked.old ++ map (asked_in cycle) events.now) }
{
    for event in events {
        asked.push(Asked {
            cycle,
            event: *event,
        })?;
    }
    Ok(())
}
