//! The work that is timed.

ghost use Rattle.std.specs.Prelude.{length, OnOk};
ghost use Rattle.trace_reader.specs.Limits.{events_of};
ghost use Rattle.cycle_history.specs.Before.{IsLimited};
ghost use Rattle.bench.specs.Filled.{AreFilled};

use crate::history::answers::grow;
use cycle_history::{Answer, totals_of};
use edge_io::{List, NoMemory};
use std::alloc::Global;
use trace_reader::Trace;

/// How far to go.
#[derive(Clone, Copy, PartialEq, Eq)]
pub enum Work {
    Lists,
    Totals,
}

/// What was found.
#[derive(Clone, Copy, Debug)]
pub struct Sums {
    pub objects: usize,
    pub classes: usize,
}

/// The objects of the trace, and the size classes if they are wanted.
pub fn sums_of(alloc: Global, trace: &Trace, work: Work) -> Result<Sums, NoMemory>
    requires { IsLimited trace.now }
{
    let mut answers = List::new(alloc);
    fill(trace, &mut answers)?;
    let classes = if work == Work::Totals {
        totals_of(alloc, trace, &answers)?.len()
    } else {
        0
    };
    Ok(Sums {
        objects: answers.len(),
        classes,
    })
}

// Makes the answers of all objects.
fn fill(trace: &Trace, answers: &mut List<Answer>) -> Result<(), NoMemory>
    requires limited { IsLimited trace.now }
    requires none { AreFilled trace.now 0 answers.old }
    ensures { OnOk result (AreFilled trace.now (length (events_of trace.now)) answers.new) }
{
    for cycle in 0..trace.cycles.len() {
        grow(answers, trace, cycle)?;
    }
    Ok(())
}
