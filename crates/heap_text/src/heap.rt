//! The heap profile of a trace and its answers.

ghost use Rattle.std.specs.Prelude.{◌≡◌, length, IfOk};
ghost use Rattle.trace_reader.specs.Limits.{events_of};
ghost use Rattle.cycle_history.specs.Before.{IsLimited};
ghost use Rattle.cycle_history.specs.Counted.{AreZeros};
ghost use Rattle.heap_text.specs.Lawful.{IsLawful};
ghost use Rattle.heap_text.specs.Published.{IsHeapOf};

use crate::HeapText;
use crate::counts::counts_of;
use crate::order::lines_of;
use cycle_history::Answer;
use edge_io::{List, NoMemory};
use profile_cycle::Buckets;
use std::alloc::Global;
use trace_reader::Trace;

/// What is published of each bucket as of the last mark end: the sampled objects that were allocated before it, and those of them that
/// it marks, which are in use. There is one answer for each object, zero exactly where its size is 0. It takes time in the objects and
/// the marks, and for the order a logarithm more in the buckets.
pub fn heap_of(alloc: Global, trace: &Trace, answers: &List<Answer>) -> Result<HeapText, NoMemory>
    requires limited { IsLimited trace.now }
    requires answers { length answers.now ≡ length (events_of trace.now) }
    requires zeros { AreZeros trace.now answers.now }
    ensures heap { IfOk result (λ heap. IsHeapOf trace.now answers.now heap) }
    ensures lawful { IfOk result (λ heap. IsLawful heap) }
{
    let buckets = Buckets::of_trace(alloc, trace)?;
    let counts = counts_of(alloc, trace, answers.as_slice(), &buckets)?;
    let lines = lines_of(alloc, &buckets, counts.as_slice())?;
    Ok(HeapText {
        twice: 2 * trace.header.rate,
        lines,
    })
}
