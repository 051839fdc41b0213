//! The heap profile of a trace that stands before its report.

ghost use Rattle.std.specs.Prelude.{◌≡◌, ◌⊎◌, IfErr, IfOk};
ghost use Rattle.std.specs.Io.KnownBytes.{Appends};
ghost use Rattle.edge_io.specs.Causes.{Rose};
ghost use Rattle.edge_io.specs.Front.{AppendsFront};
ghost use Rattle.cycle_history.specs.Before.{IsLimited};
ghost use Rattle.report_check.specs.Versions.{BreaksVersion, MeetsVersion};
ghost use Rattle.commands.specs.Judged.{Stops};
ghost use Rattle.commands.specs.Pair.{BreaksOff, HasReadCause, IsReadFault};
ghost use Rattle.heap_text.specs.Lawful.{IsLawful};
ghost use Rattle.heap_text.specs.Text.{heap_text};
ghost use Rattle.commands.specs.Texts.{status_text};
ghost use Rattle.commands.specs.Told.{Tells};
ghost use Rattle.commands.specs.Heaped.{Heaped, IsHeapOfVersion, MakesHeap};

use crate::pair::read_pair;
use crate::refusals::{refuse_pair, stop_writing};
use crate::stop::{Stop, Verdict};
use cycle_history::{Report, TINY_VERSION};
use edge_io::{NoMemory, Sink, Source};
use heap_text::{HeapText, heap_of, write_heap};
use report_check::{CheckFault, check_version};
use std::alloc::Global;
use tiny_alloc::base_of;
use trace_reader::Trace;

/// Reads a trace, and behind it a report, judges the report, and where it is sound writes the heap profile as of the last mark end.
/// Answers the exit status.
pub fn show_heap<S: Source, K: Sink, E: Sink>(
    alloc: Global,
    input: &mut S,
    output: &mut K,
    errors: &mut E,
) -> u8
    ensures { Heaped S.left S.faults K.held K.faults E.held E.faults input.old input.new output.old output.new errors.old errors.new result }
{
    match heap_in(alloc, input) {
        Ok(heap) => write_text(&heap, output, errors),
        Err(stop) => refuse_pair(errors, stop),
    }
}

// The heap profile of the trace and the report that stands behind it, where the report is sound.
fn heap_in<S: Source>(alloc: Global, input: &mut S) -> Result<HeapText, Stop>
    ensures makes { IfOk result (λ heap. MakesHeap (S.left input.old) (S.left input.new) heap) }
    ensures lawful { IfOk result (λ heap. IsLawful heap) }
    ensures stopped { IfErr result (Stops BreaksVersion (S.left input.old) (S.left input.new)) }
    ensures broken_off { IfErr result (λ stop. IsReadFault stop → BreaksOff (S.left input.old) (S.left input.new)) }
    ensures cause { HasReadCause (S.faults input.old) (S.faults input.new) result }
{
    let (trace, report) = read_pair(alloc, input)?;
    match check_version(alloc, &trace, &report) {
        Ok(()) => {}
        Err(CheckFault::Broken { rule, line }) => {
            return Err(Stop::Verdict(Verdict::Broken { rule, line }));
        }
        Err(CheckFault::NoMemory) => return Err(Stop::Verdict(Verdict::NoMemory)),
    }
    match heap_by_version(alloc, &trace, &report) {
        Ok(heap) => Ok(heap),
        Err(NoMemory) => Err(Stop::Verdict(Verdict::NoMemory)),
    }
}

// The heap profile of a sound report: of a trace with tiny objects it is that of the base.
fn heap_by_version(alloc: Global, trace: &Trace, report: &Report) -> Result<HeapText, NoMemory>
    requires limited { IsLimited trace.now }
    requires sound { MeetsVersion trace.now report.now }
    ensures heap { IfOk result (IsHeapOfVersion trace.now report.now.answers) }
    ensures lawful { IfOk result (λ heap. IsLawful heap) }
{
    if trace.header.version < TINY_VERSION {
        return heap_of(alloc, trace, &report.answers);
    }
    let base = base_of(alloc, trace, &report.answers)?;
    heap_of(alloc, &base.trace, &base.answers)
}

// Writes the profile's text.
fn write_text<K: Sink, E: Sink>(heap: &HeapText, output: &mut K, errors: &mut E) -> u8
    // what is known of the profile
    requires lawful { IsLawful heap.now }

    // the statuses, and what a written text is
    ensures status { (result ≡ 0) ⊎ (result ≡ 6) }
    ensures answered { result ≡ 0 → Appends (K.held output.old) (K.held output.new) (heap_text heap.now) }
    ensures silent { result ≡ 0 → errors.new ≡ errors.old }

    // what a failed write leaves
    ensures write_fault { result ≡ 6 → Rose (K.faults output.old) (K.faults output.new) }
    ensures partly_written { result ≡ 6 → AppendsFront (K.held output.old) (K.held output.new) (heap_text heap.now) }
    ensures told { result ≡ 6 → Tells E.held E.faults errors.old errors.new (status_text 6) }
{
    match write_heap(output, heap) {
        Ok(()) => 0,
        Err(_) => stop_writing(errors),
    }
}
