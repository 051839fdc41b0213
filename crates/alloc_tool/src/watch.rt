//! The words `watch N`: a trace is run before watchers of its profile, and behind its report stands what they saw.

ghost use Rattle.std.specs.Prelude.{◌≡◌, ◌≢◌, ◌≤◌, List, ℕ, Some};
ghost use Rattle.trace_reader.specs.declared.trace.Trace.{Trace as ATrace};
ghost use Rattle.trace_reader.specs.Limits.{Spells};
ghost use Rattle.std.specs.Io.KnownBytes.{Appends};
ghost use Rattle.std.specs.Prelude.{◌++◌, length, OnOk};
ghost use Rattle.edge_io.specs.Causes.{HasCause};
ghost use Rattle.edge_io.specs.Front.{AppendsFront};
ghost use Rattle.cycle_history.specs.Orders.{AreRisingProfile, AreRisingSweeps, AreRisingTotals};
ghost use Rattle.cycle_history.specs.Text.{report_text};
ghost use Rattle.sight_text.specs.Text.{seen_text};
ghost use Rattle.alloc_tool.specs.Outcome.{Outcome};
ghost use Rattle.alloc_tool.specs.Top.{IsStatusOfRun};
ghost use Rattle.alloc_tool.specs.Watch.{IsWatchText};

use commands::{refuse_trace, stop_writing};
use cycle_history::Report;
use edge_io::{Failed, Gate, List, Sink, Source};
use heap_run::{Sight, run_watched};
use report_text::write_report;
use sight_text::write_sights;
use std::alloc::Global;
use std::sync::Wait;
use std::thread::Threads;
use trace_reader::{TraceFault, read_whole};

/// Reads a trace, and writes its report and what so many watchers saw.
pub(crate) fn watch<R: Threads + Wait + Sync, S: Source, K: Sink, E: Sink, G: Gate>(
    rt: &R,
    alloc: Global,
    readers: u32,
    input: &mut S,
    output: &mut K,
    errors: &mut E,
    gate: &G,
) -> u8
    requires some { 1 ≤ readers }
    requires few { readers ≤ 4 }
    ensures outcome { Outcome (IsWatchText readers) S.left S.faults K.held K.faults E.held E.faults input.old input.new output.old output.new errors.old errors.new result }
    ensures status { IsStatusOfRun result }
    ensures complete { (bytes : List ℕ) (trace : ATrace) → S.left input.old ≡ Some bytes → Spells bytes trace → result ≢ 3 }
{
    let trace = match read_whole(alloc, input) {
        Ok(trace) => trace,
        Err(fault) => return refuse_trace(errors, fault),
    };
    let Ok(watched) = run_watched(rt, alloc, &trace, readers, gate) else {
        return refuse_trace(errors, TraceFault::NoMemory);
    };
    match write_seen(output, &watched.ran.report, watched.seen.as_slice()) {
        Ok(()) => 0,
        Err(_) => stop_writing(errors),
    }
}

// Writes the report, and behind it the lines of what watchers saw.
fn write_seen<K: Sink>(output: &mut K, report: &Report, seen: &[List<Sight>]) -> Result<(), Failed>
    // the report
    requires sweeps { AreRisingSweeps report.now.sweeps }
    requires totals { AreRisingTotals report.now.totals }
    requires profile { AreRisingProfile report.now.profile }

    // the watchers
    requires few { length seen.now ≤ 4 }

    // what is written, and why not all of it
    ensures ok { OnOk result (Appends (K.held output.old) (K.held output.new) (report_text report.now ++ seen_text 0 seen.now)) }
    ensures front { AppendsFront (K.held output.old) (K.held output.new) (report_text report.now ++ seen_text 0 seen.now) }
    ensures cause { HasCause (K.faults output.old) (K.faults output.new) result }
{
    write_report(output, report)?;
    write_sights(output, seen)
}
