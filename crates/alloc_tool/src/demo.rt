//! The word `demo`: a made trace is run, its report is judged, and what came of it is written.

ghost use Rattle.trace_gen.specs.Made.{made_trace};
ghost use Rattle.alloc_tool.specs.Demo.{Demos};

use commands::{
    Stop, SummaryFault, Verdict, Wanted, refuse_pair, refuse_trace, stop_writing, write_summary,
};
use edge_io::{Gate, Sink};
use heap_run::{Options, run_trace};
use std::alloc::Global;
use std::sync::Wait;
use std::thread::Threads;
use trace_gen::{a_made_trace_is_within_limits, make_trace};
use trace_reader::TraceFault;

// How the trace is run: with one background sweeper, and for the profile of the last mark end.
const OPTIONS: Options = Options {
    background: 1,
    each: false,
};

/// Makes the trace, runs it, judges the report, and writes the lines that sum it up. The report is never refused.
pub(crate) fn show_run<R: Threads + Wait + Sync, K: Sink, E: Sink, G: Gate>(
    rt: &R,
    alloc: Global,
    wanted: Wanted,
    output: &mut K,
    errors: &mut E,
    gate: &G,
) -> u8
    ensures { Demos (made_trace wanted.seed wanted.objects) K.held K.faults E.held E.faults output.old output.new errors.old errors.new result }
{
    let Ok(trace) = make_trace(alloc, wanted.seed, wanted.objects) else {
        return refuse_trace(errors, TraceFault::NoMemory);
    };
    a_made_trace_is_within_limits();
    let Ok(ran) = run_trace(rt, alloc, &trace, OPTIONS, gate) else {
        return refuse_trace(errors, TraceFault::NoMemory);
    };
    match write_summary(alloc, output, &trace, &ran.report) {
        Ok(()) => 0,
        Err(SummaryFault::Failed) => stop_writing(errors),
        Err(SummaryFault::NoMemory) => refuse_trace(errors, TraceFault::NoMemory),
        Err(SummaryFault::Broken { rule, line }) => {
            refuse_pair(errors, Stop::Verdict(Verdict::Broken { rule, line }))
        }
    }
}
