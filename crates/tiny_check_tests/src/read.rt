//! Traces and reports from texts.

ghost use Rattle.std.specs.Prelude.{◌≡◌, length, IfOk};
ghost use Rattle.trace_reader.specs.Limits.{events_of};
ghost use Rattle.cycle_history.specs.Before.{IsLimited};
ghost use Rattle.tiny_alloc.specs.Base.{as_version_2};

use cycle_history::Report;
use edge_io::{Lines, List, MemorySource};
use report_text::read_report;
use std::alloc::Global;
use std::test::Fail;
use trace_reader::{Trace, read_trace};

/// A trace of version 3, of one chunk, with this sampling rate and these lines.
pub(crate) fn trace_of(alloc: Global, procs: u32, rate: u32, lines: &str) -> Result<Trace, Fail>
    ensures { IfOk result IsLimited }
{
    let text = format!(in alloc;
        "goheap 3\nheap 1 procs {procs} rate {rate} seed 1 goal 512\n{lines}end\n"
    )?;
    let bytes = List::from_vec(text.as_bytes().to_vec(alloc)?);
    let mut source = MemorySource::new(bytes, List::new(alloc));
    let mut lines = Lines::new(&mut source, 67_108_864);
    Ok(read_trace(alloc, &mut lines)?)
}

/// The report with these lines before its last one.
pub(crate) fn report_of(alloc: Global, lines: &str) -> Result<Report, Fail> {
    let text = format!(in alloc; "{lines}end\n")?;
    let bytes = List::from_vec(text.as_bytes().to_vec(alloc)?);
    let mut source = MemorySource::new(bytes, List::new(alloc));
    let mut lines = Lines::new(&mut source, 67_108_864);
    match read_report(alloc, &mut lines) {
        Ok(report) => Ok(report),
        Err(_) => Err("no report".into()),
    }
}

/// How many objects the trace has.
pub(crate) fn objects(trace: &Trace) -> usize
    requires { IsLimited (as_version_2 trace.now) }
    ensures { result ≡ length (events_of trace.now) }
{
    let cycles = trace.cycles.as_slice();
    let mut count = 0;
    for cycle in 0..cycles.len() {
        count += cycles[cycle].events.len();
    }
    count
}
