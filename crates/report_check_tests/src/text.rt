//! Traces and reports of the tables, read from their text.

ghost use Rattle.std.specs.Prelude.{IfOk};
ghost use Rattle.cycle_history.specs.Before.{IsLimited};

use cycle_history::Report;
use edge_io::{Lines, List, MemorySource};
use report_text::read_report;
use std::alloc::Global;
use std::test::Fail;
use trace_reader::{Trace, read_trace};

/// What a table says of the first two lines of a trace. Each is of one chunk, and its seed is 1.
#[derive(Clone, Copy)]
pub(crate) struct Heading {
    pub version: u32,
    pub procs: u32,
    pub rate: u32,
    pub goal: u32,
}

/// One processor, where nothing is sampled and nothing released.
pub(crate) const PLAIN: Heading = Heading {
    version: 1,
    procs: 1,
    rate: 0,
    goal: 512,
};

/// The trace with these lines behind the heading.
pub(crate) fn trace_of(alloc: Global, heading: Heading, lines: &str) -> Result<Trace, Fail>
    ensures { IfOk result IsLimited }
{
    let Heading {
        version,
        procs,
        rate,
        goal,
    } = heading;
    let text = format!(in alloc;
        "goheap {version}\nheap 1 procs {procs} rate {rate} seed 1 goal {goal}\n{lines}end\n"
    )?;
    let bytes = List::from_vec(text.as_bytes().to_vec(alloc)?);
    let mut source = MemorySource::new(bytes, List::new(alloc));
    let mut lines = Lines::new(&mut source, 67_108_864);
    Ok(read_trace(alloc, &mut lines)?)
}

/// The report with these lines before its last one.
pub(crate) fn report_of(alloc: Global, lines: &str) -> Result<Report, Fail> {
    let text = format!(in alloc; "{lines}end\n")?;
    let bytes = List::from_vec(text.as_bytes().to_vec(alloc)?);
    let mut source = MemorySource::new(bytes, List::new(alloc));
    let mut lines = Lines::new(&mut source, 67_108_864);
    match read_report(alloc, &mut lines) {
        Ok(report) => Ok(report),
        Err(_) => Err("no report".into()),
    }
}
