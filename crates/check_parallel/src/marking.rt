//! Whether the lives of marked objects are still there, in parts of the cycles.

ghost use Rattle.std.specs.Prelude.{◌≡◌, ◌≤◌, true, IfOk};
ghost use Rattle.std.specs.Thread.{IsSync};
ghost use Rattle.check_parallel.specs.Seating.{KeepsIn, MayKeep};

use cycle_history::spans_at;
use edge_io::NoMemory;
use report_check::{Item, Opened, ReportView, first_lost};
use std::alloc::Global;
use std::thread::{Threads, join};
use trace_reader::Trace;

/// Whether the objects that the mark ends of the cycles from low up to high mark have their lives still, by so many parts of the
/// cycles.
#[cycle(keeps)]
pub(crate) fn keep_lives<R: Threads + Sync>(
    rt: &R,
    alloc: Global,
    trace: &Trace,
    report: &ReportView,
    items: &[Item],
    low: u32,
    high: u32,
    pieces: u32,
) -> Result<bool, NoMemory>
    requires { MayKeep trace.now report.now items.now low high }
    ensures { IfOk result (λ all. all ≡ true → KeepsIn trace.now report.now items.now low high) }
{
    if pieces < 2 {
        return keep_lives_in(alloc, trace, report, items, low, high);
    }
    let half = pieces / 2;
    let middle = low + (high - low) / 2;
    let front = || -> Result<bool, NoMemory>
        requires { IsSync R.row × MayKeep trace.now report.now items.now low middle }
        ensures { IfOk result (λ all. all ≡ true → KeepsIn trace.entry.now report.entry.now items.entry.now low middle) }
    { keep_lives(rt, alloc, trace, report, items, low, middle, half) };
    let back = || -> Result<bool, NoMemory>
        requires { IsSync R.row × (half ≤ pieces) × MayKeep trace.now report.now items.now middle high }
        ensures { IfOk result (λ all. all ≡ true → KeepsIn trace.entry.now report.entry.now items.entry.now middle high) }
    { keep_lives(rt, alloc, trace, report, items, middle, high, pieces - half) };
    let (a, b) = join(rt, front, back);
    if !a? {
        return Ok(false);
    }
    b
}

// The same, cycle by cycle.
fn keep_lives_in(
    alloc: Global,
    trace: &Trace,
    report: &ReportView,
    items: &[Item],
    low: u32,
    high: u32,
) -> Result<bool, NoMemory>
    requires { MayKeep trace.now report.now items.now low high }
    ensures { IfOk result (λ all. all ≡ true → KeepsIn trace.now report.now items.now low high) }
{
    let mut opened = Opened::new(alloc, trace)?;
    for cycle in low..high {
        opened.take_up(trace, report, cycle);
        let marked = spans_at(trace, cycle);
        if first_lost(&opened.lives, items, marked, items.len()) < items.len() {
            return Ok(false);
        }
    }
    Ok(true)
}
