//! The totals of a trace from standard input: what `bench/history.sh` times.
//!
//! Object n lies at index 0 of a span at page n, modulo the region's pages. The word is how far to go: `lists` makes the answers
//! alone, and `totals` finds the totals too. The objects and the size classes are answered.

mod answers;
mod work;

use crate::stop::Stop;
use edge_io::{Lines, Source};
use std::alloc::Global;
use trace_reader::read_trace;
pub use work::Sums;
use work::{Work, sums_of};

pub fn asked<S: Source>(
    alloc: Global,
    words: &[String],
    lines: &mut Lines<'_, S>,
) -> Result<Sums, Stop> {
    match words {
        [word] if word.as_str() == "lists" => found(alloc, lines, Work::Lists),
        [word] if word.as_str() == "totals" => found(alloc, lines, Work::Totals),
        _ => Err(Stop::Words),
    }
}

pub fn few<S: Source>(alloc: Global, lines: &mut Lines<'_, S>) -> Result<Sums, Stop> {
    found(alloc, lines, Work::Totals)
}

fn found<S: Source>(alloc: Global, lines: &mut Lines<'_, S>, work: Work) -> Result<Sums, Stop> {
    let Ok(trace) = read_trace(alloc, lines) else {
        return Err(Stop::Trace);
    };
    Ok(sums_of(alloc, &trace, work)?)
}
