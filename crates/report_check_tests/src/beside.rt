//! The judge in pieces beside the judge of the whole, with 1, 2, 3 and 64 pieces.

ghost use Rattle.cycle_history.specs.Before.{IsLimited};

use check_parallel::check_parallel;
use cycle_history::Report;
use report_check::{CheckFault, Pieces, check};
use std::process::Abort;
use std::test::Fail;
use std::thread::Threads;
use trace_reader::Trace;

/// Whether the judge in pieces answers what the judge of the whole answers.
pub(crate) fn agree<R: Abort + AllocGlobal + Threads + Sync>(
    rt: &R,
    trace: &Trace,
    report: &Report,
) -> Result<(), Fail>
    requires { IsLimited trace.now }
{
    let whole = check(rt.alloc(), trace, report);
    agree_in(rt, trace, report, whole, Pieces { count: 1 })?;
    agree_in(rt, trace, report, whole, Pieces { count: 2 })?;
    agree_in(rt, trace, report, whole, Pieces { count: 3 })?;
    agree_in(rt, trace, report, whole, Pieces { count: 64 })
}

fn agree_in<R: Abort + AllocGlobal + Threads + Sync>(
    rt: &R,
    trace: &Trace,
    report: &Report,
    whole: Result<(), CheckFault>,
    pieces: Pieces,
) -> Result<(), Fail>
    requires limited { IsLimited trace.now }
{
    let found = check_parallel(rt, rt.alloc(), trace, report, pieces);
    let count = pieces.count;
    assert_eq!(rt; found, whole, "{count} pieces");
    Ok(())
}
