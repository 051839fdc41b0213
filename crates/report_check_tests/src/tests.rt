//! Tables of traces and reports, for the rules 1 to 4.

use crate::beside::agree;
use crate::text::{Heading, PLAIN, report_of, trace_of};
use crate::{answers, journal, misses, places};
use report_check::{CheckFault, check_first_rules};
use std::process::Abort;
use std::test::Fail;
use std::thread::Threads;

/// The lines of a trace of one processor and one chunk, and its goal; the answers and the journal of a report of it; and the
/// rule and the line that it breaks first.
pub(crate) type Row = (&'static str, u32, &'static str, Option<(u8, u64)>);

fn judge<R: Abort + AllocGlobal + Threads + Sync>(
    rt: &R,
    rule: u32,
    number: usize,
    row: &Row,
) -> Result<(), Fail> {
    let (lines, goal, printed, broken) = *row;
    let alloc = rt.alloc();
    let trace = trace_of(alloc, Heading { goal, ..PLAIN }, lines)?;
    let report = report_of(alloc, printed)?;
    let found = match check_first_rules(alloc, &trace, &report) {
        Ok(()) => None,
        Err(CheckFault::Broken { rule, line }) => Some((rule, line)),
        Err(CheckFault::NoMemory) => return Err("no memory".into()),
    };
    assert_eq!(rt; found, broken, "rule {rule}: row {number}");
    agree(rt, &trace, &report)
}

fn judge_all<R: Abort + AllocGlobal + Threads + Sync>(
    rt: &R,
    rule: u32,
    rows: &[Row],
) -> Result<(), Fail> {
    for (number, row) in rows.iter().enumerate() {
        judge(rt, rule, number, row)?;
    }
    Ok(())
}

#[test]
fn reports_are_judged(rt: HostRuntime) -> Result<(), Fail> {
    judge_all(&rt, 1, &answers::ROWS)?;
    judge_all(&rt, 2, &journal::ROWS)?;
    judge_all(&rt, 3, &misses::ROWS)?;
    judge_all(&rt, 4, &places::ROWS)
}
