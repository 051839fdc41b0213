//! A table of traces and reports, for rule 8.

use crate::text::{PLAIN, report_of, trace_of};
use cycle_history::{Report, Total};
use edge_io::List;
use report_check::{CheckFault, ReportView, check_first_rules, judge_totals};
use span_state::SweepNote;
use std::alloc::Global;
use std::process::Abort;
use std::test::Fail;

/// The lines of a trace of one processor and one chunk, and the answers and the journal of a report of it, which meets the
/// rules 1 to 4.
type Case = (&'static str, &'static str);

/// The case, how many sweeps its report has, the totals, each with its class, mallocs and frees, and the first line that
/// breaks rule 8.
type Row = (Case, usize, &'static [(u8, u64, u64)], Option<u64>);

// The report with so many sweeps and these totals.
fn report_with(
    alloc: Global,
    printed: &str,
    sweeps: usize,
    totals: &[(u8, u64, u64)],
) -> Result<Report, Fail> {
    let mut report = report_of(alloc, printed)?;
    let note = SweepNote {
        cycle: 1,
        page: 0,
        kept: 1,
        freed: 0,
    };
    report.sweeps = List::from_vec(vec![in alloc; note; sweeps]?);
    for (class, mallocs, frees) in totals {
        report.totals.push(Total {
            class: *class,
            mallocs: *mallocs,
            frees: *frees,
        })?;
    }
    Ok(report)
}

fn judge<R: Abort + AllocGlobal>(rt: &R, number: usize, row: &Row) -> Result<(), Fail> {
    let ((lines, printed), sweeps, totals, line) = *row;
    let alloc = rt.alloc();
    let trace = trace_of(alloc, PLAIN, lines)?;
    let report = report_with(alloc, printed, sweeps, totals)?;
    if check_first_rules(alloc, &trace, &report).is_err() {
        return Err("the rules 1 to 4 are broken".into());
    }
    let found = match judge_totals(alloc, &trace, &ReportView::of(&report)) {
        Ok(()) => None,
        Err(CheckFault::Broken { line, .. }) => Some(line),
        Err(CheckFault::NoMemory) => return Err("no memory".into()),
    };
    assert_eq!(rt; found, line, "row {number}");
    Ok(())
}

#[test]
fn totals_are_judged(rt: HostRuntime) -> Result<(), Fail> {
    for (number, row) in ROWS.iter().enumerate() {
        judge(&rt, number, row)?;
    }
    Ok(())
}

/// An object of 24 bytes, which is of size class 3.
const ONE: Case = ("a 0 24 s 1\n", "o 0 0xc000000000\nj 0 0 take 0 1 6\n");

/// The same, which its mark end doesn't mark.
const DEAD: Case = ("a 0 24 s 1\ngc 1\n", "o 0 0xc000000000\nj 0 0 take 0 1 6\n");

/// The same, which its mark end marks.
const MARKED: Case = (
    "a 0 24 s 1\ngc 1\nm 0 0\n",
    "o 0 0xc000000000\nj 0 0 take 0 1 6\n",
);

/// An object of size class 3, and one of size class 5.
const TWO: Case = (
    "a 0 24 s 1\na 0 48 s 1\n",
    "o 0 0xc000000000\no 1 0xc000002000\nj 0 0 take 0 1 6\nj 1 0 take 1 1 10\n",
);

/// Two objects of size class 3, of two span classes.
const SAME: Case = (
    "a 0 24 s 1\na 0 17 n 2\n",
    "o 0 0xc000000000\no 1 0xc000002000\nj 0 0 take 0 1 6\nj 1 0 take 1 1 7\n",
);

/// An object of 5 pages.
const LARGE: Case = ("a 0 40960 s 1\n", "o 0 0xc000000000\nj 0 0 take 0 5 0\n");

/// An object of size 0.
const ZERO: Case = ("a 0 0 n 1\n", "o 0 zero\n");

/// An object of 512 pages, and one of size class 1 that is missed.
const MISSED: Case = (
    "a 0 4194304 s 1\na 0 1 s 1\n",
    "o 0 0xc000000000\no 1 miss 1\nj 0 0 take 0 512 0\nj 1 0 miss 1 2\n",
);

/// No object.
const NONE: Case = ("", "");

const ROWS: [Row; 33] = [
    // The totals are right.
    (ONE, 0, &[(3, 1, 0)], None),
    (TWO, 0, &[(3, 1, 0), (5, 1, 0)], None),
    (DEAD, 0, &[(3, 1, 1)], None),
    (MARKED, 0, &[(3, 1, 0)], None),
    (LARGE, 0, &[(0, 1, 0)], None),
    (SAME, 0, &[(3, 2, 0)], None),
    (ZERO, 0, &[], None),
    (MISSED, 0, &[(0, 1, 0)], None),
    (NONE, 0, &[], None),
    // A total isn't right.
    (ONE, 0, &[(3, 2, 0)], Some(3)),
    (ONE, 0, &[(3, 0, 0)], Some(3)),
    (ONE, 0, &[(3, 1, 1)], Some(3)),
    (DEAD, 0, &[(3, 1, 0)], Some(3)),
    (MARKED, 0, &[(3, 1, 1)], Some(3)),
    (TWO, 0, &[(3, 1, 0), (5, 1, 1)], Some(6)),
    (TWO, 0, &[(3, 2, 0), (5, 2, 0)], Some(5)),
    (ONE, 0, &[(3, u64::MAX, u64::MAX)], Some(3)),
    (ONE, 1, &[(3, 2, 0)], Some(4)),
    // A total is of a class that has no placed object.
    (ONE, 0, &[(4, 1, 0)], Some(3)),
    (ONE, 0, &[(3, 1, 0), (4, 0, 0)], Some(4)),
    (ONE, 0, &[(2, 0, 0), (3, 1, 0)], Some(3)),
    (ONE, 0, &[(3, 1, 0), (255, 0, 0)], Some(4)),
    (ZERO, 0, &[(0, 1, 0)], Some(2)),
    (MISSED, 0, &[(0, 1, 0), (1, 1, 0)], Some(6)),
    (NONE, 0, &[(0, 0, 0)], Some(1)),
    // A total is out of order, or stands twice.
    (TWO, 0, &[(5, 1, 0), (3, 1, 0)], Some(6)),
    (ONE, 0, &[(3, 1, 0), (3, 1, 0)], Some(4)),
    (TWO, 0, &[(3, 1, 0), (3, 1, 0), (5, 1, 0)], Some(6)),
    // A total is missing.
    (ONE, 0, &[], Some(3)),
    (ONE, 2, &[], Some(5)),
    (TWO, 0, &[(3, 1, 0)], Some(6)),
    (TWO, 0, &[(5, 1, 0)], Some(6)),
    (TWO, 0, &[(5, 2, 0)], Some(5)),
];
