//! A table of traces and reports as text, for all rules, where nothing is sampled.

use crate::beside::agree;
use crate::profile::{self, Bucket, ProfileRow};
use crate::text::{Heading, PLAIN, report_of, trace_of};
use cycle_history::{Prof, Report};
use report_check::{CheckFault, check};
use std::alloc::Global;
use std::process::Abort;
use std::test::Fail;
use std::thread::Threads;

/// The lines of a trace of one processor and one chunk, a report of it without its last line, and the rule and the line
/// that it breaks first.
type Row = (&'static str, &'static str, Option<(u8, u64)>);

// A report with these lines of its profile.
fn report_with(alloc: Global, lines: &str, profile: &[Bucket]) -> Result<Report, Fail> {
    let mut report = report_of(alloc, lines)?;
    for (mark, stack, size, allocs, frees) in profile {
        report.profile.push(Prof {
            mark: *mark,
            stack: *stack,
            size: *size,
            allocs: *allocs,
            frees: *frees,
        })?;
    }
    Ok(report)
}

fn judge<R: Abort + AllocGlobal + Threads + Sync>(
    rt: &R,
    rate: u32,
    number: usize,
    row: &ProfileRow,
) -> Result<(), Fail> {
    let (lines, printed, buckets, broken) = *row;
    let alloc = rt.alloc();
    let trace = trace_of(alloc, Heading { rate, ..PLAIN }, lines)?;
    let report = report_with(alloc, printed, buckets)?;
    let found = match check(alloc, &trace, &report) {
        Ok(()) => None,
        Err(CheckFault::Broken { rule, line }) => Some((rule, line)),
        Err(CheckFault::NoMemory) => return Err("no memory".into()),
    };
    assert_eq!(rt; found, broken, "rate {rate}: row {number}");
    agree(rt, &trace, &report)
}

#[test]
fn whole_reports_are_judged(rt: HostRuntime) -> Result<(), Fail> {
    for (number, row) in ROWS.iter().enumerate() {
        let (lines, printed, broken) = *row;
        judge(&rt, 0, number, &(lines, printed, &[], broken))?;
    }
    for (number, row) in profile::ROWS.iter().enumerate() {
        judge(&rt, 1, number, row)?;
    }
    Ok(())
}

/// Two objects of 24 bytes, of which a mark end marks the second, and another.
const REUSED: &str = "a 0 24 s 1\na 0 24 s 1\ngc 1\nm 1 1\na 0 24 s 1\n";

/// Two objects of 24 bytes, of which a mark end marks the first, and another.
const KEPT: &str = "a 0 24 s 1\na 0 24 s 1\ngc 1\nm 0 0\na 0 24 s 1\n";

/// Three objects of 24 bytes, of which a mark end marks one.
const THREE: &str = "a 0 24 s 1\na 0 24 s 1\na 0 24 s 1\ngc 1\nm 1 1\n";

/// An object of 24 bytes that no mark end marks.
const DEAD: &str = "a 0 24 s 1\ngc 1\n";

const ROWS: [Row; 45] = [
    // sound reports
    ("", "", None),
    (
        REUSED,
        "o 0 0xc000000000\no 1 0xc000000018\no 2 0xc000000000\nj 0 0 take 0 1 6\ns 1 0 1 1\nt 3 3 1\n",
        None,
    ),
    // the first object of a cycle may go to any life
    (
        REUSED,
        "o 0 0xc000000000\no 1 0xc000000018\no 2 0xc000002000\nj 0 0 take 0 1 6\nj 1 1 take 1 1 6\ns 1 0 1 1\nt 3 3 1\n",
        None,
    ),
    // a marked object holds its index
    (
        KEPT,
        "o 0 0xc000000000\no 1 0xc000000018\no 2 0xc000000018\nj 0 0 take 0 1 6\ns 1 0 1 1\nt 3 3 1\n",
        None,
    ),
    (
        THREE,
        "o 0 0xc000000000\no 1 0xc000000018\no 2 0xc000000030\nj 0 0 take 0 1 6\ns 1 0 1 2\nt 3 3 2\n",
        None,
    ),
    (
        DEAD,
        "o 0 0xc000000000\nj 0 0 take 0 1 6\nj 1 1 give 0 1\ns 1 0 0 1\nt 3 1 1\n",
        None,
    ),
    (
        "a 0 24 s 1\ngc 1\na 0 24 s 1\n",
        "o 0 0xc000000000\no 1 0xc000000000\nj 0 0 take 0 1 6\nj 1 1 give 0 1\nj 2 1 take 0 1 6\ns 1 0 0 1\nt 3 2 1\n",
        None,
    ),
    // a life of which nothing is kept is used again
    (
        "a 0 24 s 1\ngc 1\na 0 24 s 1\n",
        "o 0 0xc000000000\no 1 0xc000000000\nj 0 0 take 0 1 6\ns 1 0 0 1\nt 3 2 1\n",
        None,
    ),
    (
        "a 0 24 s 1\na 0 24 n 1\n",
        "o 0 0xc000000000\no 1 0xc000002000\nj 0 0 take 0 1 6\nj 1 0 take 1 1 7\nt 3 2 0\n",
        None,
    ),
    // rules 1 to 4
    (
        "a 0 24 s 1\na 0 24 n 1\n",
        "o 0 0xc000002000\no 1 0xc000000000\nj 0 0 take 0 1 6\nj 1 0 take 1 1 7\nt 3 2 0\n",
        Some((4, 1)),
    ),
    ("a 0 24 s 1\n", "", Some((1, 1))),
    ("", "o 0 zero\n", Some((1, 1))),
    (
        "a 0 24 s 1\n",
        "o 0 0xc000002000\nj 0 0 take 1 1 6\nt 3 1 0\n",
        Some((2, 2)),
    ),
    ("a 0 24 s 1\n", "o 0 miss 0\n", Some((3, 1))),
    // rule 5: the later of two objects in one place
    (
        REUSED,
        "o 0 0xc000000000\no 1 0xc000000018\no 2 0xc000000018\nj 0 0 take 0 1 6\ns 1 0 1 1\nt 3 3 1\n",
        Some((5, 3)),
    ),
    (
        "a 0 24 s 1\na 0 24 s 1\n",
        "o 0 0xc000000000\no 1 0xc000000000\nj 0 0 take 0 1 6\nt 3 2 0\n",
        Some((5, 2)),
    ),
    // two size classes overlap, of which the one whose piece comes first has the higher line, with two pieces and with three
    (
        "a 0 16 s 1\na 0 8 s 1\na 0 8 s 1\na 0 16 s 1\n",
        "o 0 0xc000000000\no 1 0xc000002000\no 2 0xc000002000\no 3 0xc000000000\nj 0 0 take 0 1 4\nj 1 0 take 1 1 2\n",
        Some((5, 3)),
    ),
    (
        "a 0 24 s 1\na 0 8 s 1\na 0 8 s 1\na 0 24 s 1\n",
        "o 0 0xc000000000\no 1 0xc000002000\no 2 0xc000002000\no 3 0xc000000000\nj 0 0 take 0 1 6\nj 1 0 take 1 1 2\n",
        Some((5, 3)),
    ),
    // a size class leaves a gap at a lower line than that of another one's overlap
    (
        "a 0 8 s 1\na 0 16 s 1\na 0 16 s 1\n",
        "o 0 0xc000000008\no 1 0xc000002000\no 2 0xc000002000\nj 0 0 take 0 1 2\nj 1 0 take 1 1 4\n",
        Some((5, 3)),
    ),
    // an object that two mark ends kept is still there
    (
        "a 0 24 s 1\ngc 1\nm 0 0\ngc 1\nm 0 0\na 0 24 s 1\n",
        "o 0 0xc000000000\no 1 0xc000000000\nj 0 0 take 0 1 6\ns 1 0 1 0\ns 2 0 1 0\nt 3 2 0\n",
        Some((5, 2)),
    ),
    // the place of an object between two others, and not that of the newest, is taken again
    (
        "a 0 24 s 1\na 0 24 s 1\na 0 24 s 1\n",
        "o 0 0xc000000000\no 1 0xc000000018\no 2 0xc000000000\nj 0 0 take 0 1 6\nt 3 3 0\n",
        Some((5, 3)),
    ),
    // the first broken rule, and not the first line
    (
        "a 0 24 s 1\na 0 24 s 1\na 0 24 s 1\n",
        "o 0 0xc000000018\no 1 0xc000000000\no 2 0xc000000018\nj 0 0 take 0 1 6\nt 3 3 0\n",
        Some((5, 3)),
    ),
    // rule 6
    (
        "a 0 24 s 1\n",
        "o 0 0xc000000018\nj 0 0 take 0 1 6\nt 3 1 0\n",
        Some((6, 1)),
    ),
    (
        REUSED,
        "o 0 0xc000000000\no 1 0xc000000018\no 2 0xc000000030\nj 0 0 take 0 1 6\ns 1 0 1 1\nt 3 3 1\n",
        Some((6, 3)),
    ),
    (
        "a 0 24 s 1\na 0 24 s 1\n",
        "o 0 0xc000000000\no 1 0xc000002000\nj 0 0 take 0 1 6\nj 1 0 take 1 1 6\nt 3 2 0\n",
        Some((6, 2)),
    ),
    (
        "a 0 24 s 1\na 0 24 n 1\na 0 24 s 1\n",
        "o 0 0xc000000000\no 1 0xc000002000\no 2 0xc000004000\nj 0 0 take 0 1 6\nj 1 0 take 1 1 7\nj 2 0 take 2 1 6\nt 3 3 0\n",
        Some((6, 3)),
    ),
    // rule 7: a missing sweep shows at the end
    (
        REUSED,
        "o 0 0xc000000000\no 1 0xc000000018\no 2 0xc000000000\nj 0 0 take 0 1 6\nt 3 3 1\n",
        Some((7, 6)),
    ),
    // kept and freed exchanged
    (
        THREE,
        "o 0 0xc000000000\no 1 0xc000000018\no 2 0xc000000030\nj 0 0 take 0 1 6\ns 1 0 2 1\nt 3 3 2\n",
        Some((7, 5)),
    ),
    (
        REUSED,
        "o 0 0xc000000000\no 1 0xc000000018\no 2 0xc000000000\nj 0 0 take 0 1 6\ns 1 0 1 0\nt 3 3 1\n",
        Some((7, 5)),
    ),
    // sweeps of no life, of a cycle behind the last, and of cycle 0
    (
        REUSED,
        "o 0 0xc000000000\no 1 0xc000000018\no 2 0xc000000000\nj 0 0 take 0 1 6\ns 1 0 1 1\ns 1 1 0 0\nt 3 3 1\n",
        Some((7, 6)),
    ),
    (
        REUSED,
        "o 0 0xc000000000\no 1 0xc000000018\no 2 0xc000000000\nj 0 0 take 0 1 6\ns 1 0 1 1\ns 2 0 1 1\nt 3 3 1\n",
        Some((7, 6)),
    ),
    (
        REUSED,
        "o 0 0xc000000000\no 1 0xc000000018\no 2 0xc000000000\nj 0 0 take 0 1 6\ns 0 0 0 0\ns 1 0 1 1\nt 3 3 1\n",
        Some((7, 5)),
    ),
    // a wrongly printed 0 breaks the rule at the sweep, and a wrongly printed 1 at the Give
    (
        REUSED,
        "o 0 0xc000000000\no 1 0xc000000018\no 2 0xc000000000\nj 0 0 take 0 1 6\ns 1 0 0 1\nt 3 3 1\n",
        Some((7, 5)),
    ),
    (
        DEAD,
        "o 0 0xc000000000\nj 0 0 take 0 1 6\nj 1 1 give 0 1\ns 1 0 1 0\nt 3 1 1\n",
        Some((7, 3)),
    ),
    // a Give without its sweep, and in the life's own cycle
    (
        DEAD,
        "o 0 0xc000000000\nj 0 0 take 0 1 6\nj 1 1 give 0 1\nt 3 1 1\n",
        Some((7, 3)),
    ),
    ("", "j 0 0 take 0 1 6\nj 1 0 give 0 1\n", Some((7, 2))),
    // a life of which nothing is kept and that is neither given back nor used again, or too late
    (
        DEAD,
        "o 0 0xc000000000\nj 0 0 take 0 1 6\ns 1 0 0 1\nt 3 1 1\n",
        Some((7, 3)),
    ),
    (
        "a 0 24 s 1\ngc 1\ngc 1\n",
        "o 0 0xc000000000\nj 0 0 take 0 1 6\nj 1 2 give 0 1\ns 1 0 0 1\ns 2 0 0 0\nt 3 1 1\n",
        Some((7, 4)),
    ),
    // an object that died is freed at one mark end
    (
        "a 0 24 s 1\na 0 24 s 1\ngc 1\nm 1 1\ngc 1\nm 1 1\n",
        "o 0 0xc000000000\no 1 0xc000000018\nj 0 0 take 0 1 6\ns 1 0 1 1\ns 2 0 1 1\nt 3 2 1\n",
        Some((7, 5)),
    ),
    (
        "a 0 24 s 1\na 0 24 s 1\ngc 1\nm 1 1\ngc 1\nm 1 1\n",
        "o 0 0xc000000000\no 1 0xc000000018\nj 0 0 take 0 1 6\ns 1 0 1 1\nt 3 2 1\n",
        Some((7, 6)),
    ),
    // rule 8
    (
        REUSED,
        "o 0 0xc000000000\no 1 0xc000000018\no 2 0xc000000000\nj 0 0 take 0 1 6\ns 1 0 1 1\nt 3 3 0\n",
        Some((8, 6)),
    ),
    (
        REUSED,
        "o 0 0xc000000000\no 1 0xc000000018\no 2 0xc000000000\nj 0 0 take 0 1 6\ns 1 0 1 1\n",
        Some((8, 6)),
    ),
    (
        REUSED,
        "o 0 0xc000000000\no 1 0xc000000018\no 2 0xc000000000\nj 0 0 take 0 1 6\ns 1 0 1 1\nt 3 3 1\nt 4 1 0\n",
        Some((8, 7)),
    ),
    // rule 9, where nothing is sampled
    (
        REUSED,
        "o 0 0xc000000000\no 1 0xc000000018\no 2 0xc000000000\nj 0 0 take 0 1 6\ns 1 0 1 1\nt 3 3 1\np 1 1 24 2 1\n",
        Some((9, 7)),
    ),
    // a sweep is wrong, and a total too
    (
        REUSED,
        "o 0 0xc000000000\no 1 0xc000000018\no 2 0xc000000000\nj 0 0 take 0 1 6\ns 1 0 2 1\nt 3 3 0\n",
        Some((7, 5)),
    ),
];
