//! A table of traces and reports as text, for rule 2 in a trace whose processors have page caches.

use crate::beside::agree;
use crate::text::{Heading, report_of, trace_of};
use report_check::{CheckFault, check};
use std::process::Abort;
use std::test::Fail;
use std::thread::Threads;

/// The lines of a trace of one chunk; its version, its processors and its goal; the lines of a report's journal,
/// behind one answer; and the first line that breaks rule 2. Rule 1 is met.
type CachedRow = (&'static str, (u32, u32, u32), &'static str, Option<u64>);

/// An object of 24 bytes.
const ONE: &str = "a 0 24 s 1\n";

/// The same before a mark end.
const TWO_CYCLES: &str = "a 0 24 s 1\ngc 1\n";

// The line that breaks rule 2, where it is the first rule that the report breaks.
fn line_of_rule_2(found: &Result<(), CheckFault>) -> Result<Option<u64>, Fail> {
    match found {
        Ok(()) => Ok(None),
        Err(CheckFault::Broken { rule: 1, .. }) => Err("rule 1".into()),
        Err(CheckFault::Broken { rule: 2, line }) => Ok(Some(*line)),
        Err(CheckFault::Broken { .. }) => Ok(None),
        Err(CheckFault::NoMemory) => Err("no memory".into()),
    }
}

fn judge<R: Abort + AllocGlobal + Threads + Sync>(
    rt: &R,
    number: usize,
    row: &CachedRow,
) -> Result<(), Fail> {
    let (lines, (version, procs, goal), journal, broken) = *row;
    let alloc = rt.alloc();
    let heading = Heading {
        version,
        procs,
        rate: 0,
        goal,
    };
    let trace = trace_of(alloc, heading, lines)?;
    let printed = format!(in alloc; "o 0 0xc000000000\n{journal}")?;
    let report = report_of(alloc, &printed)?;
    let found = line_of_rule_2(&check(alloc, &trace, &report))?;
    assert_eq!(rt; found, broken, "row {number}: {journal}");
    agree(rt, &trace, &report)
}

#[test]
fn journals_with_page_caches_are_judged(rt: HostRuntime) -> Result<(), Fail> {
    for (number, row) in ROWS.iter().enumerate() {
        judge(&rt, number, row)?;
    }
    Ok(())
}

const ROWS: [CachedRow; 99] = [
    // a block is pulled, a span cut of it, and the rest dropped; the same with a cut that leaves
    // the first page, and in a trace of version 1
    (
        ONE,
        (2, 1, 512),
        "j 0 0 pull 0 0 64\nj 1 0 cut 0 0 1 6\nj 2 0 drop 0 0 63\n",
        None,
    ),
    (
        ONE,
        (2, 1, 512),
        "j 0 0 pull 0 0 64\nj 1 0 cut 0 1 1 6\nj 2 0 drop 0 0 63\n",
        Some(3),
    ),
    (
        ONE,
        (1, 1, 512),
        "j 0 0 pull 0 0 64\nj 1 0 cut 0 0 1 6\nj 2 0 drop 0 0 63\n",
        Some(2),
    ),
    // in version 1 no Cut and no Drop stands either
    (ONE, (1, 2, 512), "j 0 0 cut 0 0 1 6\n", Some(2)),
    (
        ONE,
        (1, 2, 512),
        "j 0 0 take 0 1 6\nj 1 0 drop 0 0 0\n",
        Some(3),
    ),
    // a processor that the trace does not have
    (
        ONE,
        (2, 2, 512),
        "j 0 0 pull 2 0 64\nj 1 0 drop 2 0 64\n",
        Some(2),
    ),
    (
        ONE,
        (2, 2, 512),
        "j 0 0 pull 1 0 64\nj 1 0 drop 1 0 64\n",
        None,
    ),
    (
        ONE,
        (2, 2, 512),
        "j 0 0 pull 0 0 64\nj 1 0 cut 2 0 1 6\n",
        Some(3),
    ),
    (
        ONE,
        (2, 2, 512),
        "j 0 0 pull 0 0 64\nj 1 0 drop 4294967295 0 64\n",
        Some(3),
    ),
    // a second block of a processor, and one of each of two
    (
        ONE,
        (2, 2, 512),
        "j 0 0 pull 0 0 64\nj 1 0 pull 0 64 64\n",
        Some(3),
    ),
    (
        ONE,
        (2, 2, 512),
        "j 0 0 pull 0 0 64\nj 1 0 pull 1 64 64\nj 2 0 drop 0 0 64\nj 3 0 drop 1 64 64\n",
        None,
    ),
    (
        ONE,
        (2, 2, 512),
        "j 0 0 pull 0 0 64\nj 1 0 drop 0 0 64\nj 2 0 pull 0 0 64\nj 3 0 drop 0 0 64\n",
        None,
    ),
    // a Pull that is not of the block of the least free page
    (ONE, (2, 2, 512), "j 0 0 pull 0 64 64\n", Some(2)),
    (
        ONE,
        (2, 2, 512),
        "j 0 0 take 0 1 6\nj 1 0 pull 0 64 64\n",
        Some(3),
    ),
    (
        ONE,
        (2, 2, 512),
        "j 0 0 take 0 64 1\nj 1 0 pull 0 0 0\n",
        Some(3),
    ),
    (
        ONE,
        (2, 2, 512),
        "j 0 0 take 0 64 1\nj 1 0 pull 0 64 64\nj 2 0 drop 0 64 64\n",
        None,
    ),
    // a Pull at the least free page itself, that is the first of no block
    (
        ONE,
        (2, 2, 512),
        "j 0 0 take 0 1 6\nj 1 0 pull 0 1 63\n",
        Some(3),
    ),
    (
        ONE,
        (2, 2, 512),
        "j 0 0 take 0 1 6\nj 1 0 pull 0 1 64\n",
        Some(3),
    ),
    // a Pull of fewer or more pages than are free in the block
    (ONE, (2, 2, 512), "j 0 0 pull 0 0 63\n", Some(2)),
    (
        ONE,
        (2, 2, 512),
        "j 0 0 take 0 1 6\nj 1 0 pull 0 0 64\n",
        Some(3),
    ),
    (
        ONE,
        (2, 2, 512),
        "j 0 0 take 0 1 6\nj 1 0 pull 0 0 63\nj 2 0 drop 0 0 63\n",
        None,
    ),
    (
        ONE,
        (2, 2, 512),
        "j 0 0 take 0 1 6\nj 1 0 take 1 5 1\nj 2 0 take 6 1 6\nj 3 0 give 1 5\nj 4 0 pull 0 0 5\n",
        Some(6),
    ),
    (
        ONE,
        (2, 2, 512),
        "j 0 0 take 0 1 6\nj 1 0 take 1 5 1\nj 2 0 take 6 1 6\nj 3 0 give 1 5\nj 4 0 pull 0 0 62\nj 5 0 drop 0 0 62\n",
        None,
    ),
    // a Pull where no page is free
    (
        ONE,
        (2, 2, 512),
        "j 0 0 take 0 512 1\nj 1 0 pull 0 0 0\n",
        Some(3),
    ),
    (
        ONE,
        (2, 2, 512),
        "j 0 0 take 0 512 1\nj 1 0 pull 0 512 64\n",
        Some(3),
    ),
    // a Cut of 16 pages, of another number than its span class has, and of a class that is none
    (
        ONE,
        (2, 2, 512),
        "j 0 0 pull 0 0 64\nj 1 0 cut 0 0 16 1\n",
        Some(3),
    ),
    (
        ONE,
        (2, 2, 512),
        "j 0 0 pull 0 0 64\nj 1 0 cut 0 0 15 1\nj 2 0 drop 0 0 49\n",
        None,
    ),
    (
        ONE,
        (2, 2, 512),
        "j 0 0 pull 0 0 64\nj 1 0 cut 0 0 2 6\n",
        Some(3),
    ),
    (
        ONE,
        (2, 2, 512),
        "j 0 0 pull 0 0 64\nj 1 0 cut 0 0 4 0\n",
        Some(3),
    ),
    (
        ONE,
        (2, 2, 512),
        "j 0 0 pull 0 0 64\nj 1 0 cut 0 0 0 0\n",
        Some(3),
    ),
    (
        ONE,
        (2, 2, 512),
        "j 0 0 pull 0 0 64\nj 1 0 cut 0 0 1 136\n",
        Some(3),
    ),
    // a Cut of no block, of another processor's, of a page of it that was cut, and of pages that a
    // span has
    (ONE, (2, 2, 512), "j 0 0 cut 0 0 1 6\n", Some(2)),
    (
        ONE,
        (2, 2, 512),
        "j 0 0 pull 0 0 64\nj 1 0 cut 1 0 1 6\n",
        Some(3),
    ),
    (
        ONE,
        (2, 2, 512),
        "j 0 0 pull 0 0 64\nj 1 0 drop 0 0 64\nj 2 0 cut 0 0 1 6\n",
        Some(4),
    ),
    (
        ONE,
        (2, 2, 512),
        "j 0 0 pull 0 0 64\nj 1 0 cut 0 0 1 6\nj 2 0 cut 0 0 1 6\n",
        Some(4),
    ),
    (
        ONE,
        (2, 2, 512),
        "j 0 0 take 0 1 6\nj 1 0 pull 0 0 63\nj 2 0 cut 0 0 1 6\n",
        Some(4),
    ),
    // a Cut at the second run that fits, and behind a free page at the first one that does
    (
        ONE,
        (2, 2, 512),
        "j 0 0 pull 0 0 64\nj 1 0 cut 0 0 1 6\nj 2 0 cut 0 2 1 6\n",
        Some(4),
    ),
    (
        ONE,
        (2, 2, 512),
        "j 0 0 pull 0 0 64\nj 1 0 cut 0 0 1 6\nj 2 0 cut 0 1 1 6\nj 3 0 drop 0 0 62\n",
        None,
    ),
    (
        ONE,
        (2, 2, 512),
        "j 0 0 take 0 1 6\nj 1 0 take 1 5 1\nj 2 0 give 0 1\nj 3 0 pull 0 0 59\nj 4 0 cut 0 6 5 1\nj 5 0 cut 0 0 1 6\nj 6 0 drop 0 0 53\n",
        None,
    ),
    (
        ONE,
        (2, 2, 512),
        "j 0 0 take 0 1 6\nj 1 0 take 1 5 1\nj 2 0 give 0 1\nj 3 0 pull 0 0 59\nj 4 0 cut 0 0 5 1\n",
        Some(6),
    ),
    (
        ONE,
        (2, 2, 512),
        "j 0 0 take 0 1 6\nj 1 0 take 1 5 1\nj 2 0 give 0 1\nj 3 0 pull 0 0 59\nj 4 0 cut 0 6 1 6\n",
        Some(6),
    ),
    // another line behind a Cut
    (
        ONE,
        (2, 2, 512),
        "j 0 0 pull 0 0 64\nj 1 0 cut 0 0 1 6\nj 2 0 take 64 1 6\nj 3 0 drop 0 0 63\n",
        Some(4),
    ),
    (
        ONE,
        (2, 2, 512),
        "j 0 0 pull 0 0 64\nj 1 0 cut 0 0 1 6\nj 2 0 give 0 1\nj 3 0 drop 0 0 63\n",
        Some(4),
    ),
    (
        ONE,
        (2, 2, 512),
        "j 0 0 pull 0 0 64\nj 1 0 cut 0 0 1 6\nj 2 0 miss 449 1\nj 3 0 drop 0 0 63\n",
        Some(4),
    ),
    (
        ONE,
        (2, 2, 512),
        "j 0 0 pull 0 0 64\nj 1 0 cut 0 0 1 6\nj 2 0 pull 1 64 64\nj 3 0 drop 0 0 63\n",
        Some(4),
    ),
    (
        ONE,
        (2, 2, 0),
        "j 0 0 take 0 70 1\nj 1 0 give 0 70\nj 2 0 pull 0 0 64\nj 3 0 cut 0 0 1 6\nj 4 0 scav 64 6\nj 5 0 drop 0 0 63\n",
        Some(6),
    ),
    // a Cut or a Drop of another processor behind a Cut
    (
        ONE,
        (2, 2, 512),
        "j 0 0 pull 0 0 64\nj 1 0 pull 1 64 64\nj 2 0 cut 0 0 1 6\nj 3 0 cut 1 64 1 6\n",
        Some(5),
    ),
    (
        ONE,
        (2, 2, 512),
        "j 0 0 pull 0 0 64\nj 1 0 pull 1 64 64\nj 2 0 cut 0 0 1 6\nj 3 0 drop 1 64 64\n",
        Some(5),
    ),
    (
        ONE,
        (2, 2, 512),
        "j 0 0 pull 0 0 64\nj 1 0 pull 1 64 64\nj 2 0 cut 1 64 1 6\nj 3 0 drop 1 64 63\nj 4 0 cut 0 0 1 6\nj 5 0 drop 0 0 63\n",
        None,
    ),
    // a Drop without a block, of another block, and of another number of pages
    (ONE, (2, 2, 512), "j 0 0 drop 0 0 0\n", Some(2)),
    (
        ONE,
        (2, 2, 512),
        "j 0 0 pull 0 0 64\nj 1 0 drop 1 0 64\n",
        Some(3),
    ),
    (
        ONE,
        (2, 2, 512),
        "j 0 0 pull 0 0 64\nj 1 0 drop 0 0 64\nj 2 0 drop 0 0 0\n",
        Some(4),
    ),
    (
        ONE,
        (2, 2, 512),
        "j 0 0 pull 0 0 64\nj 1 0 drop 0 64 64\n",
        Some(3),
    ),
    (
        ONE,
        (2, 2, 512),
        "j 0 0 pull 0 0 64\nj 1 0 drop 0 0 63\n",
        Some(3),
    ),
    (
        ONE,
        (2, 2, 512),
        "j 0 0 pull 0 0 64\nj 1 0 cut 0 0 1 6\nj 2 0 drop 0 1 63\n",
        Some(4),
    ),
    (
        ONE,
        (2, 2, 512),
        "j 0 0 pull 0 0 64\nj 1 0 cut 0 0 1 6\nj 2 0 drop 0 0 64\n",
        Some(4),
    ),
    // a block of which all is cut
    (
        ONE,
        (2, 2, 512),
        "j 0 0 pull 0 0 64\nj 1 0 cut 0 0 15 1\nj 2 0 cut 0 15 15 1\nj 3 0 cut 0 30 15 1\nj 4 0 cut 0 45 15 1\nj 5 0 cut 0 60 2 70\nj 6 0 cut 0 62 2 70\nj 7 0 drop 0 0 0\n",
        None,
    ),
    (
        ONE,
        (2, 2, 512),
        "j 0 0 pull 0 0 64\nj 1 0 cut 0 0 15 1\nj 2 0 cut 0 15 15 1\nj 3 0 cut 0 30 15 1\nj 4 0 cut 0 45 15 1\nj 5 0 cut 0 60 2 70\nj 6 0 cut 0 62 2 70\nj 7 0 cut 0 64 1 6\n",
        Some(9),
    ),
    (
        ONE,
        (2, 2, 512),
        "j 0 0 pull 0 0 64\nj 1 0 cut 0 0 15 1\nj 2 0 cut 0 15 15 1\nj 3 0 cut 0 30 15 1\nj 4 0 cut 0 45 15 1\nj 5 0 cut 0 60 2 70\nj 6 0 cut 0 62 2 70\nj 7 0 drop 0 0 1\n",
        Some(9),
    ),
    // a Drop that never comes, and one line that is wrong before that
    (ONE, (2, 2, 512), "j 0 0 pull 0 0 64\n", Some(3)),
    (
        ONE,
        (2, 2, 512),
        "j 0 0 pull 0 0 64\nj 1 0 cut 0 0 1 6\n",
        Some(4),
    ),
    (
        ONE,
        (2, 2, 512),
        "j 0 0 pull 0 0 64\nj 1 0 pull 1 64 64\nj 2 0 drop 0 0 64\n",
        Some(5),
    ),
    (
        ONE,
        (2, 2, 512),
        "j 0 0 pull 0 0 64\nj 1 0 take 0 1 6\n",
        Some(3),
    ),
    // lines of another cycle while a block is out
    (
        TWO_CYCLES,
        (2, 2, 512),
        "j 0 0 pull 0 0 64\nj 1 1 drop 0 0 64\n",
        Some(3),
    ),
    (
        TWO_CYCLES,
        (2, 2, 512),
        "j 0 0 pull 0 0 64\nj 1 1 cut 0 0 1 6\n",
        Some(3),
    ),
    (
        TWO_CYCLES,
        (2, 2, 512),
        "j 0 0 pull 0 0 64\nj 1 0 cut 0 0 1 6\nj 2 1 drop 0 0 63\n",
        Some(4),
    ),
    (
        TWO_CYCLES,
        (2, 2, 512),
        "j 0 0 pull 0 0 64\nj 1 1 take 64 1 6\n",
        Some(3),
    ),
    (
        TWO_CYCLES,
        (2, 2, 512),
        "j 0 0 pull 0 0 64\nj 1 1 pull 1 64 64\n",
        Some(3),
    ),
    (
        TWO_CYCLES,
        (2, 2, 512),
        "j 0 0 take 0 1 6\nj 1 0 pull 0 0 63\nj 2 1 give 0 1\n",
        Some(4),
    ),
    (
        TWO_CYCLES,
        (2, 2, 512),
        "j 0 0 pull 0 0 64\nj 1 1 miss 449 1\n",
        Some(3),
    ),
    (
        TWO_CYCLES,
        (2, 2, 0),
        "j 0 0 take 0 70 1\nj 1 0 give 0 70\nj 2 0 pull 0 0 64\nj 3 1 scav 64 6\n",
        Some(5),
    ),
    (
        TWO_CYCLES,
        (2, 2, 512),
        "j 0 0 pull 0 0 64\nj 1 0 pull 1 64 64\nj 2 0 drop 0 0 64\nj 3 1 drop 1 64 64\n",
        Some(5),
    ),
    (
        TWO_CYCLES,
        (2, 2, 512),
        "j 0 0 pull 0 0 64\nj 1 0 drop 0 0 64\nj 2 1 pull 0 0 64\nj 3 1 drop 0 0 64\n",
        None,
    ),
    // cycles that fall, or are above the last one
    (
        TWO_CYCLES,
        (2, 2, 512),
        "j 0 1 pull 0 0 64\nj 1 0 drop 0 0 64\n",
        Some(3),
    ),
    (
        ONE,
        (2, 2, 512),
        "j 0 1 pull 0 0 64\nj 1 1 drop 0 0 64\n",
        Some(2),
    ),
    (
        TWO_CYCLES,
        (2, 2, 512),
        "j 0 1 take 0 1 6\nj 1 0 pull 0 0 63\n",
        Some(3),
    ),
    // the pages of a block that is out are no free ones
    (
        ONE,
        (2, 2, 512),
        "j 0 0 pull 0 0 64\nj 1 0 take 0 1 6\nj 2 0 drop 0 0 64\n",
        Some(3),
    ),
    (
        ONE,
        (2, 2, 512),
        "j 0 0 pull 0 0 64\nj 1 0 take 64 1 6\nj 2 0 drop 0 0 64\n",
        None,
    ),
    (
        ONE,
        (2, 2, 512),
        "j 0 0 pull 0 0 64\nj 1 0 miss 449 1\nj 2 0 drop 0 0 64\n",
        None,
    ),
    (
        ONE,
        (2, 2, 512),
        "j 0 0 pull 0 0 64\nj 1 0 miss 448 1\nj 2 0 drop 0 0 64\n",
        Some(3),
    ),
    // what is given back while a block is out is none of its pages
    (
        ONE,
        (2, 2, 512),
        "j 0 0 take 0 1 6\nj 1 0 pull 0 0 63\nj 2 0 give 0 1\nj 3 0 take 0 1 6\nj 4 0 drop 0 0 63\n",
        None,
    ),
    (
        ONE,
        (2, 2, 512),
        "j 0 0 take 0 1 6\nj 1 0 pull 0 0 63\nj 2 0 give 0 1\nj 3 0 drop 0 0 64\n",
        Some(5),
    ),
    // a span that was cut is given back, with all its pages
    (
        ONE,
        (2, 2, 512),
        "j 0 0 pull 0 0 64\nj 1 0 cut 0 0 5 1\nj 2 0 drop 0 0 59\nj 3 0 give 0 5\nj 4 0 take 0 1 6\n",
        None,
    ),
    (
        ONE,
        (2, 2, 512),
        "j 0 0 pull 0 0 64\nj 1 0 cut 0 0 5 1\nj 2 0 drop 0 0 59\nj 3 0 give 0 4\n",
        Some(5),
    ),
    (
        ONE,
        (2, 2, 512),
        "j 0 0 pull 0 0 64\nj 1 0 cut 0 0 5 1\nj 2 0 drop 0 0 59\nj 3 0 give 1 4\n",
        Some(5),
    ),
    (
        ONE,
        (2, 2, 512),
        "j 0 0 pull 0 0 64\nj 1 0 cut 0 0 5 1\nj 2 0 drop 0 0 59\nj 3 0 take 0 1 6\n",
        Some(5),
    ),
    // the pages of a block count as backed, and stay so where they are dropped
    (
        ONE,
        (2, 2, 64),
        "j 0 0 take 0 70 1\nj 1 0 give 0 70\nj 2 0 pull 0 0 64\nj 3 0 scav 64 6\nj 4 0 drop 0 0 64\n",
        None,
    ),
    (
        ONE,
        (2, 2, 70),
        "j 0 0 take 0 70 1\nj 1 0 give 0 70\nj 2 0 pull 0 0 64\nj 3 0 scav 64 6\nj 4 0 drop 0 0 64\n",
        Some(5),
    ),
    (
        ONE,
        (2, 2, 0),
        "j 0 0 pull 0 0 64\nj 1 0 scav 0 64\nj 2 0 drop 0 0 64\n",
        Some(3),
    ),
    (
        ONE,
        (2, 2, 0),
        "j 0 0 pull 0 0 64\nj 1 0 drop 0 0 64\nj 2 0 scav 0 64\n",
        None,
    ),
    (
        ONE,
        (2, 2, 0),
        "j 0 0 take 0 1 6\nj 1 0 pull 0 0 63\nj 2 0 drop 0 0 63\nj 3 0 scav 1 63\n",
        None,
    ),
    (
        ONE,
        (2, 2, 0),
        "j 0 0 take 0 1 6\nj 1 0 pull 0 0 63\nj 2 0 drop 0 0 63\nj 3 0 scav 0 64\n",
        Some(5),
    ),
    // the lines that have to do with no page cache are judged as ever
    (
        TWO_CYCLES,
        (2, 2, 512),
        "j 0 0 take 0 1 6\nj 1 1 give 0 1\n",
        None,
    ),
    (ONE, (2, 2, 512), "j 0 0 take 1 1 6\n", Some(2)),
    (
        ONE,
        (2, 2, 512),
        "j 0 0 take 0 1 6\nj 1 0 take 0 1 6\n",
        Some(3),
    ),
    (
        ONE,
        (2, 2, 512),
        "j 0 0 take 0 1 6\nj 1 0 give 0 2\n",
        Some(3),
    ),
    (ONE, (2, 2, 512), "j 0 0 miss 1 6\n", Some(2)),
    (ONE, (2, 2, 512), "j 0 0 scav 0 1\n", Some(2)),
    (ONE, (2, 2, 512), "", None),
];
