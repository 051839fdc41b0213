//! Reports of traces with tiny objects, each with the rule and the line that it breaks first.

ghost use Rattle.cycle_history.specs.Before.{IsLimited};

use crate::read::{report_of, trace_of};
use check_parallel::check_version_parallel;
use cycle_history::Report;
use report_check::{CheckFault, Pieces, check_version};
use std::process::Abort;
use std::test::Fail;
use std::thread::Threads;
use trace_reader::Trace;

/// The lines of a trace, a report of it without its last line, and the rule and the line that it breaks first.
type Row = (&'static str, &'static str, Option<(u8, u64)>);

// Wants that the judge in so many pieces answers what the judge of the whole answers.
fn agree_in<R: Abort + AllocGlobal + Threads + Sync>(
    rt: &R,
    trace: &Trace,
    report: &Report,
    whole: Result<(), CheckFault>,
    pieces: Pieces,
) -> Result<(), Fail>
    requires limited { IsLimited trace.now }
{
    let found = check_version_parallel(rt, rt.alloc(), trace, report, pieces);
    let count = pieces.count;
    assert_eq!(rt; found, whole, "{count} pieces");
    Ok(())
}

fn judge<R: Abort + AllocGlobal + Threads + Sync>(
    rt: &R,
    procs: u32,
    rate: u32,
    number: usize,
    row: &Row,
) -> Result<(), Fail> {
    let (lines, printed, broken) = *row;
    let alloc = rt.alloc();
    let trace = trace_of(alloc, procs, rate, lines)?;
    let report = report_of(alloc, printed)?;
    let whole = check_version(alloc, &trace, &report);
    let found = match whole {
        Ok(()) => None,
        Err(CheckFault::Broken { rule, line }) => Some((rule, line)),
        Err(CheckFault::NoMemory) => return Err("no memory".into()),
    };
    assert_eq!(rt;
        found,
        broken,
        "{procs} processors, rate {rate}: row {number}"
    );
    agree_in(rt, &trace, &report, whole, Pieces { count: 1 })?;
    agree_in(rt, &trace, &report, whole, Pieces { count: 2 })?;
    agree_in(rt, &trace, &report, whole, Pieces { count: 3 })?;
    agree_in(rt, &trace, &report, whole, Pieces { count: 64 })
}

#[test]
fn reports_with_tiny_objects_are_judged(rt: HostRuntime) -> Result<(), Fail> {
    for (number, row) in ROWS.iter().enumerate() {
        judge(&rt, 1, 0, number, row)?;
    }
    for (number, row) in OF_TWO.iter().enumerate() {
        judge(&rt, 2, 0, number, row)?;
    }
    for (number, row) in SAMPLED.iter().enumerate() {
        judge(&rt, 1, 1, number, row)?;
    }
    Ok(())
}

/// Objects of 8, 4, 2, 1 and 2 bytes: three ride behind the first, and the last finds no room.
const FIVE: &str = "a 0 8 n 1\na 0 4 n 1\na 0 2 n 1\na 0 1 n 1\na 0 2 n 1\n";

/// Two objects of 8 bytes in one block, of which a mark end marks the second.
const RIDER_KEPT: &str = "a 0 8 n 1\na 0 8 n 1\ngc 1\nm 1 1\n";

/// A block whose object lives on, and an object of the next cycle.
const NEXT_CYCLE: &str = "a 0 8 n 1\ngc 1\nm 0 0\na 0 8 n 1\n";

/// An object that fills the region, and two for which there is no room.
const FULL: &str = "a 0 4194304 n 1\na 0 8 n 1\na 0 8 n 1\n";

const ROWS: [Row; 43] = [
    // sound reports
    ("", "", None),
    // a page cache's block is pulled, a span of 16 bytes is cut of it, and the rest is dropped
    (
        FIVE,
        "o 0 0xc000000000\no 1 0xc000000008\no 2 0xc00000000c\no 3 0xc00000000e\no 4 0xc000000010\nj 0 0 pull 0 0 64\nj 1 0 cut 0 0 1 5\nj 2 0 drop 0 0 63\nt 2 2 0\n",
        None,
    ),
    (
        RIDER_KEPT,
        "o 0 0xc000000000\no 1 0xc000000008\nj 0 0 pull 0 0 64\nj 1 0 cut 0 0 1 5\nj 2 0 drop 0 0 63\ns 1 0 1 0\nt 2 1 0\n",
        None,
    ),
    (
        FIVE,
        "o 0 0xc000000000\no 1 0xc000000008\no 2 0xc00000000c\no 3 0xc00000000e\no 4 0xc000000010\nj 0 0 take 0 1 5\nt 2 2 0\n",
        None,
    ),
    (
        RIDER_KEPT,
        "o 0 0xc000000000\no 1 0xc000000008\nj 0 0 take 0 1 5\ns 1 0 1 0\nt 2 1 0\n",
        None,
    ),
    // a block is gone once none of its objects is marked
    (
        "a 0 8 n 1\na 0 8 n 1\ngc 1\n",
        "o 0 0xc000000000\no 1 0xc000000008\nj 0 0 take 0 1 5\nj 1 1 give 0 1\ns 1 0 0 1\nt 2 1 1\n",
        None,
    ),
    // a mark end forgets the block
    (
        NEXT_CYCLE,
        "o 0 0xc000000000\no 1 0xc000000010\nj 0 0 take 0 1 5\ns 1 0 1 0\nt 2 2 0\n",
        None,
    ),
    // offsets are raised to multiples of 2, 4 and 8
    (
        "a 0 1 n 1\na 0 2 n 1\na 0 4 n 1\na 0 8 n 1\n",
        "o 0 0xc000000000\no 1 0xc000000002\no 2 0xc000000004\no 3 0xc000000008\nj 0 0 take 0 1 5\nt 2 1 0\n",
        None,
    ),
    (
        "a 0 1 n 1\na 0 12 n 1\n",
        "o 0 0xc000000000\no 1 0xc000000004\nj 0 0 take 0 1 5\nt 2 1 0\n",
        None,
    ),
    (
        "a 0 1 n 1\na 0 15 n 1\n",
        "o 0 0xc000000000\no 1 0xc000000001\nj 0 0 take 0 1 5\nt 2 1 0\n",
        None,
    ),
    // a block with less room doesn't take the place of the current one, and one with more does
    (
        "a 0 8 n 1\na 0 12 n 1\na 0 4 n 1\n",
        "o 0 0xc000000000\no 1 0xc000000010\no 2 0xc000000008\nj 0 0 take 0 1 5\nt 2 2 0\n",
        None,
    ),
    (
        "a 0 12 n 1\na 0 8 n 1\na 0 8 n 1\n",
        "o 0 0xc000000000\no 1 0xc000000010\no 2 0xc000000018\nj 0 0 take 0 1 5\nt 2 2 0\n",
        None,
    ),
    // objects with pointers, of 16 bytes and of none aren't tiny
    (
        "a 0 8 n 1\na 0 8 s 1\na 0 0 n 1\na 0 16 n 1\na 0 8 n 1\n",
        "o 0 0xc000000000\no 1 0xc000002000\no 2 zero\no 3 0xc000000010\no 4 0xc000000008\nj 0 0 take 0 1 5\nj 1 0 take 1 1 2\nt 1 1 0\nt 2 2 0\n",
        None,
    ),
    // a lead without room misses a page of span class 5, and nothing rides behind it
    (
        FULL,
        "o 0 0xc000000000\no 1 miss 1\no 2 miss 2\nj 0 0 take 0 512 1\nj 1 0 miss 1 5\nj 2 0 miss 1 5\nt 0 1 0\n",
        None,
    ),
    // rule 1: an answer too few, too many, or zero for an object of some bytes
    (
        FIVE,
        "o 0 0xc000000000\no 1 0xc000000008\no 2 0xc00000000c\no 3 0xc00000000e\nj 0 0 take 0 1 5\nt 2 2 0\n",
        Some((1, 7)),
    ),
    (
        RIDER_KEPT,
        "o 0 0xc000000000\no 1 0xc000000008\no 2 0xc000000010\nj 0 0 take 0 1 5\ns 1 0 1 0\nt 2 1 0\n",
        Some((1, 3)),
    ),
    (
        RIDER_KEPT,
        "o 0 0xc000000000\no 1 zero\nj 0 0 take 0 1 5\ns 1 0 1 0\nt 2 1 0\n",
        Some((1, 2)),
    ),
    (
        "a 0 0 n 1\n",
        "o 0 0xc000000000\nj 0 0 take 0 1 5\nt 2 1 0\n",
        Some((1, 1)),
    ),
    // rule 2: not at first fit
    (
        RIDER_KEPT,
        "o 0 0xc000002000\no 1 0xc000002008\nj 0 0 take 1 1 5\ns 1 1 1 0\nt 2 1 0\n",
        Some((2, 3)),
    ),
    // rule 2: a cut that leaves the first page, a block that is never dropped, or is dropped in another cycle
    (
        FIVE,
        "o 0 0xc000002000\no 1 0xc000002008\no 2 0xc00000200c\no 3 0xc00000200e\no 4 0xc000002010\nj 0 0 pull 0 0 64\nj 1 0 cut 0 1 1 5\nj 2 0 drop 0 0 63\nt 2 2 0\n",
        Some((2, 7)),
    ),
    (
        RIDER_KEPT,
        "o 0 0xc000000000\no 1 0xc000000008\nj 0 0 pull 0 0 64\nj 1 0 cut 0 0 1 5\ns 1 0 1 0\nt 2 1 0\n",
        Some((2, 7)),
    ),
    (
        RIDER_KEPT,
        "o 0 0xc000000000\no 1 0xc000000008\nj 0 0 pull 0 0 64\nj 1 0 cut 0 0 1 5\nj 2 1 drop 0 0 63\ns 1 0 1 0\nt 2 1 0\n",
        Some((2, 5)),
    ),
    // rule 3: a lead misses as 16 bytes do, and not as 8 bytes; two name one line
    (
        FULL,
        "o 0 0xc000000000\no 1 miss 1\no 2 miss 2\nj 0 0 take 0 512 1\nj 1 0 miss 1 3\nj 2 0 miss 1 5\nt 0 1 0\n",
        Some((3, 2)),
    ),
    (
        FULL,
        "o 0 0xc000000000\no 1 miss 1\no 2 miss 1\nj 0 0 take 0 512 1\nj 1 0 miss 1 5\nt 0 1 0\n",
        Some((3, 3)),
    ),
    // rule 4: a lead begins at no slot of 16 bytes, or its block is given back while its rider lives
    (
        RIDER_KEPT,
        "o 0 0xc000000008\no 1 0xc000000010\nj 0 0 take 0 1 5\ns 1 0 1 0\nt 2 1 0\n",
        Some((4, 1)),
    ),
    (
        RIDER_KEPT,
        "o 0 0xc000000000\no 1 0xc000000008\nj 0 0 take 0 1 5\nj 1 1 give 0 1\ns 1 0 0 1\nt 2 1 1\n",
        Some((4, 1)),
    ),
    // an object of the next cycle doesn't ride in the block of the one before
    (
        NEXT_CYCLE,
        "o 0 0xc000000000\no 1 0xc000000008\nj 0 0 take 0 1 5\ns 1 0 1 0\nt 2 2 0\n",
        Some((4, 2)),
    ),
    // a lead sits in a span of 16 bytes, and not of 8
    (
        "a 0 8 n 1\n",
        "o 0 0xc000000000\nj 0 0 take 0 1 3\nt 1 1 0\n",
        Some((4, 1)),
    ),
    // rule 5: a lead in the slot of another one, also of one whose rider alone is marked
    (
        FIVE,
        "o 0 0xc000000000\no 1 0xc000000008\no 2 0xc00000000c\no 3 0xc00000000e\no 4 0xc000000000\nj 0 0 take 0 1 5\nt 2 2 0\n",
        Some((5, 5)),
    ),
    (
        "a 0 8 n 1\na 0 8 n 1\ngc 1\nm 1 1\na 0 8 n 1\n",
        "o 0 0xc000000000\no 1 0xc000000008\no 2 0xc000000000\nj 0 0 take 0 1 5\ns 1 0 1 0\nt 2 2 0\n",
        Some((5, 3)),
    ),
    // rule 6: a lead leaves a slot free
    (
        FIVE,
        "o 0 0xc000000000\no 1 0xc000000008\no 2 0xc00000000c\no 3 0xc00000000e\no 4 0xc000000020\nj 0 0 take 0 1 5\nt 2 2 0\n",
        Some((6, 5)),
    ),
    // rule 7: a sweep frees a block whose rider is marked, or counts the rider
    (
        RIDER_KEPT,
        "o 0 0xc000000000\no 1 0xc000000008\nj 0 0 take 0 1 5\ns 1 0 0 1\nt 2 1 1\n",
        Some((7, 4)),
    ),
    (
        RIDER_KEPT,
        "o 0 0xc000000000\no 1 0xc000000008\nj 0 0 take 0 1 5\ns 1 0 2 0\nt 2 1 0\n",
        Some((7, 4)),
    ),
    // rule 8: riders are counted, the lead is counted among 8 bytes, or its block is freed
    (
        FIVE,
        "o 0 0xc000000000\no 1 0xc000000008\no 2 0xc00000000c\no 3 0xc00000000e\no 4 0xc000000010\nj 0 0 take 0 1 5\nt 2 5 0\n",
        Some((8, 7)),
    ),
    (
        "a 0 8 n 1\n",
        "o 0 0xc000000000\nj 0 0 take 0 1 5\nt 1 1 0\n",
        Some((8, 3)),
    ),
    (
        RIDER_KEPT,
        "o 0 0xc000000000\no 1 0xc000000008\nj 0 0 take 0 1 5\ns 1 0 1 0\nt 2 1 1\n",
        Some((8, 5)),
    ),
    // rule 10: a rider at its lead's address, at an offset that isn't raised, in another block, at no address, or first of two
    (
        RIDER_KEPT,
        "o 0 0xc000000000\no 1 0xc000000000\nj 0 0 take 0 1 5\ns 1 0 1 0\nt 2 1 0\n",
        Some((10, 2)),
    ),
    (
        "a 0 1 n 1\na 0 2 n 1\n",
        "o 0 0xc000000000\no 1 0xc000000001\nj 0 0 take 0 1 5\nt 2 1 0\n",
        Some((10, 2)),
    ),
    (
        "a 0 8 n 1\na 0 12 n 1\na 0 4 n 1\n",
        "o 0 0xc000000000\no 1 0xc000000010\no 2 0xc00000001c\nj 0 0 take 0 1 5\nt 2 2 0\n",
        Some((10, 3)),
    ),
    (
        RIDER_KEPT,
        "o 0 0xc000000000\no 1 miss 0\nj 0 0 take 0 1 5\ns 1 0 1 0\nt 2 1 0\n",
        Some((10, 2)),
    ),
    (
        FIVE,
        "o 0 0xc000000000\no 1 0xc000000008\no 2 0xc00000000d\no 3 0xc00000000f\no 4 0xc000000010\nj 0 0 take 0 1 5\nt 2 2 0\n",
        Some((10, 3)),
    ),
    (
        FIVE,
        "o 0 0xc000000000\no 1 0xc000000010\no 2 0xc00000000c\no 3 0xc00000000e\no 4 0xc000000010\nj 0 0 take 0 1 5\nt 2 2 0\n",
        Some((10, 2)),
    ),
    // the rules are tried in their order
    (
        FIVE,
        "o 0 0xc000000000\no 1 0xc000000000\no 2 0xc00000000c\no 3 0xc00000000e\no 4 0xc000000010\nj 0 0 take 0 1 5\nt 2 5 0\n",
        Some((8, 7)),
    ),
];

// Each processor has a block of its own, in a span of its own.
const OF_TWO: [Row; 3] = [
    (
        "a 0 8 n 1\na 1 4 n 1\na 0 8 n 1\na 1 4 n 1\n",
        "o 0 0xc000000000\no 1 0xc000002000\no 2 0xc000000008\no 3 0xc000002004\nj 0 0 take 0 1 5\nj 1 0 take 1 1 5\nt 2 2 0\n",
        None,
    ),
    (
        "a 0 8 n 1\na 1 8 n 1\n",
        "o 0 0xc000000000\no 1 0xc000000008\nj 0 0 take 0 1 5\nt 2 2 0\n",
        Some((4, 2)),
    ),
    (
        "a 0 8 n 1\na 1 4 n 1\na 0 8 n 1\na 1 4 n 1\n",
        "o 0 0xc000000000\no 1 0xc000002000\no 2 0xc000000008\no 3 0xc00000000c\nj 0 0 take 0 1 5\nj 1 0 take 1 1 5\nt 2 2 0\n",
        Some((10, 4)),
    ),
];

// Of each block the lead alone is sampled, as an object of 16 bytes.
const SAMPLED: [Row; 3] = [
    (
        "a 0 8 n 1\na 0 8 n 2\ngc 1\nm 1 1\n",
        "o 0 0xc000000000\no 1 0xc000000008\nj 0 0 take 0 1 5\ns 1 0 1 0\nt 2 1 0\np 1 1 16 1 0\n",
        None,
    ),
    (
        "a 0 8 n 1\na 0 8 n 2\ngc 1\nm 1 1\n",
        "o 0 0xc000000000\no 1 0xc000000008\nj 0 0 take 0 1 5\ns 1 0 1 0\nt 2 1 0\np 1 1 8 1 0\n",
        Some((9, 6)),
    ),
    (
        "a 0 8 n 1\na 0 8 n 2\ngc 1\nm 1 1\n",
        "o 0 0xc000000000\no 1 0xc000000008\nj 0 0 take 0 1 5\ns 1 0 1 0\nt 2 1 0\np 1 1 16 1 0\np 1 2 16 1 0\n",
        Some((9, 7)),
    ),
];
