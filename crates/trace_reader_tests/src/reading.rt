//! Traces in memory. The faults are found by hand from the rules of the format.

use TraceFault::{BadMark, Limit, Malformed, Truncated};
use edge_io::{Lines, List, MemorySink, MemorySource};
use std::alloc::Global;
use std::process::Abort;
use std::test::Fail;
use trace_reader::{TraceFault, Which, expect_end, read_trace};
use trace_writer::print_trace;

const HEAD: &str = "goheap 1\nheap 1 procs 1 rate 0 seed 1 goal 512\n";

// A source of these bytes, of whose reads those of these numbers fail.
fn source_of(alloc: Global, input: &str, failing: &[u64]) -> Result<MemorySource, Fail> {
    let bytes = input.as_bytes().to_vec(alloc)?;
    let failing = failing.to_vec(alloc)?;
    Ok(MemorySource::new(List::from_vec(bytes), List::from_vec(failing)))
}

// What is wrong with a source of at most so many bytes, if anything is.
fn fault_in(alloc: Global, source: &mut MemorySource, limit: u64) -> Option<TraceFault> {
    let mut lines = Lines::new(source, limit);
    match read_trace(alloc, &mut lines) {
        Ok(_) => expect_end(&mut lines).err(),
        Err(fault) => Some(fault),
    }
}

// The same of these bytes, where the reads of these numbers fail.
fn fault_over(
    alloc: Global,
    input: &str,
    limit: u64,
    failing: &[u64],
) -> Result<Option<TraceFault>, Fail> {
    let mut source = source_of(alloc, input, failing)?;
    Ok(fault_in(alloc, &mut source, limit))
}

// What is wrong with a trace that has these lines, each so often, and then these.
fn fault_behind<R: AllocGlobal>(
    rt: &R,
    many: &[(&str, usize)],
    last: &str,
) -> Result<Option<TraceFault>, Fail> {
    let mut input = format!(in rt.alloc(); "{HEAD}")?;
    for (lines, times) in many {
        for _ in 0..*times {
            input.push_str(lines)?;
        }
    }
    input.push_str(last)?;
    fault_over(rt.alloc(), input.as_str(), 67_108_864, &[])
}

// Wants that this, of at most so many bytes and with these reads failing, is wrong with an input that has such a front.
fn expect_fault<R: AllocGlobal + Abort>(
    rt: &R,
    input: (&str, &str),
    limit: u64,
    failing: &[u64],
    fault: Option<TraceFault>,
) -> Result<(), Fail> {
    let (front, last) = input;
    let input = format!(in rt.alloc(); "{front}{last}")?;
    let found = fault_over(rt.alloc(), input.as_str(), limit, failing)?;
    assert_eq!(rt; found, fault, "at {input}");
    Ok(())
}

const FIRST: &[(&str, u64, Option<TraceFault>)] = &[
    ("a 0 24 s 1\na 0 32768 n 999999\nend\n", 999, None),
    ("a 0 32769 s 1\na 0 1099511627776 n 1\nend\n", 999, None),
    ("end\n", 51, None),
    ("end\n", 50, Some(Limit(3, Which::Bytes))),
    ("a 0 24 s 1\n", 999, Some(Truncated(4))),
    ("a 0 24 s 1\nen", 999, Some(Truncated(4))),
    ("gc 1", 999, Some(Truncated(3))),
    ("gc 1\nm 0", 999, Some(Truncated(4))),
    ("a 0 024 s 1\nend\n", 999, Some(Malformed(3))),
    ("a 0 24 s 1\nend\nx\n", 999, Some(Malformed(5))),
    ("gc 1\nend\nm 0 0\n", 999, Some(Malformed(5))),
    (
        "a 1 1099511627777 s 1\nend\n",
        999,
        Some(Limit(3, Which::Proc)),
    ),
    (
        "a 0 1099511627777 s 1\nend\n",
        999,
        Some(Limit(3, Which::Size)),
    ),
    (
        "a 0 32769 s 1000000\nend\n",
        999,
        Some(Limit(3, Which::Stack)),
    ),
];

#[test]
fn first_faults(rt: HostRuntime) -> Result<(), Fail> {
    for &(lines, limit, fault) in FIRST {
        expect_fault(&rt, (HEAD, lines), limit, &[], fault)?;
    }
    Ok(())
}

const GOOD: &str = "goheap 1\nheap 1 procs 1 rate 0 seed 1 goal 512\na 0 24 s 1\n";

const ENDED: &str = "goheap 1\nheap 1 procs 1 rate 0 seed 1 goal 512\nend\n";

// What stands before the last piece, that piece, the limit and what is wrong.
const FAILING: &[(&str, &str, u64, TraceFault)] = &[
    ("", "x\n", 999, Malformed(1)),
    ("", "x", 999, TraceFault::ReadFault),
    ("", "goheap 1\n", 999, TraceFault::ReadFault),
    (GOOD, "", 999, TraceFault::ReadFault),
    (GOOD, "a 0 24 x 1\n", 999, Malformed(4)),
    (GOOD, "a 0 24 x 1", 999, TraceFault::ReadFault),
    (ENDED, "", 999, TraceFault::ReadFault),
    (ENDED, "x\n", 999, Malformed(4)),
    (ENDED, "x", 999, TraceFault::ReadFault),
    ("", "goheap 1\n", 8, Limit(1, Which::Bytes)),
];

// The first read gives all bytes, and the second fails: a line that is whole, too long or past the limit decides.
#[test]
fn first_faults_before_a_failed_read(rt: HostRuntime) -> Result<(), Fail> {
    for &(front, last, limit, fault) in FAILING {
        expect_fault(&rt, (front, last), limit, &[1], Some(fault))?;
    }
    Ok(())
}

/// What two readings of a trace, and then one of the input's end, find wrong.
type Thrice = (Option<TraceFault>, Option<TraceFault>, Option<TraceFault>);

fn read_thrice(alloc: Global, source: &mut MemorySource) -> Thrice {
    let mut lines = Lines::new(source, 999);
    let first = read_trace(alloc, &mut lines).err();
    let second = read_trace(alloc, &mut lines).err();
    (first, second, expect_end(&mut lines).err())
}

// Lines that have seen the end of the input are read again.
#[test]
fn nothing_is_read_behind_the_end(rt: HostRuntime) -> Result<(), Fail> {
    // A third read would fail.
    let mut source = source_of(rt.alloc(), "goheap 1", &[2])?;
    let found = read_thrice(rt.alloc(), &mut source);
    assert_eq!(rt; found, (Some(Truncated(1)), Some(Truncated(2)), None));
    Ok(())
}

const HEADERS: &[(&str, TraceFault)] = &[
    (
        "heap 1 procs 1 rate 1 seed 1 goal 512\ngc 1\nm 0 0\nend\n",
        BadMark(4, 0),
    ),
    (
        "heap 1 procs 1 rate 1073741824 seed 1 goal 512\ngc 1\nm 0 0\nend\n",
        BadMark(4, 0),
    ),
    (
        "heap 1 procs 1 rate 1073741825 seed 1 goal 512\ngc 1\nm 0 0\nend\n",
        Limit(2, Which::Rate),
    ),
    (
        "heap 1 procs 2 rate 0 seed 1 goal 511\ngc 1\nm 0 0\nend\n",
        BadMark(4, 0),
    ),
    (
        "heap 1 procs 1 rate 0 seed 0 goal 512\ngc 1\nm 0 0\nend\n",
        BadMark(4, 0),
    ),
];

#[test]
fn headers(rt: HostRuntime) -> Result<(), Fail> {
    for &(lines, fault) in HEADERS {
        expect_fault(&rt, ("goheap 1\n", lines), 999, &[], Some(fault))?;
    }
    Ok(())
}

// First lines, what stands behind them, and what is wrong with the trace, if anything is.
const VERSIONS: &[(&str, &str, Option<TraceFault>)] = &[
    (
        "goheap 2\n",
        "heap 1 procs 1 rate 0 seed 1 goal 512\nend\n",
        None,
    ),
    ("goheap 2", "", Some(Truncated(1))),
    ("goheap 2\n", "", Some(Truncated(2))),
    ("goheap 2\n", "goheap 2\nend\n", Some(Malformed(2))),
    (
        "goheap 2\n",
        "heap 129 procs 1 rate 0 seed 1 goal 65537\nend\n",
        None,
    ),
    (
        "goheap 2\n",
        "heap 4096 procs 1 rate 0 seed 1 goal 2097152\nend\n",
        None,
    ),
    (
        "goheap 2\n",
        "heap 4097 procs 1 rate 0 seed 1 goal 512\nend\n",
        Some(Limit(2, Which::Chunks)),
    ),
    (
        "goheap 2\n",
        "heap 1 procs 1 rate 0 seed 1 goal 2097153\nend\n",
        Some(Limit(2, Which::Goal)),
    ),
    (
        "goheap 2\n",
        "heap 0 procs 1 rate 0 seed 1 goal 0\nend\n",
        Some(Limit(2, Which::Chunks)),
    ),
    (
        "goheap 1\n",
        "heap 128 procs 1 rate 0 seed 1 goal 65536\nend\n",
        None,
    ),
    (
        "goheap 1\n",
        "heap 129 procs 1 rate 0 seed 1 goal 512\nend\n",
        Some(Limit(2, Which::Chunks)),
    ),
    (
        "goheap 1\n",
        "heap 128 procs 1 rate 0 seed 1 goal 65537\nend\n",
        Some(Limit(2, Which::Goal)),
    ),
    ("goheap 0\n", "heap 1 procs 1\n", Some(Malformed(1))),
    (
        "goheap 3\n",
        "heap 1 procs 1 rate 0 seed 1 goal 512\nend\n",
        None,
    ),
    (
        "goheap 3\n",
        "heap 4097 procs 1 rate 0 seed 1 goal 512\nend\n",
        Some(Limit(2, Which::Chunks)),
    ),
    ("goheap 4\n", "heap 1 procs 1\n", Some(Malformed(1))),
    ("goheap 02\n", "heap 1 procs 1\n", Some(Malformed(1))),
    ("goheap 22\n", "heap 1 procs 1\n", Some(Malformed(1))),
    ("goheap 2 \n", "heap 1 procs 1\n", Some(Malformed(1))),
    ("goheap\n", "heap 1 procs 1\n", Some(Malformed(1))),
    ("goheap 99999999999999999999\n", "", Some(Malformed(1))),
    ("goheap 100000000000000000002\n", "", Some(Malformed(1))),
];

#[test]
fn versions(rt: HostRuntime) -> Result<(), Fail> {
    for &(front, lines, fault) in VERSIONS {
        expect_fault(&rt, (front, lines), 999, &[], fault)?;
    }
    Ok(())
}

// The version of the trace of these bytes.
fn version_of(alloc: Global, input: &str) -> Result<Option<u8>, Fail> {
    let mut source = source_of(alloc, input, &[])?;
    let mut lines = Lines::new(&mut source, 999);
    let trace = read_trace(alloc, &mut lines);
    Ok(trace.ok().map(|trace| trace.header.version))
}

#[test]
fn the_first_line_says_the_version(rt: HostRuntime) -> Result<(), Fail> {
    let first = version_of(rt.alloc(), ENDED)?;
    let second = version_of(
        rt.alloc(),
        "goheap 2\nheap 1 procs 1 rate 0 seed 1 goal 512\nend\n",
    )?;
    assert_eq!(rt; (first, second), (Some(1), Some(2)));
    Ok(())
}

// How many objects come before, the lines behind them, and what is wrong with the trace, if anything is.
type MarkRow = (usize, &'static str, Option<TraceFault>);

// distances
const DISTANCES: &[MarkRow] = &[
    (0, "gc 1\nend\n", None),
    (0, "gc 1099511627776\nend\n", None),
    (0, "gc 0\nend\n", Some(Limit(3, Which::Distance))),
    (
        0,
        "gc 1099511627777\nend\n",
        Some(Limit(3, Which::Distance)),
    ),
    (0, "gc 01\nend\n", Some(Malformed(3))),
    (0, "gc\nend\n", Some(Malformed(3))),
    (0, "gc 1 1\nend\n", Some(Malformed(3))),
];

// where no marks may stand
const PLACES_OF_MARKS: &[MarkRow] = &[
    (0, "m 0 0\nend\n", Some(Malformed(3))),
    (1, "m 0 0\nend\n", Some(Malformed(4))),
    (1, "gc 1\na 0 8 n 1\nm 0 0\nend\n", Some(Malformed(6))),
    (
        1,
        "gc 1\nm 0 0\na 0 8 n 1\nm 1 1\nend\n",
        Some(Malformed(7)),
    ),
];

// orders
const ORDERS: &[MarkRow] = &[
    (2, "gc 1\nm 0 0\nm 1 1\nend\n", None),
    (2, "gc 1\nm 1 0\nend\n", Some(Malformed(6))),
    (2, "gc 1\nm 0 0\nm 0 0\nend\n", Some(Malformed(7))),
    (2, "gc 1\nm 0 0\nm 0 1\nend\n", Some(Malformed(7))),
    (2, "gc 1\nm 1 1\nm 0 0\nend\n", Some(Malformed(7))),
    (2, "gc 1\nm 0 1\nm 1 2\nend\n", Some(Malformed(7))),
    (2, "gc 1\nm 1 1\ngc 1\nm 0 0\nend\n", Some(BadMark(8, 0))),
    (2, "gc 1\nm 0 1\ngc 1\nm 0 0\nend\n", None),
    (2, "gc 1\nm 0 x\nend\n", Some(Malformed(6))),
    (2, "gc 1\nm 0\nend\n", Some(Malformed(6))),
];

// ids
const IDS: &[MarkRow] = &[
    (0, "gc 1\nm 2000000 1\nend\n", Some(Malformed(4))),
    (
        0,
        "gc 1\nm 1000000 1000000\nend\n",
        Some(Limit(4, Which::Id)),
    ),
    (1, "gc 1\nm 0 1000000\nend\n", Some(Limit(5, Which::Id))),
    (1, "gc 1\nm 0 999999\nend\n", Some(BadMark(5, 1))),
    (1, "gc 1\nm 999999 999999\nend\n", Some(BadMark(5, 999999))),
];

// dead, future and unknown objects
const OBJECTS_NOT_LIVE: &[MarkRow] = &[
    (1, "gc 1\ngc 1\nm 0 0\nend\n", Some(BadMark(6, 0))),
    (2, "gc 1\nm 0 0\ngc 1\nm 0 1\nend\n", Some(BadMark(8, 1))),
    (
        2,
        "gc 1\nm 1 1\ngc 1\nm 1 1\ngc 1\nm 0 1\nend\n",
        Some(BadMark(10, 0)),
    ),
    (1, "gc 1\nm 1 1\na 0 8 n 1\nend\n", Some(BadMark(5, 1))),
    (1, "gc 1\nm 0 0\nm 5 9\nend\n", Some(BadMark(6, 5))),
];

// objects that were refused, and objects of size 0
const REFUSED_OBJECTS: &[MarkRow] = &[
    (0, "a 0 1099511627776 n 1\ngc 1\nm 0 0\nend\n", None),
    (0, "a 0 0 n 1\ngc 1\nm 0 0\nend\n", None),
];

// marks of the mark end before, in parts and together
const MARKS_OF_BEFORE: &[MarkRow] = &[
    (
        4,
        "gc 1\nm 0 3\ngc 1\nm 0 0\nm 1 1\nm 2 2\nm 3 3\nend\n",
        None,
    ),
    (
        4,
        "gc 1\nm 0 0\nm 1 1\nm 2 3\na 0 8 n 1\ngc 1\nm 0 4\nend\n",
        None,
    ),
    (
        4,
        "gc 1\nm 0 0\nm 2 3\na 0 8 n 1\ngc 1\nm 2 5\nend\n",
        Some(BadMark(12, 5)),
    ),
    (
        4,
        "gc 1\nm 0 0\nm 2 3\na 0 8 n 1\ngc 1\nm 0 4\nend\n",
        Some(BadMark(12, 1)),
    ),
    (
        4,
        "gc 1\nm 0 3\ngc 1\nm 1 1\nm 3 3\ngc 1\nm 1 1\nm 2 2\nend\n",
        Some(BadMark(14, 2)),
    ),
    (
        4,
        "gc 1\nm 0 3\ngc 1\ngc 1\nm 3 3\nend\n",
        Some(BadMark(11, 3)),
    ),
];

fn marks_are_judged<R: Abort + AllocGlobal>(rt: &R, table: &[MarkRow]) -> Result<(), Fail> {
    for &(objects, lines, fault) in table {
        let found = fault_behind(rt, &[("a 0 8 n 1\n", objects)], lines)?;
        assert_eq!(rt; found, fault, "behind {objects} objects at {lines}");
    }
    Ok(())
}

#[test]
fn mark_ends_and_marks(rt: HostRuntime) -> Result<(), Fail> {
    let tables = [
        DISTANCES,
        PLACES_OF_MARKS,
        ORDERS,
        IDS,
        OBJECTS_NOT_LIVE,
        REFUSED_OBJECTS,
        MARKS_OF_BEFORE,
    ];
    for table in tables {
        marks_are_judged(&rt, table)?;
    }
    Ok(())
}

const OBJECT: &str = "a 0 0 n 0\n";

const ALL_MARKED: &str = "gc 1\nm 0 19999\n";

// Lines, each so often, the lines behind them, and what is wrong with the trace, if anything is.
const COUNTS: &[(&[(&str, usize)], &str, Option<TraceFault>)] = &[
    (&[("gc 1\n", 10_000)], "end\n", None),
    (
        &[("gc 1\n", 10_001)],
        "end\n",
        Some(Limit(10_003, Which::MarkEnds)),
    ),
    (
        &[("gc 1\n", 10_000)],
        "gc 0\nend\n",
        Some(Limit(10_003, Which::Distance)),
    ),
    (&[(OBJECT, 20_000), (ALL_MARKED, 1000)], "gc 1\nend\n", None),
    (
        &[(OBJECT, 20_000), (ALL_MARKED, 1000)],
        "gc 1\nm 0 0\nend\n",
        Some(Limit(22_004, Which::Marks)),
    ),
    (
        &[(OBJECT, 20_000), (ALL_MARKED, 999)],
        "gc 1\nm 0 20000\nend\n",
        Some(Limit(22_002, Which::Marks)),
    ),
    (
        &[(OBJECT, 20_000), (ALL_MARKED, 999)],
        "gc 1\nm 1 20000\nend\n",
        Some(BadMark(22_002, 20_000)),
    ),
    (
        &[(OBJECT, 20_000), (ALL_MARKED, 999)],
        "gc 1\nm 0 9999\nm 10000 19999\nend\n",
        None,
    ),
];

#[test]
fn counts_at_their_limits(rt: HostRuntime) -> Result<(), Fail> {
    for &(many, last, fault) in COUNTS {
        assert_eq!(rt; fault_behind(&rt, many, last)?, fault, "at {last}");
    }
    Ok(())
}

const MILLION: &[(usize, &str, Option<TraceFault>)] = &[
    (1_000_000, "gc 1\nm 0 999999\nend\n", None),
    (1_000_001, "end\n", Some(Limit(1_000_003, Which::Objects))),
];

#[test]
fn a_million_objects(rt: HostRuntime) -> Result<(), Fail> {
    for &(objects, last, fault) in MILLION {
        let found = fault_behind(&rt, &[(OBJECT, objects)], last)?;
        assert_eq!(rt; found, fault, "at {last}");
    }
    Ok(())
}

// Whether what is read is printed as it is, and nothing is printed where the first write fails.
fn prints(
    alloc: Global,
    source: &mut MemorySource,
    whole: &mut MemorySink,
    failing: &mut MemorySink,
    input: &str,
) -> bool {
    let mut lines = Lines::new(source, 67_108_864);
    let Ok(trace) = read_trace(alloc, &mut lines) else {
        return false;
    };
    let is_whole = print_trace(whole, &trace).is_ok();
    let is_failed = print_trace(failing, &trace).is_err();
    is_whole && is_failed && whole.held() == input.as_bytes() && failing.held().is_empty()
}

// The same of the trace of these bytes.
fn is_printed(alloc: Global, input: &str) -> Result<bool, Fail> {
    let mut failing = MemorySink::new(alloc, List::from_vec(vec![in alloc; 0]?));
    let mut source = source_of(alloc, input, &[])?;
    let mut whole = MemorySink::new(alloc, List::new(alloc));
    Ok(prints(alloc, &mut source, &mut whole, &mut failing, input))
}

const PRINTED: &[&str] = &[
    "goheap 1\nheap 1 procs 1 rate 0 seed 1 goal 512\nend\n",
    "goheap 1\nheap 128 procs 1 rate 0 seed 18446744073709551615 goal 65536\na 0 1099511627776 s 999999\na 0 0 n 0\nend\n",
    "goheap 1\nheap 1 procs 1 rate 0 seed 0 goal 512\na 0 8 n 1\na 0 9 s 2\ngc 1\nm 0 0\nm 1 1\ngc 1099511627776\na 0 1 n 3\ngc 7\nm 2 2\nend\n",
    "goheap 2\nheap 1 procs 1 rate 0 seed 1 goal 512\na 0 24 s 1\ngc 1\nm 0 0\nend\n",
    "goheap 2\nheap 4096 procs 64 rate 1073741824 seed 18446744073709551615 goal 2097152\na 63 0 n 0\nend\n",
];

#[test]
fn what_is_read_is_printed(rt: HostRuntime) -> Result<(), Fail> {
    for &input in PRINTED {
        assert!(rt; is_printed(rt.alloc(), input)?, "at {input}");
    }
    Ok(())
}
