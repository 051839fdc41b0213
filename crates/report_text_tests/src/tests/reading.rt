//! Texts of reports in memory, and what is wrong with them. The faults are found by hand from the rules of the format.

use edge_io::{Lines, List, MemorySource};
use report_text::ReportFault::{self, Limit, Malformed, ReadFault, Truncated};
use report_text::read_report;
use std::alloc::Global;
use std::process::Abort;
use std::test::Fail;

/// The most bytes of a report that the program reads.
const MOST: u64 = 4_294_967_296;

// A text, the limit of its bytes, and what is wrong with it, if anything is.
type FaultRow = (&'static str, u64, Option<ReportFault>);

// Lines that are not quite the last one.
const ENDS: [&str; 5] = ["", "end ", "END", "end\r", "x"];

// Lines of objects of no form.
const OBJECTS: [&str; 9] = [
    "o 0",
    "o 1 zero",
    "o 00 zero",
    "o  0 zero",
    "o 0 zero ",
    "o 0 zeroo",
    "o -0 zero",
    " o 0 zero",
    "o 18446744073709551616 zero",
];

// Addresses of no form, or past their type.
const ADDRESSES: [&str; 8] = [
    "o 0 0x",
    "o 0 0x00",
    "o 0 0xC0",
    "o 0 0x0c0",
    "o 0 0xg",
    "o 0 0x10000000000000000",
    "o 0 c0",
    "o 0 0xc0 ",
];

// Misses of no form, or past their type.
const MISSES: [&str; 5] = [
    "o 0 miss",
    "o 0 miss 00",
    "o 0 miss 1 2",
    "o 0 miss 18446744073709551616",
    "o 0 miss 99999999999999999999999999999999",
];

// Journal lines of no form.
const CHANGES: [&str; 10] = [
    "j 0 0",
    "j 1 0 give 0 1",
    "j 00 0 give 0 1",
    "j 0 00 give 0 1",
    "j 0 0 take 0 1",
    "j 0 0 take 0 1 6 7",
    "j 0 0 taken 0 1 6",
    "j 0 0 give 0",
    "j 0 0 miss 0 1 6",
    "j 0 0 free 0 1",
];

// Lines of page caches of no form.
const CACHE_LINES: [&str; 12] = [
    "j 0 0 pull 0 0",
    "j 0 0 pull 0 0 64 1",
    "j 0 0 pull 0 0 64 ",
    "j 0 0 pulls 0 0 64",
    "j 0 0 pull 0 00 64",
    "j 0 0 pull  0 0 64",
    "j 0 0 cut 0 0 1",
    "j 0 0 cut 0 0 1 6 7",
    "j 0 0 cut 0 0 01 6",
    "j 0 0 drop 0 0",
    "j 0 0 drop 0 0 63 6",
    "j 0 0 dropped 0 0 63",
];

// Numbers of page caches past their types.
const PAST_CACHE_TYPES: [&str; 8] = [
    "j 0 4294967296 pull 0 0 64",
    "j 0 0 pull 4294967296 0 64",
    "j 0 0 pull 0 4294967296 64",
    "j 0 0 pull 0 0 4294967296",
    "j 0 0 cut 4294967296 0 1 6",
    "j 0 0 cut 0 0 1 256",
    "j 0 0 drop 4294967296 0 63",
    "j 0 0 drop 0 0 4294967296",
];

// Numbers past their types.
const PAST_THEIR_TYPES: [&str; 8] = [
    "j 0 4294967296 give 0 1",
    "j 0 0 scav 4294967296 1",
    "j 0 0 take 0 4294967296 6",
    "j 0 0 take 0 1 256",
    "j 0 0 miss 1 256",
    "s 1 0 0 4294967296",
    "t 256 1 0",
    "t 3 1 18446744073709551616",
];

// Other lines of no form.
const CLOSINGS: [&str; 9] = [
    "s 1 0 0",
    "s 01 0 0 1",
    "t 3 1",
    "t 3 1 0 0",
    "p 1 7 24 3",
    "p 4294967296 7 24 3 2",
    "p 1 7 18446744073709551616 3 2",
    "p 1 7 24 3 02",
    "p 1 7 24  3 2",
];

// Lines that are out of turn.
const NUMBERS: [&str; 6] = [
    "j 0 0 pull 0 0 64\nj 2 0 drop 0 0 64",
    "o 0 zero\nj 1 0 pull 0 0 64",
    "o 0 zero\no 0 zero",
    "o 0 zero\no 2 zero",
    "o 0 zero\nj 1 0 give 0 1",
    "j 0 0 give 0 1\nj 2 0 give 0 1",
];

// Lines that are not above the one before.
const SORTS: [&str; 8] = [
    "s 1 0 0 1\ns 1 0 0 1",
    "s 1 1 0 1\ns 1 0 9 9",
    "s 2 0 0 1\ns 1 5 0 1",
    "t 3 1 0\nt 3 1 0",
    "t 3 1 0\nt 2 1 0",
    "p 1 7 24 3 2\np 1 7 24 9 9",
    "p 1 7 24 3 2\np 1 6 32 3 2",
    "p 2 0 0 0 0\np 1 9 9 9 9",
];

// Lines of a kind that comes before, or behind the last line.
const KINDS: [&str; 8] = [
    "j 0 0 take 0 1 6\no 0 0xc0",
    "s 1 0 0 1\nj 0 0 give 0 1",
    "t 3 1 0\ns 1 0 0 1",
    "p 1 7 24 3 2\nt 3 1 0",
    "p 1 7 24 3 2\no 0 zero",
    "end\no 0 zero",
    "end\n",
    "end\nx",
];

// Texts that end early.
const EARLY_ENDS: [FaultRow; 5] = [
    ("", MOST, Some(Truncated(1))),
    ("end", MOST, Some(Truncated(1))),
    ("o 0 zero\n", MOST, Some(Truncated(2))),
    ("o 0 zero\no 5 ze", MOST, Some(Truncated(2))),
    ("end", 3, Some(Truncated(1))),
];

// Texts with the limit of their bytes.
const LIMITS: [FaultRow; 8] = [
    ("end\n", 4, None),
    ("end\n", 3, Some(Limit(1))),
    ("end\nx", 4, Some(Malformed(2))),
    ("", 0, Some(Truncated(1))),
    ("\n", 0, Some(Limit(1))),
    ("x\n", 1, Some(Limit(1))),
    ("o 0 zero\nend\n", 9, Some(Limit(2))),
    ("o 1 zero\nend\n", 9, Some(Malformed(1))),
];

// Lines of 120 and of 121 bytes.
const LONG_LINES: [FaultRow; 4] = [
    (
        "aaaaaaaaaaaaaaaaaaaaaaaaaaaaaaaaaaaaaaaaaaaaaaaaaaaaaaaaaaaaaaaaaaaaaaaaaaaaaaaaaaaaaaaaaaaaaaaaaaaaaaaaaaaaaaaaaaaaaaaa\nend\n",
        MOST,
        Some(Malformed(1)),
    ),
    (
        "aaaaaaaaaaaaaaaaaaaaaaaaaaaaaaaaaaaaaaaaaaaaaaaaaaaaaaaaaaaaaaaaaaaaaaaaaaaaaaaaaaaaaaaaaaaaaaaaaaaaaaaaaaaaaaaaaaaaaaaa",
        120,
        Some(Truncated(1)),
    ),
    (
        "aaaaaaaaaaaaaaaaaaaaaaaaaaaaaaaaaaaaaaaaaaaaaaaaaaaaaaaaaaaaaaaaaaaaaaaaaaaaaaaaaaaaaaaaaaaaaaaaaaaaaaaaaaaaaaaaaaaaaaaaa",
        121,
        Some(Malformed(1)),
    ),
    (
        "aaaaaaaaaaaaaaaaaaaaaaaaaaaaaaaaaaaaaaaaaaaaaaaaaaaaaaaaaaaaaaaaaaaaaaaaaaaaaaaaaaaaaaaaaaaaaaaaaaaaaaaaaaaaaaaaaaaaaaaaa",
        120,
        Some(Limit(1)),
    ),
];

// What is wrong with a text of at most so many bytes, if anything is.
fn fault_in(alloc: Global, source: &mut MemorySource, limit: u64) -> Option<ReportFault> {
    let mut lines = Lines::new(source, limit);
    read_report(alloc, &mut lines).err()
}

// The same of these bytes, where the read of this number fails.
fn fault_of(
    alloc: Global,
    text: &str,
    limit: u64,
    failing: &[u64],
) -> Result<Option<ReportFault>, Fail> {
    let bytes = text.as_bytes().to_vec(alloc)?;
    let failing = failing.to_vec(alloc)?;
    let mut source = MemorySource::new(List::from_vec(bytes), List::from_vec(failing));
    Ok(fault_in(alloc, &mut source, limit))
}

// The line of this number of each text is malformed.
fn all_are_malformed<R: Abort + AllocGlobal>(
    rt: &R,
    table: &[&str],
    number: u64,
) -> Result<(), Fail> {
    for &lines in table {
        let text = format!(in rt.alloc(); "{lines}\nend\n")?;
        let fault = fault_of(rt.alloc(), text.as_str(), MOST, &[])?;
        assert_eq!(rt; fault, Some(Malformed(number)), "at {lines}");
    }
    Ok(())
}

#[test]
fn lines_of_no_form(rt: HostRuntime) -> Result<(), Fail> {
    all_are_malformed(&rt, &ENDS, 1)?;
    all_are_malformed(&rt, &OBJECTS, 1)?;
    all_are_malformed(&rt, &ADDRESSES, 1)?;
    all_are_malformed(&rt, &MISSES, 1)?;
    all_are_malformed(&rt, &CHANGES, 1)?;
    all_are_malformed(&rt, &CACHE_LINES, 1)?;
    all_are_malformed(&rt, &PAST_CACHE_TYPES, 1)?;
    all_are_malformed(&rt, &PAST_THEIR_TYPES, 1)?;
    all_are_malformed(&rt, &CLOSINGS, 1)?;
    all_are_malformed(&rt, &NUMBERS, 2)?;
    all_are_malformed(&rt, &SORTS, 2)?;
    all_are_malformed(&rt, &KINDS, 2)
}

fn all_have_faults<R: Abort + AllocGlobal>(rt: &R, table: &[FaultRow]) -> Result<(), Fail> {
    for &(text, limit, fault) in table {
        assert_eq!(rt; fault_of(rt.alloc(), text, limit, &[])?, fault, "at {text}");
    }
    Ok(())
}

// A text, the read that fails, and what is told. Behind a line that is refused nothing is read.
const FAILING: &[(&str, u64, ReportFault)] = &[
    ("end\n", 0, ReadFault),
    ("end\n", 1, ReadFault),
    ("o 0 ze", 1, ReadFault),
    ("o 1 zero\nend\n", 1, Malformed(1)),
];

// Texts that are well formed, whatever their trace: whether the numbers make sense is not asked.
const WELL_FORMED: [FaultRow; 4] = [
    ("j 0 0 pull 0 0 64\nend\n", MOST, None),
    ("j 0 0 cut 0 0 1 6\nend\n", MOST, None),
    ("j 0 0 drop 0 0 0\nend\n", MOST, None),
    ("j 0 0 pull 64 1 0\nj 1 0 cut 0 9 99 255\nend\n", MOST, None),
];

#[test]
fn ends_and_limits(rt: HostRuntime) -> Result<(), Fail> {
    all_have_faults(&rt, &WELL_FORMED)?;
    all_have_faults(&rt, &EARLY_ENDS)?;
    all_have_faults(&rt, &LIMITS)?;
    all_have_faults(&rt, &LONG_LINES)?;
    for &(text, failing, fault) in FAILING {
        let found = fault_of(rt.alloc(), text, MOST, &[failing])?;
        assert_eq!(rt; found, Some(fault), "at {text}");
    }
    Ok(())
}
