//! Reports that are judged. The expected texts are written by hand from the rules of docs/.

use super::*;

/// The lines of a trace, a report behind it, the status of `check` and what it tells.
pub(super) type Row = (&'static str, &'static str, u8, &'static str);

const APART: &str = "a 0 24 s 1\na 0 24 n 1\n";

const ROWS: &[Row] = &[
    (
        APART,
        "o 0 0xc000000000\no 1 0xc000002000\nj 0 0 take 0 1 6\nj 1 0 take 1 1 7\nt 3 2 0\nend\n",
        0,
        "",
    ),
    (
        APART,
        "o 0 0xc000002000\no 1 0xc000000000\nj 0 0 take 0 1 6\nj 1 0 take 1 1 7\nt 3 2 0\nend\n",
        4,
        "goheap: report line 1: rule 4\n",
    ),
    ("", "end\n", 0, ""),
    (
        "",
        "p 1 1 8 1 0\nend\n",
        4,
        "goheap: report line 1: rule 9\n",
    ),
    ("", "", 4, "goheap: report line 1: ends early\n"),
    ("", "end", 4, "goheap: report line 1: ends early\n"),
    ("", "end\nend\n", 4, "goheap: report line 2: malformed\n"),
    ("", "end\nx", 4, "goheap: report line 2: malformed\n"),
    (
        "a 0 24 s 1\n",
        "o 00 0xc000000000\nend\n",
        4,
        "goheap: report line 1: malformed\n",
    ),
    (
        "a 0 24 s 1\n",
        "o 0 0xffffffffffffffff\nj 0 0 take 0 1 6\nt 3 1 0\nend\n",
        4,
        "goheap: report line 1: rule 4\n",
    ),
    (
        "a 0 24 s 1\n",
        "o 0 miss 18446744073709551615\nend\n",
        4,
        "goheap: report line 1: rule 3\n",
    ),
    (
        "a 0 024 s 1\n",
        "end\n",
        3,
        "goheap: trace line 3: malformed\n",
    ),
];

const TWO_CYCLES: &str = "a 0 24 s 1\ngc 1\n";

// A trace of one object before its mark end or without one, under its first line, and reports with page caches.
const CACHED: &[(&str, Row)] = &[
    (
        CACHING,
        (
            "a 0 24 s 1\n",
            "o 0 0xc000000000\nj 0 0 pull 0 0 64\nj 1 0 cut 0 0 1 6\nj 2 0 drop 0 0 63\nt 3 1 0\nend\n",
            0,
            "",
        ),
    ),
    // a cut that leaves the block's first page
    (
        CACHING,
        (
            "a 0 24 s 1\n",
            "o 0 0xc000002000\nj 0 0 pull 0 0 64\nj 1 0 cut 0 1 1 6\nj 2 0 drop 0 0 63\nt 3 1 0\nend\n",
            4,
            "goheap: report line 3: rule 2\n",
        ),
    ),
    // the first report, of a trace of version 1
    (
        HEAD,
        (
            "a 0 24 s 1\n",
            "o 0 0xc000000000\nj 0 0 pull 0 0 64\nj 1 0 cut 0 0 1 6\nj 2 0 drop 0 0 63\nt 3 1 0\nend\n",
            4,
            "goheap: report line 2: rule 2\n",
        ),
    ),
    // a block that is never dropped: the line of `end`
    (
        CACHING,
        (
            "a 0 24 s 1\n",
            "o 0 0xc000000000\nj 0 0 pull 0 0 64\nj 1 0 cut 0 0 1 6\nt 3 1 0\nend\n",
            4,
            "goheap: report line 5: rule 2\n",
        ),
    ),
    // a report without page caches is as sound as in version 1
    (
        CACHING,
        (
            "a 0 24 s 1\n",
            "o 0 0xc000000000\nj 0 0 take 0 1 6\nt 3 1 0\nend\n",
            0,
            "",
        ),
    ),
    // the span that was cut is swept and given back; its sweep is missing
    (
        CACHING,
        (
            TWO_CYCLES,
            "o 0 0xc000000000\nj 0 0 pull 0 0 64\nj 1 0 cut 0 0 1 6\nj 2 0 drop 0 0 63\nj 3 1 give 0 1\ns 1 0 0 1\nt 3 1 1\nend\n",
            0,
            "",
        ),
    ),
    (
        CACHING,
        (
            TWO_CYCLES,
            "o 0 0xc000000000\nj 0 0 pull 0 0 64\nj 1 0 cut 0 0 1 6\nj 2 0 drop 0 0 63\nt 3 1 1\nend\n",
            4,
            "goheap: report line 6: rule 7\n",
        ),
    ),
    // an object of a cycle before that of the Cut
    (
        CACHING,
        (
            TWO_CYCLES,
            "o 0 0xc000000000\nj 0 1 pull 0 0 64\nj 1 1 cut 0 0 1 6\nj 2 1 drop 0 0 63\nt 3 1 1\nend\n",
            4,
            "goheap: report line 1: rule 4\n",
        ),
    ),
    // in a span that was cut in this cycle all indices are free
    (
        CACHING,
        (
            "a 0 24 s 1\n",
            "o 0 0xc000000018\nj 0 0 pull 0 0 64\nj 1 0 cut 0 0 1 6\nj 2 0 drop 0 0 63\nt 3 1 0\nend\n",
            4,
            "goheap: report line 1: rule 6\n",
        ),
    ),
];

// Wants this of these words on the trace of these lines with this report behind it.
pub(super) fn expect_said<R: Threads + Wait + Sync + AllocGlobal + Abort>(
    rt: &R,
    head: &str,
    words: &[&str],
    lines: &str,
    report: &str,
    wanted: Wanted<'_>,
) -> Result<(), Fail> {
    let input = format!(in rt.alloc(); "{head}{lines}end\n{report}")?;
    expect(
        rt,
        report,
        words,
        input.as_bytes(),
        failing(&[], &[]),
        wanted,
    )
}

// Wants this of `check`, of the trace of these lines with this report behind it.
fn expect_judged<R: Threads + Wait + Sync + AllocGlobal + Abort>(
    rt: &R,
    lines: &str,
    report: &str,
    wanted: Wanted<'_>,
) -> Result<(), Fail> {
    expect_said(rt, HEAD, &["check"], lines, report, wanted)
}

// What `check` says of this row, whole and in pieces, where the trace begins so.
pub(super) fn expect_row<R: Threads + Wait + Sync + AllocGlobal + Abort>(
    rt: &R,
    head: &str,
    row: Row,
) -> Result<(), Fail> {
    let (lines, report, status, told) = row;
    let wanted = if status == 0 {
        answered("check ok\n")
    } else {
        refused(status, told)
    };
    expect_said(rt, head, &["check"], lines, report, wanted)?;
    expect_said(rt, head, &["check", "--pieces=1"], lines, report, wanted)?;
    expect_said(rt, head, &["check", "--pieces=2"], lines, report, wanted)?;
    expect_said(rt, head, &["check", "--pieces=3"], lines, report, wanted)?;
    expect_said(rt, head, &["check", "--pieces=64"], lines, report, wanted)
}

#[test]
fn reports_are_judged(rt: HostRuntime) -> Result<(), Fail> {
    for &row in ROWS {
        expect_row(&rt, HEAD, row)?;
    }
    for &(head, row) in CACHED {
        expect_row(&rt, head, row)?;
    }
    Ok(())
}

// Wants that a report without its last line is sound.
fn expect_sound<R: Threads + Wait + Sync + AllocGlobal + Abort>(
    rt: &R,
    lines: &str,
    text: &str,
) -> Result<(), Fail> {
    let report = format!(in rt.alloc(); "{text}end\n")?;
    expect_judged(rt, lines, report.as_str(), answered("check ok\n"))
}

// The reports of the table of answers are sound.
#[test]
fn answers_are_judged(rt: HostRuntime) -> Result<(), Fail> {
    for &(lines, text) in ANSWERED {
        expect_sound(&rt, lines, text)?;
    }
    Ok(())
}

// Three objects of 24 bytes at rate 1, of which the mark end marks the first, with their report.
const SAMPLED: &[u8] =
    b"goheap 1\nheap 1 procs 1 rate 1 seed 1 goal 512\na 0 24 s 7\na 0 24 s 7\na 0 24 s 7\ngc 1\nm 0 0\nend\no 0 0xc000000000\no 1 0xc000000018\no 2 0xc000000030\nj 0 0 take 0 1 6\ns 1 0 1 2\nt 3 3 2\np 1 7 24 3 2\nend\n";

// What `heap` writes of a sound report with page caches.
#[test]
fn profiles_with_page_caches_are_written(rt: HostRuntime) -> Result<(), Fail> {
    let lines = "a 0 24 s 7\ngc 1\nm 0 0\n";
    let report =
        "o 0 0xc000000000\nj 0 0 pull 0 0 64\nj 1 0 cut 0 0 1 6\nj 2 0 drop 0 0 63\ns 1 0 1 0\nt 3 1 0\np 1 7 24 1 0\nend\n";
    let wanted = answered("heap profile: 1: 24 [1: 24] @ heap/2\n1: 24 [1: 24] @ 0x7\n");
    let head = "goheap 2\nheap 1 procs 1 rate 1 seed 1 goal 512\n";
    expect_said(&rt, head, &["heap"], lines, report, wanted)?;
    let report =
        "o 0 0xc000000000\nj 0 0 pull 0 0 64\nj 1 0 cut 0 0 1 6\ns 1 0 1 0\nt 3 1 0\np 1 7 24 1 0\nend\n";
    let wanted = refused(4, "goheap: report line 7: rule 2\n");
    expect_said(&rt, head, &["heap"], lines, report, wanted)
}

// What `heap` writes of sound reports, and what it tells of others.
#[test]
fn profiles_are_written(rt: HostRuntime) -> Result<(), Fail> {
    let text = answered("heap profile: 1: 24 [3: 72] @ heap/2\n1: 24 [3: 72] @ 0x7\n");
    expect(&rt, "three", &["heap"], SAMPLED, failing(&[], &[]), text)?;
    let text = answered("heap profile: 0: 0 [0: 0] @ heap/0\n");
    expect(&rt, "none", &["heap"], EMPTY, failing(&[], &[]), text)?;
    let input = format!(in rt.alloc(); "{HEAD}end\np 1 1 8 1 0\nend\n")?;
    let wanted = refused(4, "goheap: report line 1: rule 9\n");
    expect(
        &rt,
        "broken",
        &["heap"],
        input.as_bytes(),
        failing(&[], &[]),
        wanted,
    )?;
    let wanted = refused(6, "goheap: write fault\n");
    expect(&rt, "write", &["heap"], EMPTY, failing(&[], &[0]), wanted)
}

// A trace without events, with its report behind it.
const EMPTY: &[u8] = b"goheap 1\nheap 1 procs 1 rate 0 seed 1 goal 512\nend\nend\n";

// A read and a write that fail.
#[test]
fn judging_is_broken_off(rt: HostRuntime) -> Result<(), Fail> {
    let wanted = refused(5, "goheap: read fault\n");
    expect(&rt, "", &["check"], EMPTY, failing(&[0], &[]), wanted)?;
    let wanted = refused(6, "goheap: write fault\n");
    expect(&rt, "", &["check"], EMPTY, failing(&[], &[0]), wanted)
}
