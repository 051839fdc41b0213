//! Words that are not known, and faulty traces.

use super::*;
use trace_reader::{TraceFault, Which, read_trace};

// Whole inputs, in which `/` stands for a line feed and `[120]` for so many bytes, and what is told of them: ends of input and long lines at each line, and what stands behind `end`.
const INPUTS: &str = "\
|1: ends early
g|1: ends early
goheap 1|1: ends early
/|1: malformed
goheap 1\r/|1: malformed
goheap 1 /|1: malformed
 goheap 1/|1: malformed
goheap  1/|1: malformed
goheap\t1/|1: malformed
Goheap 1/|1: malformed
goheap 01/|1: malformed
goheap 3/|2: ends early
goheap 4/|1: malformed
goheap 2/|2: ends early
goheap 2/heap 4097 procs 1 rate 0 seed 1 goal 2097152/a 0 1 n 1/end/|2: limit chunks
goheap 2/heap 4096 procs 1 rate 0 seed 1 goal 2097153/a 0 1 n 1/end/|2: limit goal
goheap 2/heap 0 procs 1 rate 0 seed 1 goal 512/end/|2: limit chunks
goheap 1/heap 129 procs 1 rate 0 seed 1 goal 65536/a 0 1 n 1/end/|2: limit chunks
goheap 1/heap 128 procs 1 rate 0 seed 1 goal 65537/a 0 1 n 1/end/|2: limit goal
end/|1: malformed
[121]|1: malformed
[120]|1: ends early
[120]/|1: malformed
goheap 1/|2: ends early
goheap 1/heap 1 procs|2: ends early
goheap 1/heap 1 procs 1 rate 0 seed 1 goal 512|2: ends early
goheap 1/[121]|2: malformed
goheap 1/[120]|2: ends early
goheap 1/heap 1 procs 1 rate 0 seed 1 goal 512/|3: ends early
goheap 1/heap 1 procs 1 rate 0 seed 1 goal 512/a 0 24 s 1|3: ends early
goheap 1/heap 1 procs 1 rate 0 seed 1 goal 512/end|3: ends early
goheap 1/heap 1 procs 1 rate 0 seed 1 goal 512/x|3: ends early
goheap 1/heap 1 procs 1 rate 0 seed 1 goal 512/[121]|3: malformed
goheap 1/heap 1 procs 1 rate 0 seed 1 goal 512/[120]|3: ends early
goheap 1/heap 1 procs 1 rate 0 seed 1 goal 512/a 0 24 s 1/|4: ends early
goheap 1/heap 1 procs 1 rate 0 seed 1 goal 512/a 0 24 s 1/en|4: ends early
goheap 1/heap 1 procs 1 rate 0 seed 1 goal 512/a 0 24 s 1/a 0 24 s 1 1/|4: malformed
goheap 1/heap 1 procs 1 rate 0 seed 1 goal 512/a 0 24 s 1/end/x/|5: malformed
goheap 1/heap 1 procs 1 rate 0 seed 1 goal 512/a 0 24 s 1/end/x|5: malformed
goheap 1/heap 1 procs 1 rate 0 seed 1 goal 512/a 0 24 s 1/end//|5: malformed
goheap 1/heap 1 procs 1 rate 0 seed 1 goal 512/end/end/|4: malformed
goheap 1/heap 1 procs 1 rate 0 seed 1 goal 512/end/[121]|4: malformed
goheap 1/heap 1 procs 1 rate 0 seed 1 goal 512/a 0 24 x 1/a 1 24 s 1/end/|3: malformed
goheap 1/heap 1 procs 1 rate 0 seed 1 goal 512/a 1 24 s 1/a 0 24 x 1/end/|3: limit proc
goheap 1/heap 1 procs 1 rate 0 seed 1 goal 512/gc 1/a 0 24 x 1/end/|4: malformed
goheap 1/heap 1 procs 1 rate 0 seed 1 goal 512/a 0 8 n 1/gc 1/gc 1/m 0 0/end/|6: object 0 is not live
goheap 1/heap 2 procs 1 rate 1 seed 1 goal 1024/a 0 24 x 1/end/|3: malformed
goheap 1/heap 0 procs 1 rate 0 seed 1 goal 512|2: ends early";

// Second lines, before `end`, and what is told of them.
const HEADERS: &str = "\
|malformed
end|malformed
goheap 1|malformed
a 0 24 s 1|malformed
heap 01 procs 1 rate 0 seed 1 goal 512|malformed
heap +1 procs 1 rate 0 seed 1 goal 512|malformed
heap -1 procs 1 rate 0 seed 1 goal 512|malformed
heap  1 procs 1 rate 0 seed 1 goal 512|malformed
heap 1  procs 1 rate 0 seed 1 goal 512|malformed
heap\t1 procs 1 rate 0 seed 1 goal 512|malformed
heap 1 procs 01 rate 0 seed 1 goal 512|malformed
heap 1 procs 1 rate 00 seed 1 goal 512|malformed
heap 1 procs 1 rate 0 seed 01 goal 512|malformed
heap 1 procs 1 rate 0 seed 1 goal 0512|malformed
heap 1 procs 1 rate 0 seed 1|malformed
heap 1 procs 1 rate 0 seed 1 goal|malformed
heap 1 procs 1 rate 0 seed 1 goal |malformed
heap 1 procs 1 rate 0 seed 1 goal 512 |malformed
heap 1 procs 1 rate 0 seed 1 goal 512 1|malformed
heap 1 procs 1 rate 0 seed 1 goal 512\r|malformed
heap 1 procs 1 rate 0 seed 100000000000000000000 goal 512|malformed
heap 0 procs 1 rate 0 seed 1 goal 0512|malformed
heap 0 procs 1 rate 0 seed 1 goal 512|limit chunks
heap 129 procs 1 rate 0 seed 1 goal 512|limit chunks
heap 99999999999999999999 procs 1 rate 0 seed 1 goal 512|limit chunks
heap 1 procs 0 rate 0 seed 1 goal 512|limit procs
heap 1 procs 65 rate 0 seed 1 goal 512|limit procs
heap 1 procs 1 rate 1073741825 seed 1 goal 512|limit rate
heap 1 procs 1 rate 0 seed 18446744073709551616 goal 512|limit seed
heap 1 procs 1 rate 0 seed 99999999999999999999 goal 512|limit seed
heap 1 procs 1 rate 0 seed 1 goal 65537|limit goal
heap 0 procs 0 rate 0 seed 1 goal 512|limit chunks
heap 1 procs 65 rate 0 seed 1 goal 65537|limit procs
heap 1 procs 2 rate 0 seed 1 goal 65537|limit goal
heap 1 procs 1 rate 1 seed 18446744073709551616 goal 512|limit seed";

// Third lines, behind the usual head and before `end`, and what is told of them.
const EVENTS: &str = "\
|malformed
x|malformed
a|malformed
a |malformed
a 0|malformed
a 0 24|malformed
a 0 24 s|malformed
a 0 24 s |malformed
a 0 24 s 1 |malformed
a 0 24 s 1 1|malformed
 a 0 24 s 1|malformed
a  0 24 s 1|malformed
a 0  24 s 1|malformed
a 0 24  s 1|malformed
a 0 24 s  1|malformed
a\t0 24 s 1|malformed
a 0 24 s 1\r|malformed
A 0 24 s 1|malformed
b 0 24 s 1|malformed
a 00 24 s 1|malformed
a 0 024 s 1|malformed
a 0 24 s 01|malformed
a -0 24 s 1|malformed
a 0 +24 s 1|malformed
a 0 -24 s 1|malformed
a 0 0x18 s 1|malformed
a 0 24 x 1|malformed
a 0 24 S 1|malformed
a 0 24 sn 1|malformed
a 0 24 s 1x|malformed
a 0 24 s \u{b2}|malformed
a 0 100000000000000000000 s 1|malformed
a 1 24 s 1 1|malformed
goheap 1|malformed
heap 1 procs 1 rate 0 seed 1 goal 512|malformed
m 0 0|malformed
end |malformed
End|malformed
end\r|malformed
gc|malformed
gc 01|malformed
gc 1 1|malformed
a 1 24 s 1|limit proc
a 18446744073709551616 24 s 1|limit proc
a 0 1099511627777 s 1|limit size
a 0 1099511627777 n 1|limit size
a 0 99999999999999999999 s 1|limit size
a 0 24 s 1000000|limit stack
a 1 1099511627777 s 1000000|limit proc
a 0 1099511627777 s 1000000|limit size
a 0 32769 s 1000000|limit stack
gc 0|limit distance
gc 1099511627777|limit distance
aaaaaaaaaaaaaaaaaaaaaaaaaaaaaaaaaaaaaaaaaaaaaaaaaaaaaaaaaaaaaaaaaaaaaaaaaaaaaaaaaaaaaaaaaaaaaaaaaaaaaaaaaaaaaaaaaaaaaaaaa|malformed";

// Second lines that are taken, at the last good values.
const GOOD_HEADERS: &str = "\
heap 1 procs 2 rate 0 seed 1 goal 511
heap 1 procs 64 rate 0 seed 1 goal 0
heap 1 procs 1 rate 0 seed 0 goal 512
heap 1 procs 1 rate 0 seed 18446744073709551615 goal 512
heap 1 procs 1 rate 0 seed 1 goal 65536
heap 128 procs 1 rate 0 seed 1 goal 65536
heap 2 procs 1 rate 0 seed 1 goal 1024
heap 1 procs 1 rate 1 seed 1 goal 512
heap 1 procs 1 rate 1073741824 seed 1 goal 512";

// A line of 120 bytes.
const LONG: &str =
    "123456789012345678901234567890123456789012345678901234567890123456789012345678901234567890123456789012345678901234567890";

// A line of 121 bytes.
const LONGER: &str =
    "1234567890123456789012345678901234567890123456789012345678901234567890123456789012345678901234567890123456789012345678901";

// Wants that the input of a row is refused with status 3 and the row's text, and that nothing is written. A row has its
// line, a bar, and what is told of it; `front` and `behind` stand round the line, and `told` before what is told.
fn expect_refused<R: Threads + Wait + Sync + AllocGlobal + Abort>(
    rt: &R,
    row: &str,
    front: &str,
    behind: &str,
    told: &str,
) -> Result<(), Fail> {
    let (line, reason) = row.split_once('|').ok_or("no bar")?;
    let input = format!(in rt.alloc(); "{front}{line}{behind}")?;
    let text = format!(in rt.alloc(); "goheap: trace line {told}{reason}\n")?;
    let wanted = refused(3, text.as_str());
    expect(
        rt,
        row,
        &["run"],
        input.as_bytes(),
        failing(&[], &[]),
        wanted,
    )
}

// The row with its line feeds and long lines written out.
fn written_out(alloc: Global, row: &str) -> Result<String, Fail> {
    let row = row.replace(alloc, "/", "\n")?;
    let row = row.as_str().replace(alloc, "[120]", LONG)?;
    Ok(row.as_str().replace(alloc, "[121]", LONGER)?)
}

#[test]
fn faulty_traces_are_refused(rt: HostRuntime) -> Result<(), Fail> {
    for row in INPUTS.lines() {
        let row = written_out(rt.alloc(), row)?;
        expect_refused(&rt, row.as_str(), "", "", "")?;
    }
    for row in HEADERS.lines() {
        expect_refused(&rt, row, "goheap 1\n", "\nend\n", "2: ")?;
    }
    for row in EVENTS.lines() {
        expect_refused(&rt, row, HEAD, "\nend\n", "3: ")?;
    }
    Ok(())
}

// The last good values of the header.
#[test]
fn good_headers_are_taken(rt: HostRuntime) -> Result<(), Fail> {
    for line in GOOD_HEADERS.lines() {
        expect_report(&rt, &["run"], line, "", "", "")?;
    }
    Ok(())
}

// Words of the command line that are neither `run` with its options, `check` or `classes` alone, nor `gen` or `demo` with two numbers.
const OTHER_WORDS: &[&[&str]] = &[
    &[],
    &[""],
    &["Run"],
    &["run "],
    &["run\n"],
    &["run", "run"],
    &["run", ""],
    &["run", "--each=1"],
    &["run", "--background=5"],
    &["run", "--each", "--each"],
    &["check", ""],
    &["check", "--pieces=0"],
    &["check", "--pieces=65"],
    &["check", "--pieces=01"],
    &["check", "--pieces=+1"],
    &["check", "--pieces="],
    &["check", "--pieces", "1"],
    &["check", "--pieces=1", "--pieces=1"],
    &["--pieces=1", "check"],
    &["watch"],
    &["watch", "0"],
    &["watch", "5"],
    &["watch", "01"],
    &["watch", "+1"],
    &["watch", ""],
    &["watch", "1", "1"],
    &["watch", "--each", "1"],
    &["1", "watch"],
    &["classes", ""],
    &["gen", "1", "0"],
    &["gen", "1", "1000001"],
    &["gen", "18446744073709551616", "1"],
    &["gen", "1", "+1"],
    &["gen", "1"],
    &["gen", "1", "1", "1"],
    &["Gen", "1", "1"],
    &["run", "--background"],
    &["run", "--background="],
    &["run", "--background=05"],
    &["run", "--background", "05"],
    &["run", "--background", ""],
    &["run", "--background=1", "--background", "1"],
    &["run", "--each", "--background=1", "--each"],
    &["run", "-b"],
    &["run", "-b", "1"],
    &["run", "--"],
    &["run", "--help"],
    &["run", "--version"],
    &["--version"],
    &["--each"],
    &["demo", "1", "0"],
    &["demo", "1"],
    &["--help"],
    &["--", "run"],
];

// Of other words the usage is told, and nothing is read or written.
#[test]
fn other_words_are_refused(rt: HostRuntime) -> Result<(), Fail> {
    let usage =
        "usage: goheap run [--background=N] [--each] / check [--pieces=N] / gen SEED OBJECTS / demo SEED OBJECTS / classes / watch N / heap\n";
    for &words in OTHER_WORDS {
        // A read or a write would fail.
        expect(
            &rt,
            "",
            words,
            b"goheap 1\n",
            failing(&[0], &[0]),
            refused(2, usage),
        )?;
    }
    Ok(())
}

// Wants that these words write this, and read nothing, and that where the first write fails, it is told.
fn expect_unread<R: Threads + Wait + Sync + AllocGlobal + Abort>(
    rt: &R,
    words: &[&str],
    written: Text<'_>,
) -> Result<(), Fail> {
    let wanted = Wanted {
        status: 0,
        written,
        told: "",
    };
    // A read would fail.
    expect(rt, "", words, b"goheap 1\n", failing(&[0], &[]), wanted)?;
    let wanted = refused(6, "goheap: write fault\n");
    expect(rt, "", words, b"", failing(&[], &[0]), wanted)
}

// The table of size classes is written, and a made trace, whose event is that of a generator that was written apart.
#[test]
fn classes_and_made_traces_are_written(rt: HostRuntime) -> Result<(), Fail> {
    let classes = Text::Round(b"c 1 8 1 1024\n", b"\nc 67 32768 4 1\n");
    expect_unread(&rt, &["classes"], classes)?;
    let made =
        b"goheap 1\nheap 128 procs 8 rate 524288 seed 1 goal 65536\na 6 758 s 6\nend\n".as_slice();
    expect_unread(&rt, &["gen", "1", "1"], Text::Is(made))
}

// Wants that words that need the runtime are refused without it, and that nothing is read or written.
fn expect_plain<R: AllocGlobal + Abort>(rt: &R, words: &[&str]) -> Result<(), Fail> {
    let alloc = rt.alloc();
    let count = words.len();
    let words = words_of(alloc, words)?;
    let input = b"goheap 1\nheap 1 procs 1 rate 0 seed 1 goal 512\na 0 24 s 1\nend\n";
    // A read or a write would fail.
    let mut output = sink_of(alloc, u64::MAX, &[0])?;
    let mut source = source_of(alloc, input, failing(&[0], &[]))?;
    let mut errors = MemorySink::new(alloc, List::new(alloc));
    let status = goheap_plain(alloc, &words, &mut source, &mut output, &mut errors);
    let silent = output.held().is_empty();
    let told = errors.held().starts_with(b"usage: goheap run ");
    assert!(rt; status == 2 && silent && told, "{count} words");
    Ok(())
}

// The words that need the runtime, without it.
#[test]
fn plain_words_are_refused(rt: HostRuntime) -> Result<(), Fail> {
    expect_plain(&rt, &["run"])?;
    expect_plain(&rt, &["demo"])?;
    expect_plain(&rt, &["check", "--pieces=1"])?;
    expect_plain(&rt, &["watch", "1"])
}

// A limit of the bytes that are read, and how many cycles a trace of one object then has, or why it is refused.
const LIMITS: &[(u64, Result<usize, TraceFault>)] = &[
    (0, Err(TraceFault::Limit(1, Which::Bytes))),
    (8, Err(TraceFault::Limit(1, Which::Bytes))),
    (9, Err(TraceFault::Limit(2, Which::Bytes))),
    (57, Err(TraceFault::Limit(3, Which::Bytes))),
    (58, Err(TraceFault::Limit(4, Which::Bytes))),
    (61, Err(TraceFault::Limit(4, Which::Bytes))),
    (62, Ok(1)),
];

// How many cycles a trace of one object has, where so many bytes are read at most.
fn cycles_within(alloc: Global, limit: u64) -> Result<Result<usize, TraceFault>, Fail> {
    let input = b"goheap 1\nheap 1 procs 1 rate 0 seed 1 goal 512\na 0 24 s 1\nend\n";
    let mut source = source_of(alloc, input, failing(&[], &[]))?;
    let mut lines = Lines::new(&mut source, limit);
    Ok(read_trace(alloc, &mut lines).map(|trace| trace.cycles.len()))
}

// Each line is met with a limit of so many bytes.
#[test]
fn bytes_are_limited(rt: HostRuntime) -> Result<(), Fail> {
    for &(limit, wanted) in LIMITS {
        let found = cycles_within(rt.alloc(), limit)?;
        assert_eq!(rt; found, wanted, "at {limit}");
    }
    Ok(())
}
