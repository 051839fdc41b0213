//! The program over streams that give and take a byte a call, cut or failing at each place in turn. Each byte of an input is a
//! read, and one read more sees its end; each byte of an output is a write. The expected values follow from that and the rules of
//! docs/.

use super::*;

// A trace of one object, whose lines end behind 9, 47, 58 and 62 bytes, and its report, whose lines end behind 17, 34, 42 and 46.
const TRACE: &str = "goheap 1\nheap 1 procs 1 rate 0 seed 1 goal 512\na 0 24 s 1\nend\n";

const REPORT: &str = "o 0 0xc000000000\nj 0 0 take 0 1 6\nt 3 1 0\nend\n";

// The trace with its report behind it.
const PAIR: &str =
    "goheap 1\nheap 1 procs 1 rate 0 seed 1 goal 512\na 0 24 s 1\nend\no 0 0xc000000000\nj 0 0 take 0 1 6\nt 3 1 0\nend\n";

const MADE: &str = "goheap 1\nheap 128 procs 8 rate 524288 seed 1 goal 65536\na 6 758 s 6\nend\n";

// No call with this number fails, whatever is listed.
const NEVER: u64 = u64::MAX;

// Wants this over such streams, where the read, the write and the write of what is told of these numbers fail.
fn expect_by_bytes<R: Threads + Wait + Sync + AllocGlobal + Abort>(
    rt: &R,
    words: &[&str],
    input: &[u8],
    fails: (u64, u64, u64),
    wanted: Wanted<'_>,
) -> Result<(), Fail> {
    let (read, write, tell) = fails;
    let at = format!(in rt.alloc(); "{} bytes, {read} {write} {tell}", input.len())?;
    let script = Script {
        most: 1,
        reads: &[read],
        writes: &[write],
        tells: &[tell],
    };
    expect(rt, at.as_str(), words, input, script, wanted)
}

// Wants that each read of so many fails in turn, and that with one more the output is whole.
fn expect_reads<R: Threads + Wait + Sync + AllocGlobal + Abort>(
    rt: &R,
    words: &[&str],
    input: &str,
    output: &str,
) -> Result<(), Fail> {
    let reads = input.len() as u64;
    for read in 0..=reads {
        let wanted = refused(5, "goheap: read fault\n");
        expect_by_bytes(rt, words, input.as_bytes(), (read, NEVER, NEVER), wanted)?;
    }
    let never = (reads.saturating_add(1), NEVER, NEVER);
    expect_by_bytes(rt, words, input.as_bytes(), never, answered(output))
}

#[test]
fn each_read_fails(rt: HostRuntime) -> Result<(), Fail> {
    expect_reads(&rt, &["run"], TRACE, REPORT)?;
    expect_reads(&rt, &["check"], PAIR, "check ok\n")
}

// Wants that each write fails in turn behind a front, and that with one more the output is whole.
fn expect_writes<R: Threads + Wait + Sync + AllocGlobal + Abort>(
    rt: &R,
    words: &[&str],
    input: &str,
    output: &str,
) -> Result<(), Fail> {
    for write in 0..output.len() {
        let front = output.as_bytes().get(..write).ok_or("no such front")?;
        let wanted = Wanted {
            status: 6,
            written: Text::Is(front),
            told: "goheap: write fault\n",
        };
        expect_by_bytes(
            rt,
            words,
            input.as_bytes(),
            (NEVER, write as u64, NEVER),
            wanted,
        )?;
    }
    let never = (NEVER, output.len() as u64, NEVER);
    expect_by_bytes(rt, words, input.as_bytes(), never, answered(output))
}

#[test]
fn each_write_fails(rt: HostRuntime) -> Result<(), Fail> {
    expect_writes(&rt, &["run"], TRACE, REPORT)?;
    expect_writes(&rt, &["check"], PAIR, "check ok\n")?;
    expect_writes(&rt, &["gen", "1", "1"], "", MADE)
}

// Where telling fails, the status stays, and a front of the line is told.
#[test]
fn each_telling_fails(rt: HostRuntime) -> Result<(), Fail> {
    let line = "goheap: read fault\n";
    for tell in 0..line.len() {
        let front = line.get(..tell).ok_or("no such front")?;
        let fails = (3, NEVER, tell as u64);
        expect_by_bytes(&rt, &["run"], TRACE.as_bytes(), fails, refused(5, front))?;
    }
    Ok(())
}

// Below how many bytes the trace with its report behind it ends early in a line, and what is then told.
const CUTS: &[(usize, u8, &str)] = &[
    (9, 3, "goheap: trace line 1: ends early\n"),
    (47, 3, "goheap: trace line 2: ends early\n"),
    (58, 3, "goheap: trace line 3: ends early\n"),
    (62, 3, "goheap: trace line 4: ends early\n"),
    (79, 4, "goheap: report line 1: ends early\n"),
    (96, 4, "goheap: report line 2: ends early\n"),
    (104, 4, "goheap: report line 3: ends early\n"),
    (108, 4, "goheap: report line 4: ends early\n"),
];

// Wants this of a front of the trace with its report.
fn expect_front<R: Threads + Wait + Sync + AllocGlobal + Abort>(
    rt: &R,
    words: &[&str],
    at: usize,
    wanted: Wanted<'_>,
) -> Result<(), Fail> {
    let front = PAIR.as_bytes().get(..at).ok_or("no such front")?;
    expect_by_bytes(rt, words, front, (NEVER, NEVER, NEVER), wanted)
}

#[test]
fn each_front_ends_early(rt: HostRuntime) -> Result<(), Fail> {
    let mut from = 0;
    for &(end, status, told) in CUTS {
        for at in from..end {
            expect_front(&rt, &["check"], at, refused(status, told))?;
            if status == 3 {
                expect_front(&rt, &["run"], at, refused(status, told))?;
            }
        }
        from = end;
    }
    Ok(())
}

// A report stands behind a trace without its last line.
#[test]
fn a_report_is_no_line_of_a_trace(rt: HostRuntime) -> Result<(), Fail> {
    let input =
        b"goheap 1\nheap 1 procs 1 rate 0 seed 1 goal 512\na 0 24 s 1\no 0 0xc000000000\nj 0 0 take 0 1 6\nt 3 1 0\nend\n";
    let wanted = refused(3, "goheap: trace line 4: malformed\n");
    expect_by_bytes(&rt, &["check"], input, (NEVER, NEVER, NEVER), wanted)
}
