//! The program over streams in memory. The expected texts are written by hand from the rules of docs/.

ghost use Rattle.std.specs.Prelude.{◌≡◌, ◌≤◌};

use alloc_tool::{goheap, goheap_plain};
use edge_io::{Gate, HoldGate, Lines, List, MemorySink, MemorySource, OpenGate};
use std::alloc::Global;
use std::process::Abort;
use std::sync::Wait;
use std::test::Fail;
use std::thread::Threads;

mod demo;
mod faults;
mod judged;
mod pieces;
mod streams;
mod tiny;
mod watched;

// The second line of most traces.
const SMALL: &str = "heap 1 procs 1 rate 0 seed 1 goal 512";

const HEAD: &str = "goheap 1\nheap 1 procs 1 rate 0 seed 1 goal 512\n";

// The same in version 2.
const CACHING: &str = "goheap 2\nheap 1 procs 1 rate 0 seed 1 goal 512\n";

// Script in memory: how many bytes a call gives or takes at most, and the numbers of the reads, of the writes and of the writes of what
// is told that fail.
#[derive(Clone, Copy)]
struct Script<'a> {
    most: u64,
    reads: &'a [u64],
    writes: &'a [u64],
    tells: &'a [u64],
}

// Script that give and take all at once, of which these reads and writes fail.
fn failing<'a>(reads: &'a [u64], writes: &'a [u64]) -> Script<'a>
    ensures { result.most ≡ 18446744073709551615 }
{
    Script {
        most: u64::MAX,
        reads,
        writes,
        tells: &[],
    }
}

// What is to be written: these bytes, one of these two texts, or some that begin and end with these.
#[derive(Clone, Copy)]
enum Text<'a> {
    Is(&'a [u8]),
    Either(&'a [u8], &'a [u8]),
    Round(&'a [u8], &'a [u8]),
}

// Whether the bytes are what is to be written.
fn fits(text: Text<'_>, bytes: &[u8]) -> bool {
    match text {
        Text::Is(whole) => bytes == whole,
        Text::Either(one, other) => bytes == one || bytes == other,
        Text::Round(front, tail) => bytes.starts_with(front) && bytes.ends_with(tail),
    }
}

// What a call is to leave.
#[derive(Clone, Copy)]
struct Wanted<'a> {
    status: u8,
    written: Text<'a>,
    told: &'a str,
}

// An answer that is written whole.
fn answered<'a>(text: &'a str) -> Wanted<'a> {
    Wanted {
        status: 0,
        written: Text::Is(text.as_bytes()),
        told: "",
    }
}

// A call that writes nothing, and tells this.
fn refused<'a>(status: u8, told: &'a str) -> Wanted<'a> {
    Wanted {
        status,
        written: Text::Is(b""),
        told,
    }
}

// The words as the program takes them.
fn words_of(alloc: Global, words: &[&str]) -> Result<Vec<String>, Fail> {
    let mut owned = Vec::new(alloc);
    for word in words {
        owned.push(String::from_str(alloc, word)?)?;
    }
    Ok(owned)
}

// A source of these bytes.
fn source_of(alloc: Global, input: &[u8], script: Script<'_>) -> Result<MemorySource, Fail>
    requires { 1 ≤ script.most }
{
    let reads = List::from_vec(script.reads.to_vec(alloc)?);
    let bytes = List::from_vec(input.to_vec(alloc)?);
    Ok(MemorySource::in_pieces(bytes, script.most, reads))
}

// A sink of which these writes fail.
fn sink_of(alloc: Global, most: u64, writes: &[u64]) -> Result<MemorySink, Fail>
    requires { 1 ≤ most }
{
    let writes = List::from_vec(writes.to_vec(alloc)?);
    Ok(MemorySink::in_pieces(alloc, most, writes))
}

// A call of `goheap`, and what it is to leave.
fn expect_over<R: Threads + Wait + Sync + AllocGlobal + Abort>(
    rt: &R,
    at: &str,
    words: &Vec<String>,
    source: &mut MemorySource,
    output: &mut MemorySink,
    errors: &mut MemorySink,
    wanted: Wanted<'_>,
) -> Result<(), Fail> {
    let status = goheap(rt, rt.alloc(), words, source, output, errors, &OpenGate);
    assert_eq!(rt; status, wanted.status, "at {at} {words:?}");
    assert_eq!(rt; errors.held(), wanted.told.as_bytes(), "at {at} {words:?}");
    assert!(rt; fits(wanted.written, output.held()), "at {at} {words:?}");
    Ok(())
}

// A call of `goheap` over such streams, and what it is to leave. Where that is not so, it is told at which row, `at`.
fn expect<R: Threads + Wait + Sync + AllocGlobal + Abort>(
    rt: &R,
    at: &str,
    words: &[&str],
    input: &[u8],
    script: Script<'_>,
    wanted: Wanted<'_>,
) -> Result<(), Fail>
    requires { 1 ≤ script.most }
{
    let alloc = rt.alloc();
    let words = words_of(alloc, words)?;
    let mut source = source_of(alloc, input, script)?;
    let mut output = sink_of(alloc, script.most, script.writes)?;
    let mut errors = sink_of(alloc, script.most, script.tells)?;
    expect_over(
        rt,
        at,
        &words,
        &mut source,
        &mut output,
        &mut errors,
        wanted,
    )
}

// Lines of events, and the report of them without its last line.
const ANSWERED: &[(&str, &str)] = &[
    ("", ""),
    (
        "a 0 24 s 1\n",
        "o 0 0xc000000000\nj 0 0 take 0 1 6\nt 3 1 0\n",
    ),
    (
        "a 0 1016 n 1\na 0 1017 n 1\na 0 1024 n 1\na 0 1025 n 1\n",
        "o 0 0xc000000000\no 1 0xc000000400\no 2 0xc000000800\no 3 0xc000002000\n\
         j 0 0 take 0 1 65\nj 1 0 take 1 1 67\nt 32 3 0\nt 33 1 0\n",
    ),
    (
        "a 0 24 s 1\na 0 24 n 1\n",
        "o 0 0xc000000000\no 1 0xc000002000\nj 0 0 take 0 1 6\nj 1 0 take 1 1 7\nt 3 2 0\n",
    ),
    (
        "a 0 0 n 3\na 0 8 n 3\na 0 0 s 3\na 0 7 n 3\n",
        "o 0 zero\no 1 0xc000000000\no 2 zero\no 3 0xc000000008\nj 0 0 take 0 1 3\nt 1 2 0\n",
    ),
    (
        "a 0 32768 s 1\na 0 32769 s 1\n",
        "o 0 0xc000000000\no 1 0xc000008000\nj 0 0 take 0 4 134\nj 1 0 take 4 5 0\nt 0 1 0\nt 67 1 0\n",
    ),
    (
        "a 0 4194304 s 1\na 0 1 s 1\n",
        "o 0 0xc000000000\no 1 miss 1\nj 0 0 take 0 512 0\nj 1 0 miss 1 2\nt 0 1 0\n",
    ),
    (
        "a 0 1099511627776 n 1\n",
        "o 0 miss 0\nj 0 0 miss 134217728 1\n",
    ),
    // One page is left, which a smaller object takes after a miss.
    (
        "a 0 4120576 n 1\na 0 32768 n 1\na 0 32768 n 1\na 0 32768 n 1\na 0 8 n 1\na 0 16 n 1\na 0 8 n 1\na 0 32769 s 1\n",
        "o 0 0xc000000000\no 1 0xc0003ee000\no 2 0xc0003f6000\no 3 miss 3\no 4 0xc0003fe000\no 5 miss 5\no 6 0xc0003fe008\no 7 miss 6\n\
         j 0 0 take 0 503 1\nj 1 0 take 503 4 135\nj 2 0 take 507 4 135\nj 3 0 miss 4 135\nj 4 0 take 511 1 3\nj 5 0 miss 1 5\nj 6 0 miss 5 0\nt 0 1 0\nt 1 2 0\nt 67 2 0\n",
    ),
    // Mark ends: what is kept, given back, missed and served again.
    (
        "a 0 1048576 n 1\na 0 1048576 n 1\na 0 1048576 n 1\na 0 1048576 n 1\ngc 1\nm 1 1\nm 3 3\na 0 1048577 n 1\n",
        "o 0 0xc000000000\no 1 0xc000100000\no 2 0xc000200000\no 3 0xc000300000\no 4 miss 6\n\
         j 0 0 take 0 128 1\nj 1 0 take 128 128 1\nj 2 0 take 256 128 1\nj 3 0 take 384 128 1\nj 4 1 give 0 128\nj 5 1 give 256 128\nj 6 1 miss 129 1\n\
         s 1 0 0 1\ns 1 128 1 0\ns 1 256 0 1\ns 1 384 1 0\nt 0 4 2\n",
    ),
    (
        "a 0 24 s 1\na 0 24 s 1\ngc 1\nm 1 1\na 0 24 s 1\n",
        "o 0 0xc000000000\no 1 0xc000000018\no 2 0xc000000000\nj 0 0 take 0 1 6\ns 1 0 1 1\nt 3 3 1\n",
    ),
    (
        "a 0 24 s 1\ngc 1\na 0 24 s 1\n",
        "o 0 0xc000000000\no 1 0xc000000000\nj 0 0 take 0 1 6\nj 1 1 give 0 1\nj 2 1 take 0 1 6\ns 1 0 0 1\nt 3 2 1\n",
    ),
    // The cached span goes back before a large object looks for its run.
    (
        "a 0 24 s 1\ngc 1\na 0 4194304 s 1\n",
        "o 0 0xc000000000\no 1 0xc000000000\nj 0 0 take 0 1 6\nj 1 1 give 0 1\nj 2 1 take 0 512 0\ns 1 0 0 1\nt 0 1 0\nt 3 1 1\n",
    ),
    (
        "a 0 4194304 s 1\na 0 1 s 1\ngc 1\nm 0 1\n",
        "o 0 0xc000000000\no 1 miss 1\nj 0 0 take 0 512 0\nj 1 0 miss 1 2\ns 1 0 1 0\nt 0 1 0\n",
    ),
    (
        "a 0 4194304 s 1\na 0 1 s 1\na 0 0 s 1\ngc 1\nm 0 2\n",
        "o 0 0xc000000000\no 1 miss 1\no 2 zero\nj 0 0 take 0 512 0\nj 1 0 miss 1 2\ns 1 0 1 0\nt 0 1 0\n",
    ),
    // An object that outlives one mark end, and none of the next two.
    (
        "a 0 8 n 1\ngc 1\nm 0 0\ngc 1\ngc 1\n",
        "o 0 0xc000000000\nj 0 0 take 0 1 3\nj 1 2 give 0 1\ns 1 0 1 0\ns 2 0 0 1\nt 1 1 1\n",
    ),
    // Three spans of four objects. The cached one is flushed first, so that it is first among those with room; the sweeps that are
    // paid for go on with the full ones, and the middle one stays full. The next mark end leaves two of four spans.
    (
        "a 0 2048 n 1\na 0 2048 n 1\na 0 2048 n 1\na 0 2048 n 1\na 0 2048 n 1\na 0 2048 n 1\na 0 2048 n 1\na 0 2048 n 1\n\
         a 0 2048 n 1\na 0 2048 n 1\na 0 2048 n 1\na 0 2048 n 1\ngc 1\nm 1 1\nm 3 7\nm 9 10\n\
         a 0 2048 n 1\na 0 2048 n 1\na 0 2048 n 1\na 0 2048 n 1\na 0 2048 n 1\na 0 2048 n 1\na 0 2048 n 1\ngc 1\nm 1 1\nm 12 12\n\
         a 0 2048 n 1\na 0 2048 n 1\na 0 2048 n 1\n",
        "o 0 0xc000000000\no 1 0xc000000800\no 2 0xc000001000\no 3 0xc000001800\no 4 0xc000002000\no 5 0xc000002800\no 6 0xc000003000\n\
         o 7 0xc000003800\no 8 0xc000004000\no 9 0xc000004800\no 10 0xc000005000\no 11 0xc000005800\n\
         o 12 0xc000004000\no 13 0xc000005800\no 14 0xc000000000\no 15 0xc000001000\no 16 0xc000006000\no 17 0xc000006800\no 18 0xc000007000\n\
         o 19 0xc000004800\no 20 0xc000005000\no 21 0xc000005800\n\
         j 0 0 take 0 1 77\nj 1 0 take 1 1 77\nj 2 0 take 2 1 77\nj 3 1 take 3 1 77\nj 4 2 give 3 1\nj 5 2 give 1 1\n\
         s 1 0 2 2\ns 1 1 4 0\ns 1 2 2 2\ns 2 0 1 3\ns 2 1 0 4\ns 2 2 1 3\ns 2 3 0 3\nt 38 22 17\n",
    ),
];

// The second line and the lines behind it, of two processors, each of which has a span of its own and takes no slot of the other's.
const SEVERAL: &[(&str, &str)] = &[(
    "heap 1 procs 2 rate 0 seed 1 goal 512",
    "a 0 8 s 1\na 1 8 s 1\ngc 1\nm 0 0\na 1 8 s 1\n",
)];

// The second line and the lines behind it, and the report of them without its last line: 64 processors without an event print nothing; a
// freed run is scavenged 64 pages at a time.
const WITH_HEADS: &[(&str, &str, &str)] = &[
    ("heap 1 procs 64 rate 0 seed 1 goal 512", "", ""),
    (
        "heap 1 procs 1 rate 0 seed 1 goal 0",
        "a 0 1048576 n 1\ngc 1\n",
        "o 0 0xc000000000\nj 0 0 take 0 128 1\nj 1 1 give 0 128\nj 2 1 scav 64 64\nj 3 1 scav 0 64\ns 1 0 0 1\nt 0 1 1\n",
    ),
];

// The same of version 2, where processors have page caches: a block is pulled, cut and settled; so it is again behind a mark end; a span of
// 16 pages is taken behind the block; and of a region that is taken whole nothing is left to pull.
const ANSWERED_CACHING: &[(&str, &str)] = &[
    (
        "a 0 24 s 1\n",
        "o 0 0xc000000000\nj 0 0 pull 0 0 64\nj 1 0 cut 0 0 1 6\nj 2 0 drop 0 0 63\nt 3 1 0\n",
    ),
    (
        "a 0 24 s 1\ngc 1\na 0 24 s 1\n",
        "o 0 0xc000000000\no 1 0xc000000000\nj 0 0 pull 0 0 64\nj 1 0 cut 0 0 1 6\nj 2 0 drop 0 0 63\nj 3 1 give 0 1\n\
         j 4 1 pull 0 0 64\nj 5 1 cut 0 0 1 6\nj 6 1 drop 0 0 63\ns 1 0 0 1\nt 3 2 1\n",
    ),
    (
        "a 0 122880 n 1\na 0 131072 n 1\n",
        "o 0 0xc000000000\no 1 0xc000080000\nj 0 0 pull 0 0 64\nj 1 0 take 64 16 1\nj 2 0 cut 0 0 15 1\nj 3 0 drop 0 0 49\nt 0 2 0\n",
    ),
    (
        "a 0 4194304 s 1\na 0 1 s 1\n",
        "o 0 0xc000000000\no 1 miss 1\nj 0 0 take 0 512 0\nj 1 0 miss 1 2\nt 0 1 0\n",
    ),
];

// Lines of events that are all sampled, the report of them without its profile and its last line, and the profile of the last mark end and
// of each: an object of size 0; three objects of which one lives on; and the same with one object more, behind a second mark end.
const SAMPLED: &[(&str, &str, &str, &str)] = &[
    ("a 0 0 n 3\ngc 1\nm 0 0\n", "o 0 zero\n", "", ""),
    (
        "a 0 24 s 7\na 0 24 s 7\na 0 24 s 7\ngc 1\nm 0 0\n",
        "o 0 0xc000000000\no 1 0xc000000018\no 2 0xc000000030\nj 0 0 take 0 1 6\ns 1 0 1 2\nt 3 3 2\n",
        "p 1 7 24 3 2\n",
        "p 1 7 24 3 2\n",
    ),
    (
        "a 0 24 s 7\na 0 24 s 7\na 0 24 s 7\ngc 1\nm 0 0\na 0 24 s 7\ngc 1\nm 3 3\n",
        "o 0 0xc000000000\no 1 0xc000000018\no 2 0xc000000030\no 3 0xc000000018\nj 0 0 take 0 1 6\ns 1 0 1 2\ns 2 0 1 1\nt 3 4 3\n",
        "p 2 7 24 4 3\n",
        "p 1 7 24 3 2\np 2 7 24 4 3\n",
    ),
];

// Wants that the trace of these lines behind this second line has this report.
fn expect_report<R: Threads + Wait + Sync + AllocGlobal + Abort>(
    rt: &R,
    words: &[&str],
    head: &str,
    lines: &str,
    text: &str,
    profile: &str,
) -> Result<(), Fail> {
    expect_report_by(rt, words, "goheap 1", head, lines, text, profile)
}

// The same with this first line.
fn expect_report_by<R: Threads + Wait + Sync + AllocGlobal + Abort>(
    rt: &R,
    words: &[&str],
    version: &str,
    head: &str,
    lines: &str,
    text: &str,
    profile: &str,
) -> Result<(), Fail> {
    let input = format!(in rt.alloc(); "{version}\n{head}\n{lines}end\n")?;
    let report = format!(in rt.alloc(); "{text}{profile}end\n")?;
    let wanted = answered(report.as_str());
    expect(
        rt,
        lines,
        words,
        input.as_bytes(),
        failing(&[], &[]),
        wanted,
    )
}

// Wants a sound report of the trace of these lines behind this second line, whoever comes first.
fn expect_sound_run<R: Threads + Wait + Sync + AllocGlobal + Abort, G: Gate>(
    rt: &R,
    words: &[&str],
    head: &str,
    lines: &str,
    gate: &G,
) -> Result<(), Fail> {
    sound_run(rt, words, "goheap 1", head, lines, gate)?;
    Ok(())
}

// The same with this first line. It answers what was written.
fn sound_run<R: Threads + Wait + Sync + AllocGlobal + Abort, G: Gate>(
    rt: &R,
    words: &[&str],
    version: &str,
    head: &str,
    lines: &str,
    gate: &G,
) -> Result<MemorySink, Fail> {
    let alloc = rt.alloc();
    let input = format!(in alloc; "{version}\n{head}\n{lines}end\n")?;
    let words = words_of(alloc, words)?;
    let mut source = source_of(alloc, input.as_bytes(), failing(&[], &[]))?;
    let mut output = sink_of(alloc, u64::MAX, &[])?;
    let mut errors = sink_of(alloc, u64::MAX, &[])?;
    let status = goheap(
        rt,
        alloc,
        &words,
        &mut source,
        &mut output,
        &mut errors,
        gate,
    );
    assert_eq!(rt; status, 0, "at {lines} {words:?}");
    let mut pair = input.as_bytes().to_vec(alloc)?;
    pair.extend_from_slice(output.held())?;
    let wanted = answered("check ok\n");
    expect(
        rt,
        lines,
        &["check"],
        pair.as_slice(),
        failing(&[], &[]),
        wanted,
    )?;
    Ok(output)
}

// The first with a background sweeper, the second without.
const WORDS: [&[&str]; 2] = [&["run"], &["run", "--background=0"]];

// A single processor has nobody to race with where no sweeper runs beside it. Reports of several are sound.
#[test]
fn traces_are_answered(rt: HostRuntime) -> Result<(), Fail> {
    for &(lines, text) in ANSWERED {
        expect_report(&rt, WORDS[1], SMALL, lines, text, "")?;
        expect_sound_run(&rt, WORDS[0], SMALL, lines, &OpenGate)?;
    }
    for &(head, lines, text) in WITH_HEADS {
        expect_report(&rt, WORDS[1], head, lines, text, "")?;
        expect_sound_run(&rt, WORDS[0], head, lines, &OpenGate)?;
    }
    for &(head, lines) in SEVERAL {
        expect_sound_run(&rt, WORDS[0], head, lines, &OpenGate)?;
        expect_sound_run(&rt, WORDS[1], head, lines, &OpenGate)?;
    }
    Ok(())
}

// Where processors have page caches, too.
#[test]
fn caching_traces_are_answered(rt: HostRuntime) -> Result<(), Fail> {
    let version = "goheap 2";
    for &(lines, text) in ANSWERED_CACHING {
        expect_report_by(&rt, WORDS[1], version, SMALL, lines, text, "")?;
        sound_run(&rt, WORDS[0], version, SMALL, lines, &OpenGate)?;
    }
    for &(head, lines) in SEVERAL {
        sound_run(&rt, WORDS[0], version, head, lines, &OpenGate)?;
        sound_run(&rt, WORDS[1], version, head, lines, &OpenGate)?;
    }
    Ok(())
}

// Where two objects of two processors may stand: each is cut out of a block, which is the other's after it was dropped, or the next one.
const CUT_APART: [&str; 4] = [
    "o 0 0xc000000000\no 1 0xc000002000\n",
    "o 0 0xc000000000\no 1 0xc000080000\n",
    "o 0 0xc000002000\no 1 0xc000000000\n",
    "o 0 0xc000080000\no 1 0xc000000000\n",
];

#[test]
fn processors_cut_beside_each_other(rt: HostRuntime) -> Result<(), Fail> {
    let head = "heap 1 procs 2 rate 0 seed 1 goal 512";
    for words in WORDS {
        let output = sound_run(
            &rt,
            words,
            "goheap 2",
            head,
            "a 0 8 s 1\na 1 8 s 1\n",
            &OpenGate,
        )?;
        let mut found = false;
        for front in &CUT_APART {
            found = found || output.held().starts_with(front.as_bytes());
        }
        assert!(rt; found);
    }
    Ok(())
}

// Two processors, a processor and a background sweeper, and a processor and the scavenger.
const PAIRS: [(u32, u32); 3] = [(0, 1), (0, 64), (0, 68)];

// Each of two workers waits for the other, so they meet only where they run beside each other.
#[test]
fn workers_run_beside_each_other(rt: HostRuntime) -> Result<(), Fail> {
    let words = ["run", "--background=1"].as_slice();
    let head = "heap 1 procs 2 rate 0 seed 1 goal 512";
    for (first, second) in PAIRS {
        let gate = HoldGate::new(first, second);
        expect_sound_run(&rt, words, head, "a 0 24 s 1\na 1 24 s 1\n", &gate)?;
        assert!(rt; !gate.gave_up());
    }
    Ok(())
}

#[test]
fn profiles_have_their_form(rt: HostRuntime) -> Result<(), Fail> {
    let head = "heap 1 procs 1 rate 1 seed 1 goal 512";
    for &(lines, text, last, each) in SAMPLED {
        let words = ["run", "--background=0"].as_slice();
        expect_report(&rt, words, head, lines, text, last)?;
        let words = ["run", "--each", "--background=0"].as_slice();
        expect_report(&rt, words, head, lines, text, each)?;
    }
    Ok(())
}

// A trace of so many events on this line.
fn repeated(alloc: Global, header: &str, line: &str, times: u32) -> Result<String, Fail> {
    let mut text = format!(in alloc; "goheap 1\n{header}\n")?;
    for _ in 0..times {
        text.push_str(line)?;
    }
    text.push_str("end\n")?;
    Ok(text)
}

// Wants this of a trace of so many events on this line.
fn expect_repeated<R: Threads + Wait + Sync + AllocGlobal + Abort>(
    rt: &R,
    header: &str,
    line: &str,
    times: u32,
    wanted: Wanted<'_>,
) -> Result<(), Fail> {
    let input = repeated(rt.alloc(), header, line, times)?;
    expect(
        rt,
        line,
        &["run"],
        input.as_bytes(),
        failing(&[], &[]),
        wanted,
    )
}

// The lines of so many objects that stand one behind the other, from the start of the region on, and these lines behind them.
fn placed(alloc: Global, count: u64, slot: u64, behind: &str) -> Result<String, Fail> {
    let mut text = String::new(alloc);
    let mut address: u64 = 0xc000000000;
    for id in 0..count {
        let line = format!(in alloc; "o {id} {address:#x}\n")?;
        text.push_str(line.as_str())?;
        address = address.saturating_add(slot);
    }
    text.push_str(behind)?;
    Ok(text)
}

// One object takes all pages of the largest region, which a trace of version 2 may have, and the next one finds none.
#[test]
fn largest_region(rt: HostRuntime) -> Result<(), Fail> {
    let input =
        "goheap 2\nheap 4096 procs 1 rate 0 seed 1 goal 2097152\na 0 17179869184 n 1\na 0 1 n 1\nend\n";
    let report =
        "o 0 0xc000000000\no 1 miss 1\nj 0 0 take 0 2097152 1\nj 1 0 miss 1 3\nt 0 1 0\nend\n";
    expect(
        &rt,
        "the largest region",
        &["run"],
        input.as_bytes(),
        failing(&[], &[]),
        answered(report),
    )
}

// Spans fill up, and then the region.
#[test]
fn many_objects(rt: HostRuntime) -> Result<(), Fail> {
    let tail =
        b"\nj 127 0 take 508 4 135\nj 128 0 miss 4 135\nj 129 0 miss 4 135\nt 67 128 0\nend\n".as_slice();
    let wanted = Wanted {
        status: 0,
        written: Text::Round(b"o 0 0xc000000000\n", tail),
        told: "",
    };
    expect_repeated(&rt, SMALL, "a 0 32768 n 1\n", 130, wanted)?;
    let behind = "o 341 0xc000002000\nj 0 0 take 0 1 6\nj 1 0 take 1 1 6\nt 3 342 0\nend\n";
    let report = placed(rt.alloc(), 341, 24, behind)?;
    let wanted = answered(report.as_str());
    expect_repeated(&rt, SMALL, "a 0 24 s 1\n", 342, wanted)
}

// The report of a region that is taken page by page, given back, and taken again, from its first miss on.
fn emptied(alloc: Global) -> Result<String, Fail> {
    let mut text = format!(in alloc; "\no 512 miss 512\no 513 0xc000000000\n")?;
    for page in 0..512u32 {
        let line = format!(in alloc; "j {page} 0 take {page} 1 103\n")?;
        text.push_str(line.as_str())?;
    }
    text.push_str("j 512 0 miss 1 103\n")?;
    for page in 0..512u32 {
        let number = 513 + page;
        let line = format!(in alloc; "j {number} 1 give {page} 1\n")?;
        text.push_str(line.as_str())?;
    }
    text.push_str("j 1025 1 take 0 1 103\n")?;
    for page in 0..512u32 {
        let line = format!(in alloc; "s 1 {page} 0 1\n")?;
        text.push_str(line.as_str())?;
    }
    text.push_str("t 51 513 512\nend\n")?;
    Ok(text)
}

// A trace of 513 objects of a page each, a mark end at which none is marked, and one object more.
fn emptying(alloc: Global) -> Result<String, Fail> {
    let mut input = String::from_str(alloc, HEAD)?;
    for _ in 0..513u32 {
        input.push_str("a 0 8192 n 1\n")?;
    }
    input.push_str("gc 1\na 0 8192 n 1\nend\n")?;
    Ok(input)
}

// A whole region is given back page by page.
#[test]
fn region_is_emptied(rt: HostRuntime) -> Result<(), Fail> {
    let input = emptying(rt.alloc())?;
    let tail = emptied(rt.alloc())?;
    let wanted = Wanted {
        status: 0,
        written: Text::Round(b"o 0 0xc000000000\n", tail.as_bytes()),
        told: "",
    };
    expect(
        &rt,
        "a whole region",
        &["run", "--background=0"],
        input.as_bytes(),
        failing(&[], &[]),
        wanted,
    )
}

// A million objects are taken, and no more.
#[test]
fn objects_are_limited(rt: HostRuntime) -> Result<(), Fail> {
    let most = "heap 2 procs 1 rate 0 seed 1 goal 1024";
    let wanted = Wanted {
        status: 0,
        written: Text::Round(b"o 0 0xc000000000\n", b" 1000000 0\nend\n"),
        told: "",
    };
    expect_repeated(&rt, most, "a 0 8 s 1\n", 1_000_000, wanted)?;
    let wanted = refused(3, "goheap: trace line 1000003: limit objects\n");
    expect_repeated(&rt, most, "a 0 8 s 1\n", 1_000_001, wanted)
}
