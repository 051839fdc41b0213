//! Each trace is run without background sweepers and with four, in both forms of the profile. Where a single processor runs without a
//! background sweeper its report is this one; where several workers run beside each other, any sound one.

ghost use Rattle.std.specs.Prelude.{IfOk, ◌≤◌};
ghost use Rattle.trace_reader.specs.Limits.{WithinLimits};

use cycle_history::Report;
use edge_io::{Gate, HoldGate, Lines, List, MemorySource, OpenGate};
use heap_run::{Options, run_trace};
use report_check::check_version;
use report_text::read_report;
use std::alloc::Global;
use std::process::Abort;
use std::sync::Wait;
use std::sync::atomic::{AtomicBool, AtomicU64, Ordering};
use std::test::Fail;
use std::thread::Threads;
use trace_reader::{Trace, read_trace};

mod caching;
mod tiny;
mod watched;

// A trace with its report: the trace's second line and the lines behind it, the report's lines before its profile, and the profile in its
// two forms, of the last mark end alone and of each.
struct Row {
    head: &'static str,
    lines: &'static str,
    report: &'static str,
    last: &'static str,
    each: &'static str,
}

// Four objects of a megabyte of which two survive; an object that lives on beside one that dies; an emptied span that is made again; and
// two processors, one of which is idle in the second cycle. A span that one processor sweeps and another fills. An event of size 0, which flushes
// nothing, so that the other processor's span comes behind the stale one; and the first event of a size above 0, small or large, which does
// before it is placed: of two cached spans the one of the lower class goes back first, and a large object then has the whole region. A payment of
// 8192 bytes where 528 pages are taken and 4 swept: at a distance of 8366 bytes behind the marking it is for 517 pages, and sweeps spans of 504, 8 and 8
// pages; at one of 8367 it is for 516, and the last of them is swept as the cycle ends, behind the take. The reclaimer stops at the first chunk
// both times. Then traces that are sampled: of size 0; at rate 1 with one mark end and with two; at rate 100, where the bytes between samples are
// 93, 180 and 157; and at rate 524288 with large objects, where they are 605813, 77639 and 43627.
const ROWS: [Row; 16] = [
    Row {
        head: "heap 1 procs 1 rate 0 seed 1 goal 512",
        lines: "a 0 1048576 n 1\na 0 1048576 n 1\na 0 1048576 n 1\na 0 1048576 n 1\ngc 1\nm 1 1\nm 3 3\na 0 1048577 n 1\n",
        report: "o 0 0xc000000000\no 1 0xc000100000\no 2 0xc000200000\no 3 0xc000300000\no 4 miss 6\n\
         j 0 0 take 0 128 1\nj 1 0 take 128 128 1\nj 2 0 take 256 128 1\nj 3 0 take 384 128 1\nj 4 1 give 0 128\nj 5 1 give 256 128\nj 6 1 miss 129 1\n\
         s 1 0 0 1\ns 1 128 1 0\ns 1 256 0 1\ns 1 384 1 0\nt 0 4 2\n",
        last: "",
        each: "",
    },
    Row {
        head: "heap 1 procs 1 rate 0 seed 1 goal 512",
        lines: "a 0 24 s 1\na 0 24 s 1\ngc 1\nm 1 1\na 0 24 s 1\n",
        report: "o 0 0xc000000000\no 1 0xc000000018\no 2 0xc000000000\nj 0 0 take 0 1 6\ns 1 0 1 1\nt 3 3 1\n",
        last: "",
        each: "",
    },
    Row {
        head: "heap 1 procs 1 rate 0 seed 1 goal 512",
        lines: "a 0 24 s 1\ngc 1\na 0 24 s 1\n",
        report: "o 0 0xc000000000\no 1 0xc000000000\nj 0 0 take 0 1 6\nj 1 1 give 0 1\nj 2 1 take 0 1 6\ns 1 0 0 1\nt 3 2 1\n",
        last: "",
        each: "",
    },
    Row {
        head: "heap 1 procs 2 rate 0 seed 1 goal 512",
        lines: "a 0 8 s 1\na 1 8 s 1\ngc 1\nm 0 0\na 1 8 s 1\n",
        report: "o 0 0xc000000000\no 1 0xc000002000\no 2 0xc000002000\nj 0 0 take 0 1 2\nj 1 0 take 1 1 2\nj 2 1 give 1 1\nj 3 1 take 1 1 2\n\
         s 1 0 1 0\ns 1 1 0 1\nt 1 3 1\n",
        last: "",
        each: "",
    },
    Row {
        head: "heap 1 procs 2 rate 0 seed 1 goal 512",
        lines: "a 0 4096 s 1\na 0 4096 s 1\ngc 1\nm 1 1\na 0 8 s 1\na 1 4096 s 1\n",
        report: "o 0 0xc000000000\no 1 0xc000001000\no 2 0xc000002000\no 3 0xc000000000\nj 0 0 take 0 1 88\nj 1 1 take 1 1 2\ns 1 0 1 1\nt 1 1 0\nt 44 3 1\n",
        last: "",
        each: "",
    },
    Row {
        head: "heap 1 procs 2 rate 0 seed 1 goal 512",
        lines: "a 0 8 s 1\ngc 1\na 0 0 s 1\na 1 16 s 1\n",
        report: "o 0 0xc000000000\no 1 zero\no 2 0xc000002000\nj 0 0 take 0 1 2\nj 1 1 take 1 1 4\nj 2 1 give 0 1\ns 1 0 0 1\nt 1 1 1\nt 2 1 0\n",
        last: "",
        each: "",
    },
    Row {
        head: "heap 1 procs 1 rate 0 seed 1 goal 512",
        lines: "a 0 8 s 1\ngc 1\na 0 0 s 1\na 0 16 s 1\na 0 24 s 1\n",
        report: "o 0 0xc000000000\no 1 zero\no 2 0xc000000000\no 3 0xc000002000\nj 0 0 take 0 1 2\nj 1 1 give 0 1\nj 2 1 take 0 1 4\nj 3 1 take 1 1 6\n\
         s 1 0 0 1\nt 1 1 1\nt 2 1 0\nt 3 1 0\n",
        last: "",
        each: "",
    },
    Row {
        head: "heap 1 procs 1 rate 0 seed 1 goal 512",
        lines: "a 0 8 s 1\ngc 1\na 0 4194304 n 1\n",
        report: "o 0 0xc000000000\no 1 0xc000000000\nj 0 0 take 0 1 2\nj 1 1 give 0 1\nj 2 1 take 0 512 1\ns 1 0 0 1\nt 0 1 0\nt 1 1 1\n",
        last: "",
        each: "",
    },
    Row {
        head: "heap 1 procs 1 rate 0 seed 1 goal 512",
        lines: "a 0 24 s 1\na 0 8 n 1\ngc 1\na 0 4194304 s 1\n",
        report: "o 0 0xc000000000\no 1 0xc000002000\no 2 0xc000000000\nj 0 0 take 0 1 6\nj 1 0 take 1 1 3\nj 2 1 give 1 1\nj 3 1 give 0 1\nj 4 1 take 0 512 0\n\
         s 1 0 0 1\ns 1 1 0 1\nt 0 1 0\nt 1 1 1\nt 3 1 1\n",
        last: "",
        each: "",
    },
    Row {
        head: "heap 2 procs 1 rate 0 seed 1 goal 1024",
        lines: "a 0 32768 n 1\na 0 32768 n 1\na 0 4128768 s 1\na 0 65536 s 1\na 0 65536 s 1\ngc 1056942\nm 1 2\na 0 8 s 1\n",
        report: "o 0 0xc000000000\no 1 0xc000008000\no 2 0xc000010000\no 3 0xc000400000\no 4 0xc000410000\no 5 0xc000000000\n\
         j 0 0 take 0 4 135\nj 1 0 take 4 4 135\nj 2 0 take 8 504 0\nj 3 0 take 512 8 0\nj 4 0 take 520 8 0\n\
         j 5 1 give 512 8\nj 6 1 give 520 8\nj 7 1 give 0 4\nj 8 1 take 0 1 2\n\
         s 1 0 0 1\ns 1 4 1 0\ns 1 8 1 0\ns 1 512 0 1\ns 1 520 0 1\nt 0 3 2\nt 1 1 0\nt 67 2 1\n",
        last: "",
        each: "",
    },
    Row {
        head: "heap 2 procs 1 rate 0 seed 1 goal 1024",
        lines: "a 0 32768 n 1\na 0 32768 n 1\na 0 4128768 s 1\na 0 65536 s 1\na 0 65536 s 1\ngc 1056943\nm 1 2\na 0 8 s 1\n",
        report: "o 0 0xc000000000\no 1 0xc000008000\no 2 0xc000010000\no 3 0xc000400000\no 4 0xc000410000\no 5 0xc000000000\n\
         j 0 0 take 0 4 135\nj 1 0 take 4 4 135\nj 2 0 take 8 504 0\nj 3 0 take 512 8 0\nj 4 0 take 520 8 0\n\
         j 5 1 give 512 8\nj 6 1 give 0 4\nj 7 1 take 0 1 2\nj 8 1 give 520 8\n\
         s 1 0 0 1\ns 1 4 1 0\ns 1 8 1 0\ns 1 512 0 1\ns 1 520 0 1\nt 0 3 2\nt 1 1 0\nt 67 2 1\n",
        last: "",
        each: "",
    },
    Row {
        head: "heap 1 procs 1 rate 1 seed 1 goal 512",
        lines: "a 0 0 n 3\ngc 1\nm 0 0\n",
        report: "o 0 zero\n",
        last: "",
        each: "",
    },
    Row {
        head: "heap 1 procs 1 rate 1 seed 1 goal 512",
        lines: "a 0 24 s 7\na 0 24 s 7\na 0 24 s 7\ngc 1\nm 0 0\n",
        report: "o 0 0xc000000000\no 1 0xc000000018\no 2 0xc000000030\nj 0 0 take 0 1 6\ns 1 0 1 2\nt 3 3 2\n",
        last: "p 1 7 24 3 2\n",
        each: "p 1 7 24 3 2\n",
    },
    Row {
        head: "heap 1 procs 1 rate 1 seed 1 goal 512",
        lines: "a 0 24 s 7\na 0 24 s 7\na 0 24 s 7\ngc 1\nm 0 0\na 0 24 s 7\ngc 1\nm 3 3\n",
        report: "o 0 0xc000000000\no 1 0xc000000018\no 2 0xc000000030\no 3 0xc000000018\nj 0 0 take 0 1 6\ns 1 0 1 2\ns 2 0 1 1\nt 3 4 3\n",
        last: "p 2 7 24 4 3\n",
        each: "p 1 7 24 3 2\np 2 7 24 4 3\n",
    },
    Row {
        head: "heap 1 procs 1 rate 100 seed 1 goal 512",
        lines: "a 0 48 s 5\na 0 48 s 5\na 0 48 s 5\na 0 48 s 5\na 0 48 s 5\na 0 48 s 5\ngc 1\nm 0 0\nm 5 5\n",
        report: "o 0 0xc000000000\no 1 0xc000000030\no 2 0xc000000060\no 3 0xc000000090\no 4 0xc0000000c0\no 5 0xc0000000f0\n\
         j 0 0 take 0 1 10\ns 1 0 2 4\nt 5 6 4\n",
        last: "p 1 5 48 2 1\n",
        each: "p 1 5 48 2 1\n",
    },
    Row {
        head: "heap 1 procs 1 rate 524288 seed 1 goal 512",
        lines: "a 0 1048576 n 9\na 0 65536 n 9\na 0 32768 n 9\ngc 1\nm 0 0\n",
        report: "o 0 0xc000000000\no 1 0xc000100000\no 2 0xc000110000\nj 0 0 take 0 128 1\nj 1 0 take 128 8 1\nj 2 0 take 136 4 135\n\
         j 3 1 give 128 8\nj 4 1 give 136 4\ns 1 0 1 0\ns 1 128 0 1\ns 1 136 0 1\nt 0 2 1\nt 67 1 1\n",
        last: "p 1 9 32768 1 1\np 1 9 1048576 1 0\n",
        each: "p 1 9 32768 1 1\np 1 9 1048576 1 0\n",
    },
];

// A trace of version 1.
fn trace_of(alloc: Global, head: &str, lines: &str) -> Result<Trace, Fail>
    ensures { IfOk result WithinLimits }
{
    trace_by(alloc, "goheap 1", head, lines)
}

// A trace with this first line.
fn trace_by(alloc: Global, version: &str, head: &str, lines: &str) -> Result<Trace, Fail>
    ensures { IfOk result WithinLimits }
{
    let text = format!(in alloc; "{version}\n{head}\n{lines}end\n")?;
    let bytes = List::from_vec(text.as_bytes().to_vec(alloc)?);
    let mut source = MemorySource::new(bytes, List::new(alloc));
    let mut lines = Lines::new(&mut source, 67_108_864);
    Ok(read_trace(alloc, &mut lines)?)
}

fn report_of(alloc: Global, lines: &str, profile: &str) -> Result<Report, Fail> {
    let text = format!(in alloc; "{lines}{profile}end\n")?;
    let bytes = List::from_vec(text.as_bytes().to_vec(alloc)?);
    let mut source = MemorySource::new(bytes, List::new(alloc));
    let mut lines = Lines::new(&mut source, 67_108_864);
    match read_report(alloc, &mut lines) {
        Ok(report) => Ok(report),
        Err(_) => Err("no report".into()),
    }
}

// Runs a trace.
fn ran<R: Abort + AllocGlobal + Threads + Wait + Sync, G: Gate>(
    rt: &R,
    trace: &Trace,
    background: u32,
    each: bool,
    gate: &G,
) -> Result<Report, Fail>
    requires limits { WithinLimits trace.now }
    requires background { background ≤ 4 }
{
    let options = Options { background, each };
    match run_trace(rt, rt.alloc(), trace, options, gate) {
        Ok(ran) => Ok(ran.report),
        Err(_) => Err("out of memory".into()),
    }
}

// A trace's report is sound, whoever came first.
fn judge<R: Abort + AllocGlobal + Threads + Wait + Sync, G: Gate>(
    rt: &R,
    trace: &Trace,
    background: u32,
    each: bool,
    gate: &G,
) -> Result<(), Fail>
    requires limits { WithinLimits trace.now }
    requires background { background ≤ 4 }
{
    let report = ran(rt, trace, background, each, gate)?;
    assert!(rt; check_version(rt.alloc(), trace, &report).is_ok());
    Ok(())
}

// A single processor's report without background sweepers is the one that the row has.
fn compare<R: Abort + AllocGlobal + Threads + Wait + Sync>(
    rt: &R,
    trace: &Trace,
    each: bool,
    row: &Row,
) -> Result<(), Fail>
    requires limits { WithinLimits trace.now }
{
    let profile = if each { row.each } else { row.last };
    let wanted = report_of(rt.alloc(), row.report, profile)?;
    let found = ran(rt, trace, 0, each, &OpenGate)?;
    assert_eq!(rt; found.answers.as_slice(), wanted.answers.as_slice());
    assert_eq!(rt; found.journal.as_slice(), wanted.journal.as_slice());
    assert_eq!(rt; found.sweeps.as_slice(), wanted.sweeps.as_slice());
    assert_eq!(rt; found.totals.as_slice(), wanted.totals.as_slice());
    assert_eq!(rt; found.profile.as_slice(), wanted.profile.as_slice());
    Ok(())
}

// Runs of a row's trace, in both forms of the profile, without background sweepers and with four.
fn run_forms<R: Abort + AllocGlobal + Threads + Wait + Sync>(
    rt: &R,
    trace: &Trace,
    row: &Row,
) -> Result<(), Fail>
    requires limits { WithinLimits trace.now }
{
    for each in [false, true] {
        if trace.header.procs == 1 {
            compare(rt, trace, each, row)?;
        }
        judge(rt, trace, 0, each, &OpenGate)?;
        judge(rt, trace, 4, each, &OpenGate)?;
    }
    Ok(())
}

// The same of the row's lines behind this first line.
fn run_row<R: Abort + AllocGlobal + Threads + Wait + Sync>(
    rt: &R,
    version: &str,
    row: &Row,
) -> Result<(), Fail> {
    let trace = trace_by(rt.alloc(), version, row.head, row.lines)?;
    run_forms(rt, &trace, row)
}

#[test]
fn traces_are_run(rt: HostRuntime) -> Result<(), Fail> {
    for row in &ROWS {
        run_row(&rt, "goheap 1", row)?;
    }
    Ok(())
}

// Two processors, a processor and a background sweeper, and a processor and the scavenger.
const PAIRS: [(u32, u32); 3] = [(0, 1), (0, 64), (0, 68)];

// Each of two workers waits for the other, so they meet only where they run beside each other.
#[test]
fn workers_run_beside_each_other(rt: HostRuntime) -> Result<(), Fail> {
    let head = "heap 1 procs 2 rate 0 seed 1 goal 512";
    let trace = trace_of(rt.alloc(), head, "a 0 24 s 1\na 1 24 s 1\n")?;
    for (first, second) in PAIRS {
        let gate = HoldGate::new(first, second);
        judge(&rt, &trace, 1, false, &gate)?;
        assert!(rt; !gate.gave_up());
    }
    Ok(())
}

// A gate that counts its calls by the worker's number, and whether each had the next turn of its worker.
#[derive(Drop)]
struct CountGate {
    calls: Vec<AtomicU64>,
    in_turn: AtomicBool,
}

impl CountGate {
    // Nobody has come yet.
    fn new(alloc: Global) -> Result<CountGate, Fail> {
        let mut calls = Vec::new(alloc);
        for _number in 0..70 {
            calls.push(AtomicU64::new(0))?;
        }
        Ok(CountGate {
            calls,
            in_turn: AtomicBool::new(true),
        })
    }

    // How often the worker of a number has come.
    fn passed(&self, worker: u32) -> u64 {
        match self.calls.get(worker as usize) {
            Some(calls) => calls.load(Ordering::SeqCst),
            None => 0,
        }
    }
}

impl Gate for CountGate {
    fn before(&self, worker: u32, turn: u64) {
        let next = match self.calls.get(worker as usize) {
            Some(calls) => calls.fetch_add(1, Ordering::SeqCst) == turn,
            None => false,
        };
        if !next {
            self.in_turn.store(false, Ordering::SeqCst);
        }
    }
}

// In a cycle each processor passes the gate once an event, of size 0 too, and each background sweeper that was asked for and the scavenger once.
#[test]
fn each_worker_passes_the_gate(rt: HostRuntime) -> Result<(), Fail> {
    let head = "heap 1 procs 3 rate 0 seed 1 goal 512";
    let lines = "a 0 24 s 1\na 2 0 s 1\na 0 24 s 1\na 2 8 n 1\na 0 40000 s 1\n";
    let trace = trace_of(rt.alloc(), head, lines)?;
    for background in 0..5 {
        let gate = CountGate::new(rt.alloc())?;
        judge(&rt, &trace, background, false, &gate)?;
        assert!(rt; gate.in_turn.load(Ordering::SeqCst));
        for worker in 0..70_u32 {
            let wanted = match worker {
                0 => 3,
                2 => 2,
                64..=67 => u64::from(worker < 64 + background),
                68 => 1,
                _ => 0,
            };
            assert_eq!(rt; gate.passed(worker), wanted);
        }
    }
    Ok(())
}
