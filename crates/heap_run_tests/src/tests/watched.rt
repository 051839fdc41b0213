//! Runs that are watched. Which profiles a watcher sees depends on who comes first, but for the last one.

ghost use Rattle.std.specs.Prelude.{◌≤◌};
ghost use Rattle.trace_reader.specs.Limits.{WithinLimits};

use super::trace_of;
use edge_io::{List, OpenGate};
use heap_run::{Sight, Watched, run_watched};
use report_check::check_version;
use std::process::Abort;
use std::sync::Wait;
use std::test::Fail;
use std::thread::Threads;
use trace_reader::Trace;

// A trace with the sums of its profiles: the allocations and the frees as of each mark end, from number 0 on.
struct Row {
    head: &'static str,
    lines: &'static str,
    sums: &'static [(u64, u64)],
}

// No line, and none with a mark end; three objects of which two die at the only mark end; and those, and one that is placed between it and
// another, at which one of the others dies. Two buckets on two processors, each with an object that dies at the first of three mark ends, while one
// of the first dies at the second.
const ROWS: [Row; 5] = [
    Row {
        head: "heap 1 procs 1 rate 0 seed 1 goal 512",
        lines: "",
        sums: &[(0, 0)],
    },
    Row {
        head: "heap 1 procs 1 rate 1 seed 1 goal 512",
        lines: "a 0 24 s 7\n",
        sums: &[(0, 0)],
    },
    Row {
        head: "heap 1 procs 1 rate 1 seed 1 goal 512",
        lines: "a 0 24 s 7\na 0 24 s 7\na 0 24 s 7\ngc 1\nm 0 0\n",
        sums: &[(0, 0), (3, 2)],
    },
    Row {
        head: "heap 1 procs 1 rate 1 seed 1 goal 512",
        lines: "a 0 24 s 7\na 0 24 s 7\na 0 24 s 7\ngc 1\nm 0 0\na 0 24 s 7\ngc 1\nm 3 3\n",
        sums: &[(0, 0), (3, 2), (4, 3)],
    },
    Row {
        head: "heap 1 procs 2 rate 1 seed 1 goal 512",
        lines: "a 0 24 s 7\na 1 40 s 8\na 0 24 s 7\na 1 40 s 8\ngc 1\nm 0 1\ngc 1\nm 1 1\ngc 1\nm 1 1\na 0 8 s 7\n",
        sums: &[(0, 0), (4, 2), (4, 3), (4, 3)],
    },
];

// Whether each sight has the sums of its number, the numbers rise, and the last is that of the last profile.
fn is_right(sights: &List<Sight>, sums: &[(u64, u64)]) -> bool {
    let mut least = 0;
    for sight in sights.as_slice() {
        if sight.k < least || sums.get(sight.k as usize) != Some(&(sight.allocs, sight.frees)) {
            return false;
        }
        least = sight.k.saturating_add(1);
    }
    least as usize == sums.len()
}

fn watched<R: Abort + Threads + Wait + Sync + AllocGlobal>(
    rt: &R,
    trace: &Trace,
    readers: u32,
) -> Result<Watched, Fail>
    requires limits { WithinLimits trace.now }
    requires readers { (1 ≤ readers) × (readers ≤ 4) }
{
    match run_watched(rt, rt.alloc(), trace, readers, &OpenGate) {
        Ok(watched) => Ok(watched),
        Err(_) => Err("out of memory".into()),
    }
}

#[test]
fn watchers_see_the_sums_of_mark_ends(rt: HostRuntime) -> Result<(), Fail> {
    for row in &ROWS {
        let trace = trace_of(rt.alloc(), row.head, row.lines)?;
        for before in 0..4 {
            let watched = watched(&rt, &trace, before + 1)?;
            assert!(rt; check_version(rt.alloc(), &trace, &watched.ran.report).is_ok());
            assert_eq!(rt; watched.seen.len(), before as usize + 1);
            for sights in watched.seen.as_slice() {
                assert!(rt; is_right(sights, row.sums), "at {}", row.lines);
            }
        }
    }
    Ok(())
}
