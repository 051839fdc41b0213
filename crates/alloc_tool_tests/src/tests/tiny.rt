//! Traces with tiny objects, run, and their reports, judged and shown. The expected texts are found by hand from the rules of docs/.

use super::judged::{Row, expect_row, expect_said};
use super::*;

// The first lines of a trace of version 3.
const TINY: &str = "goheap 3\nheap 1 procs 1 rate 0 seed 1 goal 512\n";

// The same where all is sampled.
const SAMPLED: &str = "goheap 3\nheap 1 procs 1 rate 1 seed 1 goal 512\n";

// Objects of 8, 4, 2, 1 and 2 bytes: three ride behind the first, and the last finds no room.
const FIVE: &str = "a 0 8 n 1\na 0 4 n 1\na 0 2 n 1\na 0 1 n 1\na 0 2 n 1\n";

const OF_FIVE: &str =
    "o 0 0xc000000000\no 1 0xc000000008\no 2 0xc00000000c\no 3 0xc00000000e\no 4 0xc000000010\nj 0 0 pull 0 0 64\nj 1 0 cut 0 0 1 5\nj 2 0 drop 0 0 63\nt 2 2 0\nend\n";

// Two objects of 8 bytes in one block, of which the mark end marks the second.
const RIDER_KEPT: &str = "a 0 8 n 1\na 0 8 n 1\ngc 1\nm 1 1\n";

const OF_RIDER_KEPT: &str =
    "o 0 0xc000000000\no 1 0xc000000008\nj 0 0 pull 0 0 64\nj 1 0 cut 0 0 1 5\nj 2 0 drop 0 0 63\ns 1 0 1 0\nt 2 1 0\nend\n";

// Traces, and the whole reports of their runs.
const ANSWERED_TINY: &[(&str, &str)] = &[(FIVE, OF_FIVE), (RIDER_KEPT, OF_RIDER_KEPT)];

// Wants this whole report of a run of the trace of these lines, where nobody sweeps beside the processor.
fn expect_run<R: Threads + Wait + Sync + AllocGlobal + Abort>(
    rt: &R,
    lines: &str,
    report: &str,
) -> Result<(), Fail> {
    let input = format!(in rt.alloc(); "{TINY}{lines}end\n")?;
    expect(
        rt,
        lines,
        WORDS[1],
        input.as_bytes(),
        failing(&[], &[]),
        answered(report),
    )
}

#[test]
fn tiny_traces_are_answered(rt: HostRuntime) -> Result<(), Fail> {
    for &(lines, report) in ANSWERED_TINY {
        expect_run(&rt, lines, report)?;
        sound_run(&rt, WORDS[0], "goheap 3", SMALL, lines, &OpenGate)?;
    }
    Ok(())
}

const ROWS: &[Row] = &[
    ("", "end\n", 0, ""),
    (FIVE, OF_FIVE, 0, ""),
    (RIDER_KEPT, OF_RIDER_KEPT, 0, ""),
    // rule 1: the last object has no answer
    (
        FIVE,
        "o 0 0xc000000000\no 1 0xc000000008\no 2 0xc00000000c\no 3 0xc00000000e\nj 0 0 pull 0 0 64\nj 1 0 cut 0 0 1 5\nj 2 0 drop 0 0 63\nt 2 2 0\nend\n",
        4,
        "goheap: report line 9: rule 1\n",
    ),
    // rule 2: a cut that leaves the block's first page, and a block that is never dropped
    (
        FIVE,
        "o 0 0xc000000000\no 1 0xc000000008\no 2 0xc00000000c\no 3 0xc00000000e\no 4 0xc000000010\nj 0 0 pull 0 0 64\nj 1 0 cut 0 1 1 5\nj 2 0 drop 0 0 63\nt 2 2 0\nend\n",
        4,
        "goheap: report line 7: rule 2\n",
    ),
    (
        RIDER_KEPT,
        "o 0 0xc000000000\no 1 0xc000000008\nj 0 0 pull 0 0 64\nj 1 0 cut 0 0 1 5\ns 1 0 1 0\nt 2 1 0\nend\n",
        4,
        "goheap: report line 7: rule 2\n",
    ),
    // rule 3: a lead that names no miss
    (
        FIVE,
        "o 0 miss 1\no 1 0xc000000008\no 2 0xc00000000c\no 3 0xc00000000e\no 4 0xc000000010\nj 0 0 pull 0 0 64\nj 1 0 cut 0 0 1 5\nj 2 0 drop 0 0 63\nt 2 2 0\nend\n",
        4,
        "goheap: report line 1: rule 3\n",
    ),
    // rule 4: a lead at no slot, and a block that is given back while its rider lives
    (
        RIDER_KEPT,
        "o 0 0xc000000008\no 1 0xc000000010\nj 0 0 pull 0 0 64\nj 1 0 cut 0 0 1 5\nj 2 0 drop 0 0 63\ns 1 0 1 0\nt 2 1 0\nend\n",
        4,
        "goheap: report line 1: rule 4\n",
    ),
    (
        RIDER_KEPT,
        "o 0 0xc000000000\no 1 0xc000000008\nj 0 0 pull 0 0 64\nj 1 0 cut 0 0 1 5\nj 2 0 drop 0 0 63\nj 3 1 give 0 1\ns 1 0 0 1\nt 2 1 1\nend\n",
        4,
        "goheap: report line 1: rule 4\n",
    ),
    // rule 5: two leads in one slot; and rule 6: a slot that is left free
    (
        FIVE,
        "o 0 0xc000000000\no 1 0xc000000008\no 2 0xc00000000c\no 3 0xc00000000e\no 4 0xc000000000\nj 0 0 pull 0 0 64\nj 1 0 cut 0 0 1 5\nj 2 0 drop 0 0 63\nt 2 2 0\nend\n",
        4,
        "goheap: report line 5: rule 5\n",
    ),
    (
        FIVE,
        "o 0 0xc000000000\no 1 0xc000000008\no 2 0xc00000000c\no 3 0xc00000000e\no 4 0xc000000020\nj 0 0 pull 0 0 64\nj 1 0 cut 0 0 1 5\nj 2 0 drop 0 0 63\nt 2 2 0\nend\n",
        4,
        "goheap: report line 5: rule 6\n",
    ),
    // rule 7: a sweep that frees the block of a marked rider
    (
        RIDER_KEPT,
        "o 0 0xc000000000\no 1 0xc000000008\nj 0 0 pull 0 0 64\nj 1 0 cut 0 0 1 5\nj 2 0 drop 0 0 63\ns 1 0 0 1\nt 2 1 1\nend\n",
        4,
        "goheap: report line 6: rule 7\n",
    ),
    // rule 8: riders are counted
    (
        FIVE,
        "o 0 0xc000000000\no 1 0xc000000008\no 2 0xc00000000c\no 3 0xc00000000e\no 4 0xc000000010\nj 0 0 pull 0 0 64\nj 1 0 cut 0 0 1 5\nj 2 0 drop 0 0 63\nt 2 5 0\nend\n",
        4,
        "goheap: report line 9: rule 8\n",
    ),
    // rule 10: a rider a byte too high, at its lead's address, and at none
    (
        FIVE,
        "o 0 0xc000000000\no 1 0xc000000009\no 2 0xc00000000c\no 3 0xc00000000e\no 4 0xc000000010\nj 0 0 pull 0 0 64\nj 1 0 cut 0 0 1 5\nj 2 0 drop 0 0 63\nt 2 2 0\nend\n",
        4,
        "goheap: report line 2: rule 10\n",
    ),
    (
        RIDER_KEPT,
        "o 0 0xc000000000\no 1 0xc000000000\nj 0 0 pull 0 0 64\nj 1 0 cut 0 0 1 5\nj 2 0 drop 0 0 63\ns 1 0 1 0\nt 2 1 0\nend\n",
        4,
        "goheap: report line 2: rule 10\n",
    ),
    (
        RIDER_KEPT,
        "o 0 0xc000000000\no 1 miss 0\nj 0 0 pull 0 0 64\nj 1 0 cut 0 0 1 5\nj 2 0 drop 0 0 63\ns 1 0 1 0\nt 2 1 0\nend\n",
        4,
        "goheap: report line 2: rule 10\n",
    ),
    // a fault of the report's text comes before the rules
    (
        FIVE,
        "o 0 0xc000000000\no 1 0xc000000009\no 2 0xc00000000c\no 3 0xc00000000e\no 4 0xc000000010\nj 0 0 pull 0 0 64\nj 1 0 cut 0 0 1 5\nj 2 0 drop 0 0 63\nt 02 2 0\nend\n",
        4,
        "goheap: report line 9: malformed\n",
    ),
    // and one of the trace before both
    (
        "a 0 08 n 1\n",
        "o 0 0xc000000009\nend\n",
        3,
        "goheap: trace line 3: malformed\n",
    ),
];

#[test]
fn tiny_objects_are_judged(rt: HostRuntime) -> Result<(), Fail> {
    for &row in ROWS {
        expect_row(&rt, TINY, row)?;
    }
    Ok(())
}

// The same reports in version 2, whose objects of 8 bytes sit in no span of 16 bytes.
#[test]
fn version_2_has_no_tiny_objects(rt: HostRuntime) -> Result<(), Fail> {
    let told = "goheap: report line 1: rule 4\n";
    expect_row(&rt, CACHING, (FIVE, OF_FIVE, 4, told))?;
    expect_row(&rt, CACHING, (RIDER_KEPT, OF_RIDER_KEPT, 4, told))
}

// Two blocks and an object of 16 bytes. The second object rides, so that its stack has no bucket before the last object's.
const TIES: &str = "a 0 8 n 5\na 0 8 n 2\na 0 16 n 7\na 0 8 n 2\ngc 1\nm 0 3\n";

const OF_TIES: &str =
    "o 0 0xc000000000\no 1 0xc000000008\no 2 0xc000000010\no 3 0xc000000020\nj 0 0 take 0 1 5\ns 1 0 3 0\nt 2 3 0\np 1 2 16 1 0\np 1 5 16 1 0\np 1 7 16 1 0\nend\n";

// What `heap` writes of sound reports, and what it tells of others: the lead alone is sampled, and in use where a rider is marked.
#[test]
fn profiles_of_tiny_objects_are_written(rt: HostRuntime) -> Result<(), Fail> {
    let none = answered("heap profile: 0: 0 [0: 0] @ heap/0\n");
    expect_said(&rt, TINY, &["heap"], FIVE, OF_FIVE, none)?;
    expect_said(&rt, TINY, &["heap"], RIDER_KEPT, OF_RIDER_KEPT, none)?;
    let report =
        "o 0 0xc000000000\no 1 0xc000000008\nj 0 0 take 0 1 5\ns 1 0 1 0\nt 2 1 0\np 1 1 16 1 0\nend\n";
    let wanted = answered("heap profile: 1: 16 [1: 16] @ heap/2\n1: 16 [1: 16] @ 0x1\n");
    expect_said(&rt, SAMPLED, &["heap"], RIDER_KEPT, report, wanted)?;
    let wanted = answered(
        "heap profile: 3: 48 [3: 48] @ heap/2\n1: 16 [1: 16] @ 0x5\n1: 16 [1: 16] @ 0x7\n1: 16 [1: 16] @ 0x2\n",
    );
    expect_said(&rt, SAMPLED, &["heap"], TIES, OF_TIES, wanted)?;
    let report = "o 0 0xc000000000\no 1 0xc000000009\nj 0 0 take 0 1 5\ns 1 0 1 0\nt 2 1 0\nend\n";
    let wanted = refused(4, "goheap: report line 2: rule 10\n");
    expect_said(&rt, TINY, &["heap"], RIDER_KEPT, report, wanted)?;
    let report = "o 0 0xc000000000\no 1 0xc000000009\nj 0 0 take 1 1 5\ns 1 0 1 0\nt 2 1 0\nend\n";
    let wanted = refused(4, "goheap: report line 3: rule 2\n");
    expect_said(&rt, TINY, &["heap"], RIDER_KEPT, report, wanted)
}
