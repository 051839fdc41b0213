//! Runs of version 3, in which tiny objects ride in blocks of 16 bytes.

use super::{Row, judge, run_row, trace_by};
use edge_io::OpenGate;
use std::test::Fail;

// The first line of a trace of version 3.
const VERSION: &str = "goheap 3";

// Five objects of which the last begins a block; a block that is kept by its rider's mark alone; the same sampled, of two stacks, where the
// profile has its first object alone; a block that is forgotten at the mark end that keeps it. Then offsets that are raised, and a block that
// replaces one with less room; one that doesn't, since the block before it has more. A tiny object with pointers has a span of its own class, and
// one of size 0 nothing. In a region that is full each tiny object is missed as a block of its own.
const ROWS: [Row; 8] = [
    Row {
        head: "heap 1 procs 1 rate 0 seed 1 goal 512",
        lines: "a 0 8 n 1\na 0 4 n 1\na 0 2 n 1\na 0 1 n 1\na 0 2 n 1\n",
        report: "o 0 0xc000000000\no 1 0xc000000008\no 2 0xc00000000c\no 3 0xc00000000e\no 4 0xc000000010\n\
         j 0 0 pull 0 0 64\nj 1 0 cut 0 0 1 5\nj 2 0 drop 0 0 63\nt 2 2 0\n",
        last: "",
        each: "",
    },
    Row {
        head: "heap 1 procs 1 rate 0 seed 1 goal 512",
        lines: "a 0 8 n 1\na 0 8 n 1\ngc 1\nm 1 1\n",
        report: "o 0 0xc000000000\no 1 0xc000000008\nj 0 0 pull 0 0 64\nj 1 0 cut 0 0 1 5\nj 2 0 drop 0 0 63\ns 1 0 1 0\nt 2 1 0\n",
        last: "",
        each: "",
    },
    Row {
        head: "heap 1 procs 1 rate 1 seed 1 goal 512",
        lines: "a 0 8 n 7\na 0 8 n 8\ngc 1\nm 1 1\n",
        report: "o 0 0xc000000000\no 1 0xc000000008\nj 0 0 pull 0 0 64\nj 1 0 cut 0 0 1 5\nj 2 0 drop 0 0 63\ns 1 0 1 0\nt 2 1 0\n",
        last: "p 1 7 16 1 0\n",
        each: "p 1 7 16 1 0\n",
    },
    Row {
        head: "heap 1 procs 1 rate 0 seed 1 goal 512",
        lines: "a 0 8 n 1\ngc 1\nm 0 0\na 0 8 n 1\n",
        report: "o 0 0xc000000000\no 1 0xc000000010\nj 0 0 pull 0 0 64\nj 1 0 cut 0 0 1 5\nj 2 0 drop 0 0 63\ns 1 0 1 0\nt 2 2 0\n",
        last: "",
        each: "",
    },
    Row {
        head: "heap 1 procs 1 rate 0 seed 1 goal 512",
        lines: "a 0 3 n 1\na 0 4 n 1\na 0 1 n 1\na 0 2 n 1\na 0 8 n 1\na 0 8 n 1\n",
        report: "o 0 0xc000000000\no 1 0xc000000004\no 2 0xc000000008\no 3 0xc00000000a\no 4 0xc000000010\no 5 0xc000000018\n\
         j 0 0 pull 0 0 64\nj 1 0 cut 0 0 1 5\nj 2 0 drop 0 0 63\nt 2 2 0\n",
        last: "",
        each: "",
    },
    Row {
        head: "heap 1 procs 1 rate 0 seed 1 goal 512",
        lines: "a 0 2 n 1\na 0 15 n 1\na 0 2 n 1\n",
        report: "o 0 0xc000000000\no 1 0xc000000010\no 2 0xc000000002\nj 0 0 pull 0 0 64\nj 1 0 cut 0 0 1 5\nj 2 0 drop 0 0 63\nt 2 2 0\n",
        last: "",
        each: "",
    },
    Row {
        head: "heap 1 procs 1 rate 0 seed 1 goal 512",
        lines: "a 0 8 s 1\na 0 0 n 1\n",
        report: "o 0 0xc000000000\no 1 zero\nj 0 0 pull 0 0 64\nj 1 0 cut 0 0 1 2\nj 2 0 drop 0 0 63\nt 1 1 0\n",
        last: "",
        each: "",
    },
    Row {
        head: "heap 1 procs 1 rate 0 seed 1 goal 512",
        lines: "a 0 4194304 s 1\na 0 8 n 1\na 0 4 n 1\n",
        report: "o 0 0xc000000000\no 1 miss 1\no 2 miss 2\nj 0 0 take 0 512 0\nj 1 0 miss 1 5\nj 2 0 miss 1 5\nt 0 1 0\n",
        last: "",
        each: "",
    },
];

#[test]
fn tiny_objects_ride(rt: HostRuntime) -> Result<(), Fail> {
    for row in &ROWS {
        run_row(&rt, VERSION, row)?;
    }
    Ok(())
}

// Two processors ride beside each other, each in its own blocks.
#[test]
fn processors_have_blocks_of_their_own(rt: HostRuntime) -> Result<(), Fail> {
    let head = "heap 1 procs 2 rate 1 seed 1 goal 512";
    let lines = "a 0 8 n 1\na 1 8 n 1\na 0 4 n 1\na 1 4 n 1\ngc 1\nm 2 3\na 1 4 n 1\na 0 4 n 1\n";
    let trace = trace_by(rt.alloc(), VERSION, head, lines)?;
    for each in [false, true] {
        judge(&rt, &trace, 0, each, &OpenGate)?;
        judge(&rt, &trace, 4, each, &OpenGate)?;
    }
    Ok(())
}
