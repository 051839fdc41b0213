//! Runs of version 2, in which each processor has a page cache.

use super::{Row, judge, ran, run_row, trace_by};
use cycle_history::Answer;
use edge_io::OpenGate;
use report_check::check_version;
use std::test::Fail;

// The first line of a trace of version 2.
const VERSION: &str = "goheap 2";

// One object of a page, whose block is settled behind it; the same with a mark end, behind which the span is given back and the block pulled
// anew; a span of 15 pages, which is cut, and one of 16, which is taken behind the block; and a region that is taken whole, so that nothing
// is left to pull. Then a cut that finds no run in what is left of the block, though pages are left, so that a run is taken; and a mark end at
// which an object lives on, whose span is swept and filled without a pull.
const ROWS: [Row; 6] = [
    Row {
        head: "heap 1 procs 1 rate 0 seed 1 goal 512",
        lines: "a 0 24 s 1\n",
        report: "o 0 0xc000000000\nj 0 0 pull 0 0 64\nj 1 0 cut 0 0 1 6\nj 2 0 drop 0 0 63\nt 3 1 0\n",
        last: "",
        each: "",
    },
    Row {
        head: "heap 1 procs 1 rate 0 seed 1 goal 512",
        lines: "a 0 24 s 1\ngc 1\na 0 24 s 1\n",
        report: "o 0 0xc000000000\no 1 0xc000000000\nj 0 0 pull 0 0 64\nj 1 0 cut 0 0 1 6\nj 2 0 drop 0 0 63\nj 3 1 give 0 1\n\
         j 4 1 pull 0 0 64\nj 5 1 cut 0 0 1 6\nj 6 1 drop 0 0 63\ns 1 0 0 1\nt 3 2 1\n",
        last: "",
        each: "",
    },
    Row {
        head: "heap 1 procs 1 rate 0 seed 1 goal 512",
        lines: "a 0 122880 n 1\na 0 131072 n 1\n",
        report: "o 0 0xc000000000\no 1 0xc000080000\nj 0 0 pull 0 0 64\nj 1 0 take 64 16 1\nj 2 0 cut 0 0 15 1\nj 3 0 drop 0 0 49\nt 0 2 0\n",
        last: "",
        each: "",
    },
    Row {
        head: "heap 1 procs 1 rate 0 seed 1 goal 512",
        lines: "a 0 4194304 s 1\na 0 1 s 1\n",
        report: "o 0 0xc000000000\no 1 miss 1\nj 0 0 take 0 512 0\nj 1 0 miss 1 2\nt 0 1 0\n",
        last: "",
        each: "",
    },
    Row {
        head: "heap 1 procs 1 rate 0 seed 1 goal 512",
        lines: "a 0 122880 n 1\na 0 122880 n 1\na 0 122880 n 1\na 0 122880 n 1\na 0 122880 n 1\n",
        report: "o 0 0xc000000000\no 1 0xc00001e000\no 2 0xc00003c000\no 3 0xc00005a000\no 4 0xc000080000\n\
         j 0 0 pull 0 0 64\nj 1 0 take 64 15 1\nj 2 0 cut 0 0 15 1\nj 3 0 cut 0 15 15 1\nj 4 0 cut 0 30 15 1\nj 5 0 cut 0 45 15 1\nj 6 0 drop 0 0 4\nt 0 5 0\n",
        last: "",
        each: "",
    },
    Row {
        head: "heap 1 procs 1 rate 0 seed 1 goal 512",
        lines: "a 0 24 s 1\na 0 24 s 1\ngc 1\nm 1 1\na 0 24 s 1\n",
        report: "o 0 0xc000000000\no 1 0xc000000018\no 2 0xc000000000\nj 0 0 pull 0 0 64\nj 1 0 cut 0 0 1 6\nj 2 0 drop 0 0 63\ns 1 0 1 1\nt 3 3 1\n",
        last: "",
        each: "",
    },
];

#[test]
fn blocks_are_pulled_and_settled(rt: HostRuntime) -> Result<(), Fail> {
    for row in &ROWS {
        run_row(&rt, VERSION, row)?;
    }
    Ok(())
}

// Two processors each cut a page: out of blocks of their own, or the second out of what the first has dropped.
#[test]
fn processors_cut_beside_each_other(rt: HostRuntime) -> Result<(), Fail> {
    let head = "heap 1 procs 2 rate 0 seed 1 goal 512";
    let trace = trace_by(rt.alloc(), VERSION, head, "a 0 8 s 1\na 1 8 s 1\n")?;
    let report = ran(&rt, &trace, 0, false, &OpenGate)?;
    let first = Answer::Placed(0xc000000000);
    let others = [Answer::Placed(0xc000002000), Answer::Placed(0xc000080000)];
    let found = match report.answers.as_slice() {
        [one, other] => (*one == first && others.contains(other))
            || (*other == first && others.contains(one)),
        _ => false,
    };
    assert!(rt; found);
    assert!(rt; check_version(rt.alloc(), &trace, &report).is_ok());
    judge(&rt, &trace, 4, true, &OpenGate)
}
