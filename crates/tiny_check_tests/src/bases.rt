//! Traces with tiny objects, each with its base.

use crate::read::{objects, trace_of};
use Answer::{Missed, Placed, Zero};
use cycle_history::Answer;
use edge_io::List;
use std::process::Abort;
use std::test::Fail;
use tiny_alloc::base_of;
use trace_reader::{Cycle, Span};

/// The lines of a trace and the answers of its objects; of its base the sizes of the objects, the spans that the mark ends mark, all
/// in one list, the answers, and the riders: the number of each, its lead's, and its offset.
struct Row {
    lines: &'static str,
    answers: &'static [Answer],
    sizes: &'static [u64],
    marks: &'static [Span],
    based: &'static [Answer],
    riders: &'static [(u32, u32, u32)],
}

// Adds the sizes of the objects of a cycle, and the spans that are marked as it ends.
fn add(cycle: &Cycle, sizes: &mut Vec<u64>, marks: &mut Vec<Span>) -> Result<(), Fail> {
    for event in cycle.events.as_slice() {
        sizes.push(event.size)?;
    }
    if let Some(end) = &cycle.mark {
        for span in end.marks.as_slice() {
            marks.push(*span)?;
        }
    }
    Ok(())
}

fn compare<R: Abort + AllocGlobal>(rt: &R, number: usize, row: &Row) -> Result<(), Fail> {
    let alloc = rt.alloc();
    let trace = trace_of(alloc, 2, 0, row.lines)?;
    let answers = List::from_vec(Vec::from_slice(alloc, row.answers)?);
    if answers.len() != objects(&trace) {
        return Err("not one answer for each object".into());
    }
    let base = base_of(alloc, &trace, &answers)?;
    let mut sizes = Vec::new(alloc);
    let mut marks = Vec::new(alloc);
    for cycle in base.trace.cycles.as_slice() {
        add(cycle, &mut sizes, &mut marks)?;
    }
    assert_eq!(rt; base.trace.header.version, 2, "row {number}");
    assert_eq!(rt; sizes.as_slice(), row.sizes, "row {number}");
    assert_eq!(rt; marks.as_slice(), row.marks, "row {number}");
    assert_eq!(rt; base.answers.as_slice(), row.based, "row {number}");
    let mut riders = Vec::new(alloc);
    for rider in base.riders.as_slice() {
        riders.push((rider.object, rider.lead, rider.offset))?;
    }
    assert_eq!(rt; riders.as_slice(), row.riders, "row {number}");
    Ok(())
}

#[test]
fn traces_have_their_bases(rt: HostRuntime) -> Result<(), Fail> {
    for (number, row) in ROWS.iter().enumerate() {
        compare(&rt, number, row)?;
    }
    Ok(())
}

/// The addresses of the first three blocks.
const FIRST: Answer = Placed(0xc0_0000_0000);

const SECOND: Answer = Placed(0xc0_0000_0010);

const THIRD: Answer = Placed(0xc0_0000_0020);

/// An address of no block.
const ANY: Answer = Placed(0xc0_0000_0007);

const ROWS: [Row; 9] = [
    Row {
        lines: "",
        answers: &[],
        sizes: &[],
        marks: &[],
        based: &[],
        riders: &[],
    },
    // three objects ride behind the first, and the last finds no room; where riders stand doesn't matter
    Row {
        lines: "a 0 8 n 1\na 0 4 n 1\na 0 2 n 1\na 0 1 n 1\na 0 2 n 1\n",
        answers: &[FIRST, ANY, ANY, ANY, SECOND],
        sizes: &[16, 0, 0, 0, 16],
        marks: &[],
        based: &[FIRST, Zero, Zero, Zero, SECOND],
        riders: &[(1, 0, 8), (2, 0, 12), (3, 0, 14)],
    },
    // a rider's mark is the lead's too
    Row {
        lines: "a 0 8 n 1\na 0 8 n 1\ngc 1\nm 1 1\n",
        answers: &[FIRST, ANY],
        sizes: &[16, 0],
        marks: &[Span { lo: 0, hi: 1 }],
        based: &[FIRST, Zero],
        riders: &[(1, 0, 8)],
    },
    // there are gaps between the spans of marks
    Row {
        lines: "a 0 8 n 1\na 0 16 n 1\na 0 8 n 1\na 0 16 n 1\na 0 16 n 1\ngc 1\nm 2 2\nm 3 3\n",
        answers: &[FIRST, SECOND, ANY, THIRD, THIRD],
        sizes: &[16, 16, 0, 16, 16],
        marks: &[Span { lo: 0, hi: 0 }, Span { lo: 2, hi: 3 }],
        based: &[FIRST, SECOND, Zero, THIRD, THIRD],
        riders: &[(2, 0, 8)],
    },
    // a rider that no mark end marks leaves its lead to its own mark
    Row {
        lines: "a 0 8 n 1\na 0 8 n 1\ngc 1\nm 0 0\na 0 8 n 1\ngc 1\n",
        answers: &[FIRST, ANY, SECOND],
        sizes: &[16, 0, 16],
        marks: &[Span { lo: 0, hi: 0 }],
        based: &[FIRST, Zero, SECOND],
        riders: &[(1, 0, 8)],
    },
    // a rider that lives on keeps its block at each mark end
    Row {
        lines: "a 0 8 n 1\na 0 4 n 1\na 0 4 n 1\ngc 1\nm 1 2\na 0 8 n 1\ngc 1\nm 2 2\n",
        answers: &[FIRST, ANY, ANY, SECOND],
        sizes: &[16, 0, 0, 16],
        marks: &[
            Span { lo: 0, hi: 2 },
            Span { lo: 0, hi: 0 },
            Span { lo: 2, hi: 2 },
        ],
        based: &[FIRST, Zero, Zero, SECOND],
        riders: &[(1, 0, 8), (2, 0, 12)],
    },
    // nothing rides behind a lead without room, nor in a block with less room than the current one
    Row {
        lines: "a 0 8 n 1\na 0 8 n 1\na 0 15 n 1\na 0 1 n 1\na 0 8 n 1\na 0 8 n 1\n",
        answers: &[Missed(0), FIRST, SECOND, ANY, Missed(1), Missed(2)],
        sizes: &[16, 16, 16, 0, 16, 16],
        marks: &[],
        based: &[Missed(0), FIRST, SECOND, Zero, Missed(1), Missed(2)],
        riders: &[(3, 1, 8)],
    },
    // each processor has a block of its own
    Row {
        lines: "a 0 8 n 1\na 1 4 n 1\na 0 8 n 1\na 1 4 n 1\n",
        answers: &[FIRST, SECOND, ANY, ANY],
        sizes: &[16, 16, 0, 0],
        marks: &[],
        based: &[FIRST, SECOND, Zero, Zero],
        riders: &[(2, 0, 8), (3, 1, 4)],
    },
    // objects of no size, of 16 bytes, and with pointers stay as they are
    Row {
        lines: "a 0 0 n 1\na 0 16 n 1\na 0 8 s 1\na 0 8 n 1\na 0 8 n 1\n",
        answers: &[Zero, FIRST, ANY, SECOND, ANY],
        sizes: &[0, 16, 8, 16, 0],
        marks: &[],
        based: &[Zero, FIRST, ANY, SECOND, Zero],
        riders: &[(4, 3, 8)],
    },
];
