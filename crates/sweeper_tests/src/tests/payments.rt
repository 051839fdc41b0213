//! Payments: the swept pages and the target that each reaches.

use super::after_mark_end;
use super::calls::{Answer, Call, try_rows};
use fallible_list::NoMemory;
use std::process::Abort;
use std::sync::Wait;
use std::test::Fail;

// The spans of each payment.
const PAID: [(u32, bool); 4] = [(5, false), (6, false), (7, true), (8, false)];

// A payment: the pages that were to be swept, the distance, the bytes that were spent before, the bytes and the credit; and the
// swept pages and the target, or none where nothing was left.
type Payment = (u32, u64, u64, u64, u32, Option<(u64, u64)>);

// No number is above it.
const MOST: u64 = u64::MAX;

// In a new scene of spans of 5, 6, 7 and 8 pages, which are swept in this order, the swept pages are 5, 11, 18 and 26. The target is
// pages * (bytes + spent) / distance - credit. The distance of the first rows is 26 pages, so each page's bytes are paid by one page.
const PAYMENTS: [Payment; 23] = [
    (26, 212_992, 0, 0, 0, Some((0, 0))),
    // 26 * 8191 / 212992 is below 1
    (26, 212_992, 0, 8191, 0, Some((0, 0))),
    (26, 212_992, 0, 8192, 0, Some((5, 1))),
    (26, 212_992, 0, 40_960, 0, Some((5, 5))),
    (26, 212_992, 0, 49_151, 0, Some((5, 5))),
    (26, 212_992, 0, 49_152, 0, Some((11, 6))),
    // bytes that were spent before count too: 5 + 1 pages, and 11 + 0
    (26, 212_992, 40_960, 8192, 0, Some((11, 6))),
    (26, 212_992, 90_112, 0, 0, Some((11, 11))),
    // a credit lowers the target, to 0 at least: 11 - 6, 6 + 12 - 7, 6 - 6 and 6 - 4294967295
    (26, 212_992, 0, 90_112, 6, Some((5, 5))),
    (26, 212_992, 49_152, 98_304, 7, Some((11, 11))),
    (26, 212_992, 0, 49_152, 6, Some((0, 0))),
    (26, 212_992, 0, 49_152, u32::MAX, Some((0, 0))),
    // all, and more than all: 26, and 26 + 1
    (26, 212_992, 0, 212_992, 0, Some((26, 26))),
    (26, 212_992, 8192, 212_992, 0, None),
    // the least distance, in which 1 page is due, or 26: 26 * 8507 is 221182 and 26 * 8508 is 221208, and 27 * 8192 is 221184
    (1, 8192, 0, 8192, 0, Some((5, 1))),
    (26, 8192, 0, 8192, 0, Some((26, 26))),
    (26, 8192, 0, 8507, 0, Some((26, 26))),
    (26, 8192, 0, 8508, 0, None),
    // no pages were to be swept
    (0, 8192, MOST, MOST, 0, Some((0, 0))),
    // the largest numbers: 26 times 1, a little less than that, 26 times 2 less 26, and a target that no region has
    (26, MOST, 0, MOST, 0, Some((26, 26))),
    (26, MOST, 0, MOST - 1, 0, Some((26, 25))),
    (26, MOST, MOST, MOST, 26, Some((26, 26))),
    (u32::MAX, 8192, MOST, MOST, u32::MAX, None),
];

// A payment in a new scene whose third span lives on.
fn try_payment<R: Abort + AllocGlobal + Print + Wait>(
    rt: &R,
    row: &Payment,
) -> Result<(), NoMemory> {
    let wanted = match row.5 {
        Some((seen, target)) => Answer::Reached(seen, target),
        None => Answer::NothingLeft,
    };
    let calls = [
        (Call::Spend(row.2), Answer::Done),
        (Call::Pay(row.0, row.1, row.3, row.4), wanted),
    ];
    let mut scene = after_mark_end(rt, 1, &PAID)?;
    try_rows(rt, &mut scene, 1, &PAID, &calls)
}

#[test]
fn payments_reach_their_targets(rt: HostRuntime) -> Result<(), Fail> {
    for row in &PAYMENTS {
        try_payment(&rt, row)?;
    }
    Ok(())
}
