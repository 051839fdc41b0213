//! Reclaims: how many pages each gives back, chunk by chunk.

use super::after_mark_end;
use super::calls::{Answer, Call, try_rows};
use fallible_list::NoMemory;
use std::process::Abort;
use std::sync::Wait;
use std::test::Fail;

// What three reclaims are asked for, and what they give back. A new scene's spans are of 5 pages from page 0 on, 507 from page 5, 10
// from page 512, 10 from page 522, and 20 from page 532 on; the second and the fourth live on. So the first chunk has 5 pages to give
// back and the second 30.
const RECLAIMS: [([u32; 3], [u32; 3]); 7] = [
    // as many as the first chunk gives back, or less: the second chunk is left for the next call
    ([5, 30, 1], [5, 30, 0]),
    ([1, 1, 1], [5, 30, 0]),
    // one more: the second chunk is swept whole
    ([6, 1, 1], [35, 0, 0]),
    // fewer are there than were asked for
    ([36, 1, 0], [35, 0, 0]),
    ([5, 31, 1], [5, 30, 0]),
    ([u32::MAX, 1, 1], [35, 0, 0]),
    // nothing was asked for
    ([0, 5, 0], [0, 5, 0]),
];

// The spans of each reclaim.
const RECLAIMED: [(u32, bool); 5] = [
    (5, false),
    (507, true),
    (10, false),
    (10, true),
    (20, false),
];

fn try_reclaims<R: Abort + AllocGlobal + Print + Wait>(
    rt: &R,
    asked: [u32; 3],
    given: [u32; 3],
) -> Result<(), NoMemory> {
    let calls = [
        (Call::Reclaim(asked[0]), Answer::Many(u64::from(given[0]))),
        (Call::Reclaim(asked[1]), Answer::Many(u64::from(given[1]))),
        (Call::Reclaim(asked[2]), Answer::Many(u64::from(given[2]))),
    ];
    let mut scene = after_mark_end(rt, 2, &RECLAIMED)?;
    try_rows(rt, &mut scene, 2, &RECLAIMED, &calls)
}

#[test]
fn reclaims_give_back_by_chunks(rt: HostRuntime) -> Result<(), Fail> {
    for (asked, given) in &RECLAIMS {
        try_reclaims(&rt, *asked, *given)?;
    }
    Ok(())
}
