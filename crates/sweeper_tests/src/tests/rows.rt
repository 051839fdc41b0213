//! Calls in a first cycle and behind a mark end, with what each answers.

use super::calls::{Answer, Call};

// Calls in a first cycle, in which no span waits.
pub(crate) const FIRST: [&[(Call, Answer)]; 3] = [
    // nothing is swept, paid, reclaimed
    &[
        (Call::Sweep, Answer::NothingLeft),
        (Call::Spend(1 << 40), Answer::Done),
        (Call::Pay(512, 8192, u64::MAX, 0), Answer::Reached(0, 0)),
        (Call::Reclaim(1), Answer::Many(0)),
        (Call::Finish, Answer::Done),
        (Call::Notes, Answer::Many(0)),
        (Call::Taken, Answer::Many(0)),
        (Call::Counters, Answer::Counts(4, 0, 1 << 40)),
    ],
    // spans are made at first fit until none fits: of 512 pages 5 are left, then none. Each span and each miss has a line, from 0 on
    &[
        (Call::Make(507), Answer::Page(0)),
        (Call::Make(6), Answer::NoRun(1)),
        (Call::Make(5), Answer::Page(507)),
        (Call::Taken, Answer::Many(512)),
        (Call::Make(5), Answer::NoRun(3)),
        (Call::Notes, Answer::Many(0)),
    ],
    // at generation 4 a made span's first page has the word 4, its other pages and free ones have 0; no set was pushed to
    &[
        (Call::Meet(0), Answer::Word(0, 0)),
        (Call::Make(5), Answer::Page(0)),
        (Call::Meet(0), Answer::Word(0, 4)),
        (Call::Meet(1), Answer::Word(1, 0)),
        (Call::Meet(511), Answer::Word(511, 0)),
        (Call::Pop, Answer::Empty(0, 0)),
    ],
];

// Calls behind a mark end, with the chunks of the region, and its large spans by their pages and whether their object lives on.
pub(crate) struct Case {
    pub(crate) chunks: u32,
    pub(crate) spans: &'static [(u32, bool)],
    pub(crate) calls: &'static [(Call, Answer)],
}

pub(crate) const CASES: [Case; 21] = [
    // a mark end raises the generation by 2, and the counters begin anew: before it 100 pages were swept, 2^20 bytes spent, and a chunk claimed
    Case {
        chunks: 1,
        spans: &[(5, true), (6, false)],
        calls: &[
            (Call::Counters, Answer::Counts(6, 0, 0)),
            (Call::Spend(8192), Answer::Done),
            (Call::Sweep, Answer::Swept(0, 1, 0)),
            (Call::Counters, Answer::Counts(6, 5, 8192)),
            (Call::Reclaim(1), Answer::Many(6)),
            (Call::Counters, Answer::Counts(6, 11, 8192)),
            (Call::Spend(u64::MAX), Answer::Done),
            (Call::Counters, Answer::Counts(6, 11, 8191)),
        ],
    },
    // each span is swept once, in the order in which they were placed; those of a dead object go back: 5 + 7 of 23 pages
    Case {
        chunks: 1,
        spans: &[(5, false), (6, true), (7, false), (5, true)],
        calls: &[
            (Call::Taken, Answer::Many(23)),
            (Call::Sweep, Answer::Swept(0, 0, 1)),
            (Call::Taken, Answer::Many(18)),
            (Call::Sweep, Answer::Swept(5, 1, 0)),
            (Call::Taken, Answer::Many(18)),
            (Call::Sweep, Answer::Swept(11, 0, 1)),
            (Call::Sweep, Answer::Swept(18, 1, 0)),
            (Call::Taken, Answer::Many(11)),
            (Call::Sweep, Answer::NothingLeft),
            (Call::Notes, Answer::Many(4)),
        ],
    },
    // nothing waits where no span was made
    Case {
        chunks: 1,
        spans: &[],
        calls: &[
            (Call::Sweep, Answer::NothingLeft),
            (Call::Finish, Answer::Done),
            (Call::Pay(0, 8192, 0, 0), Answer::Reached(0, 0)),
            (Call::Pay(26, 8192, 8192, 0), Answer::NothingLeft),
            (Call::Reclaim(1), Answer::Many(0)),
            (Call::Notes, Answer::Many(0)),
        ],
    },
    // at generation 6 a swept span has the word 6, one that went back 0, and a new one 6; their entries still wait in the set, and are
    // dropped one by one
    Case {
        chunks: 1,
        spans: &[(5, false), (6, true)],
        calls: &[
            (Call::Meet(1), Answer::Word(1, 0)),
            (Call::Meet(511), Answer::Word(511, 0)),
            (Call::Meet(0), Answer::Swept(0, 0, 1)),
            (Call::Meet(0), Answer::Word(0, 0)),
            (Call::Meet(5), Answer::Swept(5, 1, 0)),
            (Call::Meet(5), Answer::Word(5, 6)),
            (Call::Make(5), Answer::Page(0)),
            (Call::Pop, Answer::Word(0, 6)),
            (Call::Pop, Answer::Word(5, 6)),
            (Call::Pop, Answer::Empty(2, 2)),
            (Call::Notes, Answer::Many(2)),
        ],
    },
    // an entry of a span that went back names a free page
    Case {
        chunks: 1,
        spans: &[(5, false)],
        calls: &[
            (Call::Reclaim(1), Answer::Many(5)),
            (Call::Pop, Answer::Word(0, 0)),
            (Call::Pop, Answer::Empty(1, 1)),
        ],
    },
    // entries are popped in the order in which they were pushed
    Case {
        chunks: 1,
        spans: &[(5, true), (6, false)],
        calls: &[
            (Call::Pop, Answer::Swept(0, 1, 0)),
            (Call::Pop, Answer::Swept(5, 0, 1)),
            (Call::Pop, Answer::Empty(2, 2)),
            (Call::Sweep, Answer::NothingLeft),
        ],
    },
    // the goal is 8 backed pages. Taken pages are backed, and free ones that were taken before; where more are backed than the goal, the
    // highest free ones are released
    Case {
        chunks: 1,
        spans: &[(5, false), (6, true)],
        calls: &[
            (Call::Scavenge, Answer::Backed(11)),
            (Call::Sweep, Answer::Swept(0, 0, 1)),
            (Call::Scavenge, Answer::Released(0, 5, 6)),
            (Call::Scavenge, Answer::Backed(6)),
        ],
    },
    // at most 64 pages a step: 36 to 99 of 100, and then 0 to 35
    Case {
        chunks: 1,
        spans: &[(100, false), (5, true)],
        calls: &[
            (Call::Sweep, Answer::Swept(0, 0, 1)),
            (Call::Scavenge, Answer::Released(36, 64, 41)),
            (Call::Scavenge, Answer::Released(0, 36, 5)),
            (Call::Scavenge, Answer::Backed(5)),
        ],
    },
    // no more are backed than the goal
    Case {
        chunks: 1,
        spans: &[(8, false)],
        calls: &[
            (Call::Sweep, Answer::Swept(0, 0, 1)),
            (Call::Scavenge, Answer::Backed(8)),
            (Call::Taken, Answer::Many(0)),
        ],
    },
    // a finish sweeps all that is left, here the last three; then payments find nothing left, whatever their target
    Case {
        chunks: 1,
        spans: &[(5, true), (6, false), (7, true), (8, false)],
        calls: &[
            (Call::Sweep, Answer::Swept(0, 1, 0)),
            (Call::Finish, Answer::Done),
            (Call::Notes, Answer::Many(4)),
            (Call::Taken, Answer::Many(12)),
            (Call::Sweep, Answer::NothingLeft),
            (Call::Pay(26, 8192, 8192, 0), Answer::Reached(26, 26)),
            (Call::Pay(27, 8192, 8192, 0), Answer::NothingLeft),
            (Call::Finish, Answer::Done),
            (Call::Notes, Answer::Many(4)),
        ],
    },
    // payments count what was swept before them, by whom and for what it was
    Case {
        chunks: 1,
        spans: &[(5, false), (6, true), (7, true), (8, false)],
        calls: &[
            (Call::Reclaim(5), Answer::Many(13)),
            (Call::Pay(26, 212_992, 106_496, 0), Answer::Reached(13, 13)),
            (Call::Pay(26, 212_992, 114_688, 0), Answer::Reached(19, 14)),
            (Call::Notes, Answer::Many(3)),
            (Call::Sweep, Answer::Swept(11, 1, 0)),
        ],
    },
    // a reclaim leaves the spans with a marked object alone
    Case {
        chunks: 1,
        spans: &[(5, true), (5, false), (6, true), (7, false)],
        calls: &[
            (Call::Reclaim(512), Answer::Many(12)),
            (Call::Notes, Answer::Many(2)),
            (Call::Sweep, Answer::Swept(0, 1, 0)),
            (Call::Sweep, Answer::Swept(10, 1, 0)),
            (Call::Sweep, Answer::NothingLeft),
        ],
    },
    // dead samples are counted by the sweep of their span: two of one span and bucket, one of each bucket in the next, none in the
    // last. A mark end publishes what was swept before it
    Case {
        chunks: 1,
        spans: &[(5, true), (6, false), (7, false)],
        calls: &[
            (Call::Die(0, 0), Answer::Done),
            (Call::Die(5, 0), Answer::Done),
            (Call::Die(0, 0), Answer::Done),
            (Call::Die(5, 1), Answer::Done),
            (Call::Sweep, Answer::Swept(0, 1, 0)),
            (Call::Sampled(0), Answer::Samples(0, 2)),
            (Call::Sampled(1), Answer::Samples(0, 0)),
            (Call::Sweep, Answer::Swept(5, 0, 1)),
            (Call::Sweep, Answer::Swept(11, 0, 1)),
            (Call::Turned(0), Answer::Samples(0, 3)),
            (Call::Sampled(1), Answer::Samples(0, 1)),
        ],
    },
    // a new span's own pages are reclaimed first, and no more are swept where they are found: the first fit is at 5
    Case {
        chunks: 1,
        spans: &[(5, true), (6, false), (501, true)],
        calls: &[
            (Call::Make(6), Answer::Page(5)),
            (Call::Notes, Answer::Many(1)),
            (Call::Taken, Answer::Many(512)),
            (Call::Sweep, Answer::Swept(0, 1, 0)),
            (Call::Sweep, Answer::Swept(11, 1, 0)),
        ],
    },
    // where what is reclaimed is no run, all that is left is swept, and the run is taken then: the first chunk gives back 10 pages, of
    // which 5 are at its start and 5 at its end; the second is not claimed, and its one span is free after the full sweep, so the least run of 10 begins with the
    // last 5 pages of the first
    Case {
        chunks: 2,
        spans: &[(5, false), (502, true), (5, false), (512, false)],
        calls: &[
            (Call::Make(10), Answer::Page(507)),
            (Call::Notes, Answer::Many(4)),
            (Call::Sweep, Answer::NothingLeft),
            (Call::Taken, Answer::Many(512)),
        ],
    },
    // a miss comes after the full sweep: the lines of two spans and of one that went back stand before it
    Case {
        chunks: 1,
        spans: &[(5, false), (507, true)],
        calls: &[
            (Call::Make(6), Answer::NoRun(3)),
            (Call::Notes, Answer::Many(2)),
            (Call::Sweep, Answer::NothingLeft),
            (Call::Make(5), Answer::Page(0)),
            (Call::Make(5), Answer::NoRun(5)),
        ],
    },
    // of nine spans that wait a payment sweeps five, and a finish the others
    Case {
        chunks: 1,
        spans: &[
            (5, true),
            (5, false),
            (6, true),
            (5, true),
            (7, false),
            (5, true),
            (5, false),
            (6, true),
            (5, true),
        ],
        calls: &[
            // the target is 26 * 8192 / 8192, and the first five spans have 5 + 5 + 6 + 5 + 7 pages
            (Call::Pay(26, 8192, 8192, 0), Answer::Reached(28, 26)),
            (Call::Notes, Answer::Many(5)),
            (Call::Finish, Answer::Done),
            (Call::Notes, Answer::Many(9)),
            // 49 pages, of which 17 went back
            (Call::Taken, Answer::Many(32)),
        ],
    },
    // nine sweeps one by one
    Case {
        chunks: 1,
        spans: &[
            (5, true),
            (5, false),
            (5, true),
            (5, false),
            (5, true),
            (5, false),
            (5, true),
            (5, false),
            (5, true),
        ],
        calls: &[
            (Call::Sweep, Answer::Swept(0, 1, 0)),
            (Call::Sweep, Answer::Swept(5, 0, 1)),
            (Call::Sweep, Answer::Swept(10, 1, 0)),
            (Call::Sweep, Answer::Swept(15, 0, 1)),
            (Call::Sweep, Answer::Swept(20, 1, 0)),
            (Call::Sweep, Answer::Swept(25, 0, 1)),
            (Call::Sweep, Answer::Swept(30, 1, 0)),
            (Call::Sweep, Answer::Swept(35, 0, 1)),
            (Call::Sweep, Answer::Swept(40, 1, 0)),
            (Call::Sweep, Answer::NothingLeft),
            (Call::Taken, Answer::Many(25)),
        ],
    },
    // a reclaim sweeps nine of ten
    Case {
        chunks: 1,
        spans: &[
            (5, false),
            (5, false),
            (5, false),
            (5, false),
            (5, true),
            (5, false),
            (5, false),
            (5, false),
            (5, false),
            (5, false),
        ],
        calls: &[
            (Call::Reclaim(512), Answer::Many(45)),
            (Call::Notes, Answer::Many(9)),
            (Call::Sweep, Answer::Swept(20, 1, 0)),
            (Call::Taken, Answer::Many(5)),
        ],
    },
    // a new span needs the pages of the nine spans before it, which are reclaimed for it
    Case {
        chunks: 1,
        spans: &[
            (5, false),
            (5, false),
            (5, false),
            (5, false),
            (5, false),
            (5, false),
            (5, false),
            (5, false),
            (5, false),
            (467, true),
        ],
        calls: &[
            (Call::Make(45), Answer::Page(0)),
            (Call::Notes, Answer::Many(9)),
            (Call::Taken, Answer::Many(512)),
            (Call::Sweep, Answer::Swept(45, 1, 0)),
        ],
    },
    // where all spans live on, a new one finds no page behind a full sweep: the lines of six spans stand before the miss
    Case {
        chunks: 1,
        spans: &[
            (5, true),
            (5, true),
            (5, true),
            (5, true),
            (5, true),
            (487, true),
        ],
        calls: &[
            (Call::Make(5), Answer::NoRun(6)),
            (Call::Notes, Answer::Many(6)),
            (Call::Sweep, Answer::NothingLeft),
            (Call::Taken, Answer::Many(512)),
        ],
    },
];
