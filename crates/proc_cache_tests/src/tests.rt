use crate::Scene;
use fallible_list::NoMemory;
use proc_cache::{Placed, Refused};
use std::process::Abort;
use std::sync::Wait;
use std::test::Fail;

// A call on a scene.
#[derive(Clone, Copy)]
enum Call {
    // A small object of so many bytes, with or without pointers, of the bucket.
    Small(u64, bool, u32),
    // A large object of so many pages, of the bucket.
    Large(u32, u32),
    // A sampled object of the bucket died in the span of the page.
    Die(u32, u32),
    // A mark end, at which the objects of the case live.
    MarkEnd,
    // So many pages are to be swept for each 8192 bytes.
    Pace(u32),
    // How many sweeps there were.
    Sweeps,
    // The sweep of this number, from 0 on.
    Sweep(usize),
    // What is published of the bucket.
    Published(u32),
}

// What a call answers.
#[derive(Clone, Copy, Debug, PartialEq, Eq)]
enum Answer {
    // Nothing.
    Done,
    // An object was placed at so many bytes of the page, and is no sample.
    At(u64, u64),
    // It is one.
    Sampled(u64, u64),
    // The number of the line that says that no run is free.
    NoRun(u64),
    // So many sweeps.
    Many(usize),
    // The cycle, the page, the kept and the freed objects of a sweep.
    Swept(u32, u32, u32, u32),
    // No sweep has this number.
    NoSweep,
    // So many allocations and frees.
    Counts(u64, u64),
}

// The address at which the region begins.
const BASE: u64 = 0xc000000000;

fn placed(found: Result<Placed, Refused>) -> Result<Answer, NoMemory> {
    match found {
        Ok(Placed { addr, sampled }) => {
            let offset = addr.wrapping_sub(BASE);
            if sampled {
                return Ok(Answer::Sampled(offset / 8192, offset % 8192));
            }
            Ok(Answer::At(offset / 8192, offset % 8192))
        }
        Err(Refused::NoRun { line }) => Ok(Answer::NoRun(line)),
        Err(Refused::NoMemory) => Err(NoMemory),
    }
}

fn make<R: Wait>(
    rt: &R,
    scene: &mut Scene,
    live: &[(u32, u32)],
    call: Call,
) -> Result<Answer, NoMemory> {
    match call {
        Call::Small(size, scan, bucket) => placed(scene.small(rt, size, scan, bucket)),
        Call::Large(pages, bucket) => placed(scene.large(rt, pages, bucket)),
        Call::Die(page, bucket) => {
            scene.die(page, bucket)?;
            Ok(Answer::Done)
        }
        Call::MarkEnd => {
            scene.mark_end(rt, live)?;
            Ok(Answer::Done)
        }
        Call::Pace(pages) => {
            scene.pace(pages);
            Ok(Answer::Done)
        }
        Call::Sweeps => Ok(Answer::Many(scene.sweeps().len())),
        Call::Sweep(number) => match scene.sweeps().get(number) {
            Some(note) => Ok(Answer::Swept(note.cycle, note.page, note.kept, note.freed)),
            None => Ok(Answer::NoSweep),
        },
        Call::Published(bucket) => {
            let count = scene.published(bucket);
            Ok(Answer::Counts(count.allocs, count.frees))
        }
    }
}

// Makes a call that found no memory once more, and says so.
fn make_again<R: Print + Wait>(
    rt: &R,
    scene: &mut Scene,
    live: &[(u32, u32)],
    call: Call,
) -> Result<Answer, NoMemory> {
    let Ok(()) = println!(rt; "again") else {
        return Err(NoMemory);
    };
    make(rt, scene, live, call)
}

// The calls answer as they should. One that finds no memory is made again, and answers then as it would have.
fn try_rows<R: Abort + Print + Wait>(
    rt: &R,
    scene: &mut Scene,
    live: &[(u32, u32)],
    rows: &[(Call, Answer)],
) -> Result<(), NoMemory> {
    for (made, wanted) in rows {
        let found = match make(rt, scene, live, *made) {
            Ok(found) => found,
            Err(NoMemory) => make_again(rt, scene, live, *made)?,
        };
        assert_eq!(rt; found, *wanted);
    }
    Ok(())
}

// Calls at a rate, with the objects that live on at each mark end, by the page of the span and the index.
struct Case {
    rate: u64,
    live: &'static [(u32, u32)],
    calls: &'static [(Call, Answer)],
}

// Calls in a first cycle.
const FIRST: [Case; 4] = [
    // each class, with and without pointers, has a span of its own, at first fit
    Case {
        rate: 0,
        live: &[],
        calls: &[
            // 8 bytes, 1024 a page
            (Call::Small(8, true, 0), Answer::At(0, 0)),
            (Call::Small(7, true, 0), Answer::At(0, 8)),
            (Call::Small(8, false, 0), Answer::At(1, 0)),
            (Call::Small(1, true, 0), Answer::At(0, 16)),
            // 16 bytes
            (Call::Small(9, true, 0), Answer::At(2, 0)),
            (Call::Small(16, true, 0), Answer::At(2, 16)),
            // 1024 and 1152 bytes
            (Call::Small(1024, true, 0), Answer::At(3, 0)),
            (Call::Small(1025, true, 0), Answer::At(4, 0)),
            (Call::Small(1152, true, 0), Answer::At(4, 1152)),
            // 2304 bytes on 2 pages, 3072 bytes on 3
            (Call::Small(2049, true, 0), Answer::At(5, 0)),
            (Call::Small(2304, true, 0), Answer::At(5, 2304)),
            (Call::Small(3072, false, 0), Answer::At(7, 0)),
            (Call::Small(2689, false, 0), Answer::At(7, 3072)),
            // the spans of before are cached still
            (Call::Small(5, false, 0), Answer::At(1, 8)),
            (Call::Small(2, true, 0), Answer::At(0, 24)),
        ],
    },
    // a span that is full is followed by another
    Case {
        rate: 0,
        live: &[],
        calls: &[
            // 4096 bytes, two a page
            (Call::Small(4096, true, 0), Answer::At(0, 0)),
            (Call::Small(3457, true, 0), Answer::At(0, 4096)),
            (Call::Small(4096, true, 0), Answer::At(1, 0)),
            // 8192 bytes, one a page
            (Call::Small(8192, true, 0), Answer::At(2, 0)),
            (Call::Small(8192, true, 0), Answer::At(3, 0)),
            // 28672 bytes, two on 7 pages, of which the second begins in the middle of the fourth; 32768 bytes, one on 4
            (Call::Small(28672, true, 0), Answer::At(4, 0)),
            (Call::Small(32768, true, 0), Answer::At(11, 0)),
            (Call::Small(28673, true, 0), Answer::At(15, 0)),
            (Call::Small(28672, true, 0), Answer::At(7, 4096)),
            (Call::Small(27265, true, 0), Answer::At(19, 0)),
            // a span that is not full is cached still
            (Call::Small(4096, true, 0), Answer::At(1, 4096)),
        ],
    },
    // large objects stand beside small ones, and both are refused where no run is free
    Case {
        rate: 0,
        live: &[],
        calls: &[
            (Call::Small(8, true, 0), Answer::At(0, 0)),
            (Call::Small(1024, true, 0), Answer::At(1, 0)),
            (Call::Large(5, 0), Answer::At(2, 0)),
            (Call::Small(1, true, 0), Answer::At(0, 8)),
            (Call::Large(505, 0), Answer::At(7, 0)),
            // no page is free, behind four lines of the journal
            (Call::Small(16, true, 1), Answer::NoRun(4)),
            (Call::Large(6, 1), Answer::NoRun(5)),
            (Call::Small(16, true, 1), Answer::NoRun(6)),
            // the cached spans stay
            (Call::Small(8, true, 0), Answer::At(0, 16)),
            (Call::Small(1000, true, 0), Answer::At(1, 1024)),
        ],
    },
    // the ends of the sizes
    Case {
        rate: 0,
        live: &[],
        calls: &[
            (Call::Small(1, false, 0), Answer::At(0, 0)),
            (Call::Small(32768, false, 0), Answer::At(1, 0)),
            (Call::Large(512, 1), Answer::NoRun(2)),
            (Call::Large(507, 0), Answer::At(5, 0)),
        ],
    },
];

// Calls over mark ends.
const TURNS: [Case; 6] = [
    // the first event behind a mark end sweeps the cached spans, which are stale: what they had is gone, and so are they, before the object is placed
    Case {
        rate: 0,
        live: &[],
        calls: &[
            (Call::Small(1024, true, 0), Answer::At(0, 0)),
            (Call::Small(8, true, 0), Answer::At(1, 0)),
            (Call::Small(8, true, 0), Answer::At(1, 8)),
            (Call::MarkEnd, Answer::Done),
            (Call::Sweeps, Answer::Many(0)),
            // of another class: the flush goes through the classes in rising order
            (Call::Small(16, true, 0), Answer::At(0, 0)),
            (Call::Sweeps, Answer::Many(2)),
            (Call::Sweep(0), Answer::Swept(1, 1, 0, 2)),
            (Call::Sweep(1), Answer::Swept(1, 0, 0, 1)),
            // later events flush no more
            (Call::Small(8, true, 0), Answer::At(1, 0)),
            (Call::Small(16, true, 0), Answer::At(0, 16)),
            (Call::Sweeps, Answer::Many(2)),
        ],
    },
    // a large event flushes too, and does so before it looks for its run
    Case {
        rate: 0,
        live: &[],
        calls: &[
            (Call::Small(8, true, 0), Answer::At(0, 0)),
            (Call::Large(5, 0), Answer::At(1, 0)),
            (Call::MarkEnd, Answer::Done),
            // the large span that died goes too, since the reclaimer looks for 512 pages
            (Call::Large(512, 0), Answer::At(0, 0)),
            (Call::Sweeps, Answer::Many(2)),
            (Call::Sweep(0), Answer::Swept(1, 0, 0, 1)),
            (Call::Sweep(1), Answer::Swept(1, 1, 0, 1)),
        ],
    },
    // a processor without an event in a cycle has its spans swept as the cycle ends
    Case {
        rate: 0,
        live: &[],
        calls: &[
            (Call::Small(8, true, 0), Answer::At(0, 0)),
            (Call::MarkEnd, Answer::Done),
            (Call::MarkEnd, Answer::Done),
            (Call::Sweeps, Answer::Many(1)),
            (Call::Sweep(0), Answer::Swept(1, 0, 0, 1)),
            (Call::Small(8, true, 0), Answer::At(0, 0)),
            (Call::Small(8, true, 0), Answer::At(0, 8)),
        ],
    },
    // a stale span of which an object lives on is swept, and found again with room: its free indices are filled in rising order, past
    // the object
    Case {
        rate: 0,
        live: &[(0, 1), (0, 2)],
        calls: &[
            (Call::Small(2048, true, 0), Answer::At(0, 0)),
            (Call::Small(2048, true, 0), Answer::At(0, 2048)),
            (Call::Small(2048, true, 0), Answer::At(0, 4096)),
            (Call::Small(2048, true, 0), Answer::At(0, 6144)),
            (Call::Small(1792, false, 0), Answer::At(1, 0)),
            (Call::MarkEnd, Answer::Done),
            (Call::Small(2048, true, 0), Answer::At(0, 0)),
            (Call::Sweeps, Answer::Many(2)),
            (Call::Sweep(0), Answer::Swept(1, 1, 0, 1)),
            (Call::Sweep(1), Answer::Swept(1, 0, 2, 2)),
            (Call::Small(2048, true, 0), Answer::At(0, 6144)),
            // it is full now
            (Call::Small(2048, true, 0), Answer::At(1, 0)),
            (Call::Small(2048, true, 0), Answer::At(1, 2048)),
        ],
    },
    // a span that is full as a mark end comes waits for its sweep, and the one that is cached goes first
    Case {
        rate: 0,
        live: &[(0, 0), (0, 1), (1, 1), (2, 0)],
        calls: &[
            (Call::Small(4096, false, 0), Answer::At(0, 0)),
            (Call::Small(4096, false, 0), Answer::At(0, 4096)),
            (Call::Small(4096, false, 0), Answer::At(1, 0)),
            (Call::Small(4096, false, 0), Answer::At(1, 4096)),
            (Call::Small(4096, false, 0), Answer::At(2, 0)),
            (Call::MarkEnd, Answer::Done),
            // the cached span has room behind its flush
            (Call::Small(4096, false, 0), Answer::At(2, 4096)),
            (Call::Sweeps, Answer::Many(1)),
            (Call::Sweep(0), Answer::Swept(1, 2, 1, 0)),
            // then the first that waits is swept, and stays full; the second has room
            (Call::Small(4096, false, 0), Answer::At(1, 0)),
            (Call::Sweeps, Answer::Many(3)),
            (Call::Small(4096, false, 0), Answer::At(3, 0)),
        ],
    },
    // where a cycle has to sweep a page for each 8192 bytes, an allocation sweeps spans of other classes as well
    Case {
        rate: 0,
        live: &[(0, 0), (1, 0), (2, 0)],
        calls: &[
            // one object a span: pages 0 and 1 wait, and page 2 is cached
            (Call::Small(8192, true, 0), Answer::At(0, 0)),
            (Call::Small(8192, true, 0), Answer::At(1, 0)),
            (Call::Small(8192, true, 0), Answer::At(2, 0)),
            (Call::MarkEnd, Answer::Done),
            (Call::Pace(2), Answer::Done),
            // the flush of page 2 is a page of the two that 8192 bytes are to pay by
            (Call::Small(16, true, 0), Answer::At(3, 0)),
            (Call::Sweeps, Answer::Many(2)),
            (Call::Sweep(0), Answer::Swept(1, 2, 1, 0)),
            (Call::Sweep(1), Answer::Swept(1, 0, 1, 0)),
            // behind 8192 bytes, five pages of 8192 bytes each are to pay by twelve, less the five that are asked for; one waits
            (Call::Large(5, 0), Answer::At(4, 0)),
            (Call::Sweeps, Answer::Many(3)),
        ],
    },
];

// Calls of which some are sampled.
const SAMPLES: [Case; 3] = [
    // at rate 1 each placed object is sampled, and a refused one is not counted
    Case {
        rate: 1,
        live: &[],
        calls: &[
            (Call::Small(8, true, 0), Answer::Sampled(0, 0)),
            (Call::Small(7, true, 0), Answer::Sampled(0, 8)),
            (Call::Large(511, 1), Answer::Sampled(1, 0)),
            (Call::Small(16, true, 1), Answer::NoRun(2)),
            (Call::Large(6, 1), Answer::NoRun(3)),
            (Call::Small(8, true, 0), Answer::Sampled(0, 16)),
            (Call::MarkEnd, Answer::Done),
            (Call::Published(0), Answer::Counts(3, 0)),
            (Call::Published(1), Answer::Counts(1, 0)),
        ],
    },
    // a refill that sweeps the dead span of a sampled object, and then places another in it, counts one free and one allocation
    Case {
        rate: 1,
        live: &[],
        calls: &[
            // one object a span: the first is full as the second comes
            (Call::Small(8192, true, 1), Answer::Sampled(0, 0)),
            (Call::Small(8192, true, 0), Answer::Sampled(1, 0)),
            (Call::MarkEnd, Answer::Done),
            (Call::Die(0, 1), Answer::Done),
            (Call::Small(8192, true, 0), Answer::Sampled(0, 0)),
            (Call::Sweeps, Answer::Many(2)),
            (Call::Sweep(0), Answer::Swept(1, 1, 0, 1)),
            (Call::Sweep(1), Answer::Swept(1, 0, 0, 1)),
            (Call::Published(1), Answer::Counts(1, 1)),
            (Call::Published(0), Answer::Counts(1, 0)),
            (Call::MarkEnd, Answer::Done),
            (Call::Published(1), Answer::Counts(1, 1)),
            (Call::Published(0), Answer::Counts(2, 0)),
        ],
    },
    // at rate 100, with seed 1, the words of processor 0 give the distances 93, 180, 157 and so on. A refused object of 1024 bytes, which
    // would be sampled, leaves the countdown
    Case {
        rate: 100,
        live: &[],
        calls: &[
            // 93, 69
            (Call::Small(24, true, 0), Answer::At(0, 0)),
            (Call::Small(24, true, 0), Answer::At(0, 24)),
            // 45, which the object of 511 pages meets; then 180
            (Call::Large(511, 1), Answer::Sampled(1, 0)),
            (Call::Small(1024, true, 1), Answer::NoRun(2)),
            (Call::Large(5, 1), Answer::NoRun(3)),
            // 180, 156, 132, 108, 84, 60 and 36
            (Call::Small(24, true, 0), Answer::At(0, 48)),
            (Call::Small(24, true, 0), Answer::At(0, 72)),
            (Call::Small(24, true, 0), Answer::At(0, 96)),
            (Call::Small(24, true, 0), Answer::At(0, 120)),
            (Call::Small(24, true, 0), Answer::At(0, 144)),
            (Call::Small(24, true, 0), Answer::At(0, 168)),
            (Call::Small(24, true, 0), Answer::At(0, 192)),
            // 12, which the object meets; then 157
            (Call::Small(17, true, 0), Answer::Sampled(0, 216)),
            (Call::Small(24, true, 0), Answer::At(0, 240)),
            (Call::MarkEnd, Answer::Done),
            (Call::Published(0), Answer::Counts(1, 0)),
            (Call::Published(1), Answer::Counts(1, 0)),
        ],
    },
];

// Calls that sweep more spans than a hand has room for at first, so that memory may run out in the middle of each step of an allocation.
const MANY: [Case; 6] = [
    // a flush goes through six classes in rising order; two spans have an object still, and are found again with room
    Case {
        rate: 0,
        live: &[(1, 0), (4, 0)],
        calls: &[
            (Call::Small(8, true, 0), Answer::At(0, 0)),
            (Call::Small(16, true, 0), Answer::At(1, 0)),
            (Call::Small(24, true, 0), Answer::At(2, 0)),
            (Call::Small(32, true, 0), Answer::At(3, 0)),
            (Call::Small(48, true, 0), Answer::At(4, 0)),
            (Call::Small(64, true, 0), Answer::At(5, 0)),
            (Call::MarkEnd, Answer::Done),
            (Call::Small(80, true, 0), Answer::At(0, 0)),
            (Call::Sweeps, Answer::Many(6)),
            (Call::Sweep(3), Answer::Swept(1, 3, 0, 1)),
            (Call::Sweep(4), Answer::Swept(1, 4, 1, 0)),
            (Call::Sweep(5), Answer::Swept(1, 5, 0, 1)),
            (Call::Small(16, true, 0), Answer::At(1, 16)),
            (Call::Small(48, true, 0), Answer::At(4, 48)),
            (Call::Sweeps, Answer::Many(6)),
        ],
    },
    // a payment sweeps five spans of another class behind the flush of one: six pages are due for 8192 bytes
    Case {
        rate: 0,
        live: &[(0, 0), (1, 0), (2, 0), (3, 0), (4, 0), (5, 0)],
        calls: &[
            (Call::Small(8192, true, 0), Answer::At(0, 0)),
            (Call::Small(8192, true, 0), Answer::At(1, 0)),
            (Call::Small(8192, true, 0), Answer::At(2, 0)),
            (Call::Small(8192, true, 0), Answer::At(3, 0)),
            (Call::Small(8192, true, 0), Answer::At(4, 0)),
            (Call::Small(8192, true, 0), Answer::At(5, 0)),
            (Call::MarkEnd, Answer::Done),
            (Call::Pace(6), Answer::Done),
            (Call::Small(16, true, 0), Answer::At(6, 0)),
            (Call::Sweeps, Answer::Many(6)),
            (Call::Sweep(0), Answer::Swept(1, 5, 1, 0)),
            (Call::Sweep(5), Answer::Swept(1, 4, 1, 0)),
        ],
    },
    // the same before a large object: 2 * 6 pages are due for its six, less the six that are asked for
    Case {
        rate: 0,
        live: &[(0, 0), (1, 0), (2, 0), (3, 0), (4, 0), (5, 0)],
        calls: &[
            (Call::Small(8192, true, 0), Answer::At(0, 0)),
            (Call::Small(8192, true, 0), Answer::At(1, 0)),
            (Call::Small(8192, true, 0), Answer::At(2, 0)),
            (Call::Small(8192, true, 0), Answer::At(3, 0)),
            (Call::Small(8192, true, 0), Answer::At(4, 0)),
            (Call::Small(8192, true, 0), Answer::At(5, 0)),
            (Call::MarkEnd, Answer::Done),
            (Call::Pace(2), Answer::Done),
            (Call::Large(6, 0), Answer::At(6, 0)),
            (Call::Sweeps, Answer::Many(6)),
            (Call::Sweep(0), Answer::Swept(1, 5, 1, 0)),
            (Call::Sweep(5), Answer::Swept(1, 4, 1, 0)),
        ],
    },
    // the looks for a span sweep six full ones behind the flush of a seventh, and then a new one is made
    Case {
        rate: 0,
        live: &[
            (0, 0),
            (0, 1),
            (1, 0),
            (1, 1),
            (2, 0),
            (2, 1),
            (3, 0),
            (3, 1),
            (4, 0),
            (4, 1),
            (5, 0),
            (5, 1),
            (6, 0),
            (6, 1),
        ],
        calls: &[
            (Call::Small(4096, true, 0), Answer::At(0, 0)),
            (Call::Small(4096, true, 0), Answer::At(0, 4096)),
            (Call::Small(4096, true, 0), Answer::At(1, 0)),
            (Call::Small(4096, true, 0), Answer::At(1, 4096)),
            (Call::Small(4096, true, 0), Answer::At(2, 0)),
            (Call::Small(4096, true, 0), Answer::At(2, 4096)),
            (Call::Small(4096, true, 0), Answer::At(3, 0)),
            (Call::Small(4096, true, 0), Answer::At(3, 4096)),
            (Call::Small(4096, true, 0), Answer::At(4, 0)),
            (Call::Small(4096, true, 0), Answer::At(4, 4096)),
            (Call::Small(4096, true, 0), Answer::At(5, 0)),
            (Call::Small(4096, true, 0), Answer::At(5, 4096)),
            (Call::Small(4096, true, 0), Answer::At(6, 0)),
            (Call::Small(4096, true, 0), Answer::At(6, 4096)),
            (Call::MarkEnd, Answer::Done),
            (Call::Small(4096, true, 0), Answer::At(7, 0)),
            (Call::Sweeps, Answer::Many(7)),
            (Call::Sweep(0), Answer::Swept(1, 6, 2, 0)),
            (Call::Sweep(6), Answer::Swept(1, 5, 2, 0)),
            (Call::Small(4096, true, 0), Answer::At(7, 4096)),
            (Call::Small(4096, true, 0), Answer::At(8, 0)),
            (Call::Sweeps, Answer::Many(7)),
        ],
    },
    // a large object needs the whole region: five spans go back behind the flush of one
    Case {
        rate: 0,
        live: &[],
        calls: &[
            (Call::Small(8192, true, 0), Answer::At(0, 0)),
            (Call::Small(8192, true, 0), Answer::At(1, 0)),
            (Call::Small(8192, true, 0), Answer::At(2, 0)),
            (Call::Small(8192, true, 0), Answer::At(3, 0)),
            (Call::Small(8192, true, 0), Answer::At(4, 0)),
            (Call::Small(8192, true, 0), Answer::At(5, 0)),
            (Call::MarkEnd, Answer::Done),
            (Call::Large(512, 0), Answer::At(0, 0)),
            (Call::Sweeps, Answer::Many(6)),
            (Call::Sweep(0), Answer::Swept(1, 5, 0, 1)),
        ],
    },
    // where all live on, all are swept before a large object is refused: the lines of six spans stand before the miss, and the miss before the
    // span of the next one, which finds 506 pages
    Case {
        rate: 0,
        live: &[(0, 0), (1, 0), (2, 0), (3, 0), (4, 0), (5, 0)],
        calls: &[
            (Call::Small(8192, true, 0), Answer::At(0, 0)),
            (Call::Small(8192, true, 0), Answer::At(1, 0)),
            (Call::Small(8192, true, 0), Answer::At(2, 0)),
            (Call::Small(8192, true, 0), Answer::At(3, 0)),
            (Call::Small(8192, true, 0), Answer::At(4, 0)),
            (Call::Small(8192, true, 0), Answer::At(5, 0)),
            (Call::MarkEnd, Answer::Done),
            (Call::Large(507, 0), Answer::NoRun(6)),
            (Call::Sweeps, Answer::Many(6)),
            (Call::Sweep(0), Answer::Swept(1, 5, 1, 0)),
            (Call::Large(506, 0), Answer::At(6, 0)),
            (Call::Small(8, true, 0), Answer::NoRun(8)),
        ],
    },
];

// A scene at a rate, where memory ran out a second one.
fn start<R: AllocGlobal>(rt: &R, rate: u64) -> Result<Scene, NoMemory> {
    match Scene::start(rt.alloc(), rate) {
        Ok(scene) => Ok(scene),
        Err(NoMemory) => Scene::start(rt.alloc(), rate),
    }
}

// The calls of a case answer as they should. A scene is let go in one place, since each place costs the proof much.
fn try_case<R: Abort + AllocGlobal + Print + Wait>(rt: &R, row: &Case) -> Result<(), NoMemory> {
    let mut scene = start(rt, row.rate)?;
    try_rows(rt, &mut scene, row.live, row.calls)
}

#[test]
fn calls_answer_by_the_rules(rt: HostRuntime) -> Result<(), Fail> {
    for row in &FIRST {
        try_case(&rt, row)?;
    }
    for row in &TURNS {
        try_case(&rt, row)?;
    }
    for row in &SAMPLES {
        try_case(&rt, row)?;
    }
    for row in &MANY {
        try_case(&rt, row)?;
    }
    Ok(())
}
