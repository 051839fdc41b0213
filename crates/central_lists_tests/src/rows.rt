//! What `cache_span` answers over sets that a mark end left: each row makes full spans of two objects, and marks none, one or two of each.

use central_lists::{FromSets, Look};
use fallible_list::NoMemory;
use proc_cache_tests::Scene;
use std::alloc::Global;
use std::process::Abort;
use std::sync::Wait;
use std::test::Fail;
use sweeper::SweptOne;

// Objects of 4096 bytes with pointers are of span class 88, two on a page.
const SIZE: u64 = 4096;

const CLASS: u8 = 88;

// Runs of spans: how many, and how many of the objects of each live on.
type Runs = &'static [(u32, u32)];

// A call before the one that is tried.
#[derive(Clone, Copy)]
enum Call {
    // A second mark end, at which the objects of the second list of runs live.
    MarkEnd,
    // The page reclaimer goes over the chunk, and sweeps the spans without a mark.
    Reclaim,
    // `sweep_one`.
    Sweep,
}

// What a call answers.
#[derive(Clone, Copy, Debug, PartialEq, Eq)]
enum Answer {
    // Nothing.
    Done,
    // So many pages came back.
    Pages(u32),
    // The page, the kept and the freed objects of a sweep.
    Swept(u32, u32, u32),
    // Nothing is left to sweep.
    NothingLeft,
    // A span of the swept partial set, by its page.
    Partial(u32),
    // A span that was swept for the call.
    Here(u32),
    // A new span is needed: where the swept partial set was seen empty, and the tries.
    Fresh(u32, u32),
    // The same, where an entry of the set was not filled yet.
    NotYet(u32, u32),
}

// The marks of the runs: of the spans from page 0 on.
fn marks_of(alloc: Global, runs: &[(u32, u32)]) -> Result<Vec<(u32, u32)>, NoMemory> {
    let mut marks = Vec::new(alloc);
    let mut page = 0u32;
    for run in runs {
        for _ in 0..run.0 {
            for index in 0..run.1 {
                marks.push((page, index))?;
            }
            page = page.saturating_add(1);
        }
    }
    Ok(marks)
}

fn mark_end<R: Wait>(
    rt: &R,
    scene: &mut Scene,
    alloc: Global,
    runs: &[(u32, u32)],
) -> Result<(), NoMemory> {
    let marks = marks_of(alloc, runs)?;
    scene.mark_end(rt, marks.as_slice())
}

fn put<R: Wait>(rt: &R, scene: &mut Scene) -> Result<(), NoMemory> {
    match scene.small(rt, SIZE, true, 0) {
        Ok(_) => Ok(()),
        Err(_) => Err(NoMemory),
    }
}

fn put_spans<R: Wait>(rt: &R, scene: &mut Scene, spans: u32) -> Result<(), NoMemory> {
    for _ in 0..spans {
        put(rt, scene)?;
        put(rt, scene)?;
    }
    Ok(())
}

// Full spans on the first pages, and one more that is cached.
fn fill<R: Wait>(rt: &R, scene: &mut Scene, runs: &[(u32, u32)]) -> Result<(), NoMemory> {
    for run in runs {
        put_spans(rt, scene, run.0)?;
    }
    put(rt, scene)
}

fn make<R: Wait>(
    rt: &R,
    scene: &mut Scene,
    alloc: Global,
    later: &[(u32, u32)],
    call: Call,
) -> Result<Answer, NoMemory> {
    match call {
        Call::MarkEnd => {
            mark_end(rt, scene, alloc, later)?;
            Ok(Answer::Done)
        }
        Call::Reclaim => Ok(Answer::Pages(scene.reclaim(rt, 1)?)),
        Call::Sweep => match scene.sweep(rt)? {
            SweptOne::Swept(note) => Ok(Answer::Swept(note.page, note.kept, note.freed)),
            SweptOne::NothingLeft => Ok(Answer::NothingLeft),
        },
    }
}

// The spans, what lives on at a second mark end, the calls before the one that is tried, and what that one answers.
struct Case {
    runs: Runs,
    later: Runs,
    calls: &'static [(Call, Answer)],
    wanted: Answer,
}

// Behind a mark end all spans wait for their sweep in the full set, in the order of their pages.
fn try_calls<R: Abort + AllocGlobal + Wait>(
    rt: &R,
    scene: &mut Scene,
    row: &Case,
) -> Result<(), NoMemory> {
    fill(rt, scene, row.runs)?;
    mark_end(rt, scene, rt.alloc(), row.runs)?;
    for (made, wanted) in row.calls {
        let found = make(rt, scene, rt.alloc(), row.later, *made)?;
        assert_eq!(rt; found, *wanted);
    }
    Ok(())
}

// The state in which the call is made, a second one where memory ran out. A scene is let go in few places, since each place costs the proof much.
fn prepared<R: Abort + AllocGlobal + Wait>(rt: &R, row: &Case) -> Result<Scene, NoMemory> {
    let mut scene = Scene::start(rt.alloc(), 0)?;
    try_calls(rt, &mut scene, row)?;
    Ok(scene)
}

fn ready<R: Abort + AllocGlobal + Wait>(rt: &R, row: &Case) -> Result<Scene, NoMemory> {
    match prepared(rt, row) {
        Ok(scene) => Ok(scene),
        Err(NoMemory) => prepared(rt, row),
    }
}

fn answer_of(found: FromSets) -> Answer {
    match found {
        FromSets::SweptPartial(body) => Answer::Partial(body.page),
        FromSets::SweptHere(body) => Answer::Here(body.page),
        FromSets::NeedFresh { swept, tried } => match swept {
            Look::Empty { at } => Answer::Fresh(at, tried),
            Look::NotYet { at } => Answer::NotYet(at, tried),
        },
    }
}

// The answer to a processor that asks for a span of the class. Where memory ran out it asks once more, and says so; then the number of sweeps of
// the first call comes, too.
fn asked<R: Print>(rt: &R, scene: Scene) -> Result<(Answer, Option<usize>), NoMemory> {
    let before = scene.sweeps().len();
    let left = match scene.cache_span(CLASS) {
        Ok(found) => return Ok((answer_of(found), None)),
        Err(left) => left,
    };
    let swept = left.sweeps().len().saturating_sub(before);
    let Ok(()) = println!(rt; "again") else {
        return Err(NoMemory);
    };
    match left.cache_span(CLASS) {
        Ok(found) => Ok((answer_of(found), Some(swept))),
        Err(_) => Err(NoMemory),
    }
}

// Whether entries of the class's sets are dropped: the page reclaimer swept their spans.
fn drops(row: &Case) -> bool {
    for (made, _) in row.calls {
        if matches!(made, Call::Reclaim) {
            return true;
        }
    }
    false
}

// Whether a second call answers as wanted of both: the same span; or none, and then it tried what the first had left. Each sweep of that one was
// a try, and each entry that it dropped.
fn is_rest(found: Answer, wanted: Answer, swept: usize, drops: bool) -> bool {
    match (found, wanted) {
        (Answer::Fresh(at, rest), Answer::Fresh(from, tries)) => {
            let both = swept.saturating_add(rest as usize);
            at == from && (both == tries as usize || drops && both < tries as usize)
        }
        _ => found == wanted,
    }
}

// A call answers as it should; and, where memory runs out in it, a second one behind it.
fn try_case<R: Abort + AllocGlobal + Print + Wait>(
    rt: &R,
    row: &Case,
    second: Answer,
) -> Result<(), NoMemory> {
    let (found, first) = asked(rt, ready(rt, row)?)?;
    match first {
        None => assert_eq!(rt; found, row.wanted),
        Some(swept) => {
            assert!(rt;
                is_rest(found, second, swept, drops(row)),
                "{found:?} behind {swept}"
            )
        }
    }
    Ok(())
}

// The first span with room is kept, also the hundredth.
const WAITING: [Case; 8] = [
    Case {
        runs: &[(3, 2)],
        later: &[],
        calls: &[],
        wanted: Answer::Fresh(0, 3),
    },
    Case {
        runs: &[(1, 2), (1, 1), (1, 2)],
        later: &[],
        calls: &[],
        wanted: Answer::Here(1),
    },
    // an emptied one is kept too, since it was swept for a cache
    Case {
        runs: &[(1, 0), (1, 1)],
        later: &[],
        calls: &[],
        wanted: Answer::Here(0),
    },
    Case {
        runs: &[(2, 2), (1, 0)],
        later: &[],
        calls: &[],
        wanted: Answer::Here(2),
    },
    Case {
        runs: &[(99, 2)],
        later: &[],
        calls: &[],
        wanted: Answer::Fresh(0, 99),
    },
    Case {
        runs: &[(100, 2)],
        later: &[],
        calls: &[],
        wanted: Answer::Fresh(0, 100),
    },
    Case {
        runs: &[(98, 2), (1, 1)],
        later: &[],
        calls: &[],
        wanted: Answer::Here(98),
    },
    Case {
        runs: &[(99, 2), (1, 1)],
        later: &[],
        calls: &[],
        wanted: Answer::Here(99),
    },
];

// Where the page reclaimer went over the chunk before, the entries of the spans that it swept are dropped, and are tries too.
const DROPPED: [Case; 6] = [
    Case {
        runs: &[(1, 0), (1, 2), (1, 0), (1, 1)],
        later: &[],
        calls: &[(Call::Reclaim, Answer::Pages(2))],
        wanted: Answer::Here(3),
    },
    Case {
        runs: &[(2, 0)],
        later: &[],
        calls: &[(Call::Reclaim, Answer::Pages(2))],
        wanted: Answer::Fresh(0, 2),
    },
    Case {
        runs: &[(1, 0), (1, 2), (1, 0)],
        later: &[],
        calls: &[(Call::Reclaim, Answer::Pages(2))],
        wanted: Answer::Fresh(0, 3),
    },
    Case {
        runs: &[(49, 0), (50, 2), (1, 1)],
        later: &[],
        calls: &[(Call::Reclaim, Answer::Pages(49))],
        wanted: Answer::Here(99),
    },
    Case {
        runs: &[(50, 2), (49, 0), (1, 1)],
        later: &[],
        calls: &[(Call::Reclaim, Answer::Pages(49))],
        wanted: Answer::Here(99),
    },
    Case {
        runs: &[(99, 0), (1, 1)],
        later: &[],
        calls: &[(Call::Reclaim, Answer::Pages(99))],
        wanted: Answer::Here(99),
    },
];

// A span that was swept before, and has room, is found without a try.
const SWEPT: [Case; 5] = [
    Case {
        runs: &[(2, 1)],
        later: &[],
        calls: &[(Call::Sweep, Answer::Swept(0, 1, 1))],
        wanted: Answer::Partial(0),
    },
    Case {
        runs: &[(1, 1), (3, 2)],
        later: &[],
        calls: &[(Call::Sweep, Answer::Swept(0, 1, 1))],
        wanted: Answer::Partial(0),
    },
    // the first is full, and in the next case emptied and given back
    Case {
        runs: &[(1, 2), (1, 1)],
        later: &[],
        calls: &[(Call::Sweep, Answer::Swept(0, 2, 0))],
        wanted: Answer::Here(1),
    },
    Case {
        runs: &[(1, 0), (1, 1)],
        later: &[],
        calls: &[(Call::Sweep, Answer::Swept(0, 0, 2))],
        wanted: Answer::Here(1),
    },
    Case {
        runs: &[(101, 2)],
        later: &[],
        calls: &[(Call::Sweep, Answer::Swept(0, 2, 0))],
        wanted: Answer::Fresh(0, 100),
    },
];

// Behind a second mark end the spans with room wait in the partial set, and the full ones in the full set. The partial set is tried before
// the full one, and both together a hundred times. A span of the partial set has room still, so it is the first to be kept, but for those
// that the reclaimer gave back.
const BOTH: [Case; 5] = [
    Case {
        runs: &[(1, 2), (1, 1), (1, 2), (1, 1)],
        later: &[(1, 2), (1, 1), (1, 2), (1, 1)],
        calls: &[(Call::MarkEnd, Answer::Done)],
        wanted: Answer::Here(1),
    },
    Case {
        runs: &[(1, 2), (1, 1), (1, 2), (1, 1)],
        later: &[(1, 1), (3, 0)],
        calls: &[(Call::MarkEnd, Answer::Done)],
        wanted: Answer::Here(1),
    },
    // the partial spans died, and were given back
    Case {
        runs: &[(1, 2), (1, 1), (1, 2), (1, 1)],
        later: &[(1, 2), (1, 0), (1, 1), (1, 0)],
        calls: &[
            (Call::MarkEnd, Answer::Done),
            (Call::Reclaim, Answer::Pages(2)),
        ],
        wanted: Answer::Here(2),
    },
    Case {
        runs: &[(1, 2), (1, 1), (1, 2), (1, 1)],
        later: &[(1, 2), (1, 0), (1, 2), (1, 0)],
        calls: &[
            (Call::MarkEnd, Answer::Done),
            (Call::Reclaim, Answer::Pages(2)),
        ],
        wanted: Answer::Fresh(0, 4),
    },
    // sixty of the partial set, and as many of the full one as are left
    Case {
        runs: &[(60, 1), (40, 2)],
        later: &[(60, 0), (39, 2), (1, 1)],
        calls: &[
            (Call::MarkEnd, Answer::Done),
            (Call::Reclaim, Answer::Pages(60)),
        ],
        wanted: Answer::Here(99),
    },
];

// Where a hundred entries were tried, one behind them is not. A second call, behind one in which memory ran out, comes to it; its answer follows.
const STOPPED: [(Case, Answer); 5] = [
    (
        Case {
            runs: &[(101, 2)],
            later: &[],
            calls: &[],
            wanted: Answer::Fresh(0, 100),
        },
        Answer::Fresh(0, 101),
    ),
    (
        Case {
            runs: &[(100, 2), (1, 1)],
            later: &[],
            calls: &[],
            wanted: Answer::Fresh(0, 100),
        },
        Answer::Here(100),
    ),
    (
        Case {
            runs: &[(50, 0), (50, 2), (1, 1)],
            later: &[],
            calls: &[(Call::Reclaim, Answer::Pages(50))],
            wanted: Answer::Fresh(0, 100),
        },
        Answer::Here(100),
    ),
    (
        Case {
            runs: &[(100, 0), (1, 1)],
            later: &[],
            calls: &[(Call::Reclaim, Answer::Pages(100))],
            wanted: Answer::Fresh(0, 100),
        },
        Answer::Here(100),
    ),
    (
        Case {
            runs: &[(60, 1), (41, 2)],
            later: &[(60, 0), (40, 2), (1, 1)],
            calls: &[
                (Call::MarkEnd, Answer::Done),
                (Call::Reclaim, Answer::Pages(60)),
            ],
            wanted: Answer::Fresh(0, 100),
        },
        Answer::Here(100),
    ),
];

#[test]
fn cached_spans_come_by_the_rules(rt: HostRuntime) -> Result<(), Fail> {
    for row in &WAITING {
        try_case(&rt, row, row.wanted)?;
    }
    for row in &DROPPED {
        try_case(&rt, row, row.wanted)?;
    }
    for row in &SWEPT {
        try_case(&rt, row, row.wanted)?;
    }
    for row in &BOTH {
        try_case(&rt, row, row.wanted)?;
    }
    for (row, second) in &STOPPED {
        try_case(&rt, row, *second)?;
    }
    Ok(())
}
