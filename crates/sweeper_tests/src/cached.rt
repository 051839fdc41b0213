use crate::scene::Scene;
use fallible_list::NoMemory;
use std::process::Abort;
use std::sync::Wait;
use std::test::Fail;
use sweeper::Refused;

// `new_span` of a size class, or of a large span of so many pages.
#[derive(Clone, Copy)]
enum Call {
    Small(u8),
    Large(u32),
}

// The first page of the span, or the number of the line that says that no run is free.
#[derive(Clone, Copy, Debug, PartialEq, Eq)]
enum Answer {
    Page(u32),
    NoRun(u64),
}

fn make<R: Wait>(rt: &R, scene: &mut Scene, call: Call) -> Result<Answer, NoMemory> {
    let made = match call {
        Call::Small(class) => scene.make_small(rt, class),
        Call::Large(pages) => scene.make(rt, pages),
    };
    match made {
        Ok(page) => Ok(Answer::Page(page)),
        Err(Refused::NoRun { line }) => Ok(Answer::NoRun(line)),
        Err(Refused::NoMemory) => Err(NoMemory),
    }
}

// Spans that the worker of a page cache makes in a region of 512 pages: what is answered, and how many pages its block has left then.
// Lines are numbered from 0 on; a cut has its line when the block is settled.
const CALLS: [&[(Call, Answer, u32)]; 3] = [
    // line 0 pulls the block 0..63, of which spans of fewer than 16 pages are cut; one of 16 is taken behind it, by line 1
    &[
        (Call::Small(1), Answer::Page(0), 63),
        (Call::Small(1), Answer::Page(1), 62),
        (Call::Large(16), Answer::Page(64), 62),
        (Call::Large(15), Answer::Page(2), 47),
        // line 2 takes all that is left behind the block, and a small span comes out of the block still
        (Call::Large(432), Answer::Page(80), 47),
        (Call::Small(41), Answer::Page(17), 44),
        // no run of 45 pages is free though the block is settled: lines 3 to 6 are its cuts, 7 its drop, and 8 says so
        (Call::Large(45), Answer::NoRun(8), 0),
        // its pages 20..63 are free then, and are pulled by line 9
        (Call::Small(1), Answer::Page(20), 43),
    ],
    // a run that the block alone has is taken where it is settled: line 1 takes the rest of the region, and lines 2 and 3 settle
    &[
        (Call::Small(1), Answer::Page(0), 63),
        (Call::Large(448), Answer::Page(64), 63),
        (Call::Large(63), Answer::Page(1), 0),
        // nothing is left to pull: line 4 took the run, and 5 says that none is free
        (Call::Small(1), Answer::NoRun(5), 0),
    ],
    // a block without a run of so many pages stays while it has a page left, and the span is taken at first fit; one without a page is
    // settled, and another is pulled
    &[
        (Call::Large(15), Answer::Page(0), 49),
        (Call::Large(15), Answer::Page(15), 34),
        (Call::Large(15), Answer::Page(30), 19),
        (Call::Large(15), Answer::Page(45), 4),
        (Call::Large(5), Answer::Page(64), 4),
        (Call::Small(41), Answer::Page(60), 1),
        (Call::Small(1), Answer::Page(63), 0),
        (Call::Small(1), Answer::Page(69), 58),
    ],
];

fn try_calls<R: Abort + Wait>(
    rt: &R,
    scene: &mut Scene,
    calls: &[(Call, Answer, u32)],
) -> Result<(), NoMemory> {
    for (call, wanted, left) in calls {
        let found = make(rt, scene, *call)?;
        assert_eq!(rt; found, *wanted);
        assert_eq!(rt; scene.pages_left(), Some(*left));
    }
    Ok(())
}

fn try_row<R: Abort + AllocGlobal + Wait>(
    rt: &R,
    calls: &[(Call, Answer, u32)],
) -> Result<(), NoMemory> {
    let mut scene = Scene::cached(rt.alloc())?;
    try_calls(rt, &mut scene, calls)
}

#[test]
fn spans_are_cut_out_of_a_page_cache(rt: HostRuntime) -> Result<(), Fail> {
    for calls in &CALLS {
        try_row(&rt, calls)?;
    }
    Ok(())
}
