//! A call on a scene, and what it answers.

use crate::meet::Met;
use crate::scene::Scene;
use fallible_list::NoMemory;
use profile_cycle::Count;
use span_table::Step;
use std::process::Abort;
use std::sync::Wait;
use sweeper::{Paid, Refused, SweptOne};

// A call on a scene.
#[derive(Clone, Copy)]
pub(crate) enum Call {
    // So many bytes were spent.
    Spend(u64),
    // A sampled object of the bucket died in the span of the page.
    Die(u32, u32),
    // `sweep_one`.
    Sweep,
    // `finish`.
    Finish,
    // `pay` by pages to sweep, distance, bytes and credit.
    Pay(u32, u64, u64, u32),
    // `reclaim` of so many pages.
    Reclaim(u32),
    // `new_span` of so many pages.
    Make(u32),
    // `acquire` of the page, whose span is swept where it waits.
    Meet(u32),
    // `pop_unswept` of the full set of large spans, whose entry's span is swept where it waits.
    Pop,
    // `scavenge_step`.
    Scavenge,
    // The generation, the swept pages and the spent bytes.
    Counters,
    // How many pages spans have.
    Taken,
    // How many notes the hand has.
    Notes,
    // What is published of the bucket behind a full sweep.
    Sampled(u32),
    // The same behind a mark end.
    Turned(u32),
}

// What a call answers.
#[derive(Clone, Copy, Debug, PartialEq, Eq)]
pub(crate) enum Answer {
    // Nothing.
    Done,
    // The page, the kept and the freed objects of a sweep.
    Swept(u32, u32, u32),
    // Nothing is left to sweep.
    NothingLeft,
    // The page has this word.
    Word(u32, u64),
    // The set is empty, with this head and tail.
    Empty(u32, u32),
    // The first page and the pages of a released run, and the backed pages behind it.
    Released(u32, u32, u32),
    // No run was released; so many pages are backed.
    Backed(u32),
    // The counters.
    Counts(u64, u64, u64),
    // The swept pages and the target of a payment.
    Reached(u64, u64),
    // So many pages or notes.
    Many(u64),
    // The first page of a new span.
    Page(u32),
    // The number of the line that says that no run is free.
    NoRun(u64),
    // So many allocations and frees.
    Samples(u64, u64),
}

fn met(found: Result<Met, NoMemory>) -> Result<Answer, NoMemory> {
    match found? {
        Met::Swept(note) => Ok(Answer::Swept(note.page, note.kept, note.freed)),
        Met::Other(page, word) => Ok(Answer::Word(page, word)),
        Met::Empty(head, tail) => Ok(Answer::Empty(head, tail)),
    }
}

fn one(found: Result<SweptOne, NoMemory>) -> Result<Answer, NoMemory> {
    match found? {
        SweptOne::Swept(note) => Ok(Answer::Swept(note.page, note.kept, note.freed)),
        SweptOne::NothingLeft => Ok(Answer::NothingLeft),
    }
}

fn reached(found: Result<Paid, NoMemory>) -> Result<Answer, NoMemory> {
    match found? {
        Paid::Reached { seen, target } => Ok(Answer::Reached(seen, target)),
        Paid::NothingLeft => Ok(Answer::NothingLeft),
    }
}

fn made(found: Result<u32, Refused>) -> Result<Answer, NoMemory> {
    match found {
        Ok(page) => Ok(Answer::Page(page)),
        Err(Refused::NoRun { line }) => Ok(Answer::NoRun(line)),
        Err(Refused::NoMemory) => Err(NoMemory),
    }
}

fn stepped(step: Step) -> Answer {
    match step.run {
        Some(run) => Answer::Released(run.page, run.pages, step.backed),
        None => Answer::Backed(step.backed),
    }
}

fn samples(count: Count) -> Answer {
    Answer::Samples(count.allocs, count.frees)
}

fn make<R: Wait>(rt: &R, scene: &mut Scene, call: Call) -> Result<Answer, NoMemory> {
    match call {
        Call::Spend(bytes) => {
            scene.spend(bytes);
            Ok(Answer::Done)
        }
        Call::Die(page, bucket) => {
            scene.die(page, bucket)?;
            Ok(Answer::Done)
        }
        Call::Sweep => one(scene.sweep(rt)),
        Call::Finish => {
            scene.finish(rt)?;
            Ok(Answer::Done)
        }
        Call::Pay(pages, distance, bytes, credit) => reached(scene.pay(
            rt, pages, distance, bytes, credit,
        )),
        Call::Reclaim(pages) => Ok(Answer::Many(u64::from(scene.reclaim(rt, pages)?))),
        Call::Make(pages) => made(scene.make(rt, pages)),
        Call::Meet(page) => met(scene.meet(rt, page)),
        Call::Pop => met(scene.pop(rt)),
        Call::Scavenge => Ok(stepped(scene.scavenge(rt)?)),
        Call::Counters => {
            let (generation, swept, spent) = scene.counters();
            Ok(Answer::Counts(generation, swept, spent))
        }
        Call::Taken => Ok(Answer::Many(u64::from(scene.taken(rt)))),
        Call::Notes => Ok(Answer::Many(scene.notes() as u64)),
        Call::Sampled(bucket) => Ok(samples(scene.swept(bucket))),
        Call::Turned(bucket) => Ok(samples(scene.marked(bucket))),
    }
}

// Whether the call claims chunks. Those that it claimed before memory ran out it claims no more, so that spans there wait for others.
fn claims(call: Call) -> bool {
    matches!(call, Call::Reclaim(_) | Call::Make(_))
}

// Whether it may find otherwise where it did so: pages given back by it, or those of another chunk for its span.
fn finds_otherwise(call: Call, chunks: u32) -> bool {
    match call {
        Call::Reclaim(_) => true,
        Call::Make(_) => chunks > 1,
        _ => false,
    }
}

// Makes a call that found no memory once more, and says so.
fn make_again<R: Print + Wait>(rt: &R, scene: &mut Scene, call: Call) -> Result<Answer, NoMemory> {
    let Ok(()) = println!(rt; "again") else {
        return Err(NoMemory);
    };
    make(rt, scene, call)
}

// Behind a sweep of all that is left each span that waited was swept once, and what has an object or was made has its pages.
fn try_end<R: Abort + Wait>(
    rt: &R,
    scene: &mut Scene,
    spans: &[(u32, bool)],
    made: u32,
) -> Result<(), NoMemory> {
    scene.finish(rt)?;
    assert_eq!(rt; scene.notes(), spans.len());
    let mut taken = made;
    for span in spans {
        if span.1 {
            taken = taken.saturating_add(span.0);
        }
    }
    assert_eq!(rt; scene.taken(rt), taken);
    Ok(())
}

// The pages of the span that a call made.
fn pages_made(call: Call, found: Answer) -> u32 {
    match (call, found) {
        (Call::Make(pages), Answer::Page(_)) => pages,
        _ => 0,
    }
}

// The calls answer as they should. One that finds no memory is made again, and answers then as it would have. But where it claimed chunks
// of spans that wait, reclaims find less, and the rest of the row is left.
pub(crate) fn try_rows<R: Abort + Print + Wait>(
    rt: &R,
    scene: &mut Scene,
    chunks: u32,
    spans: &[(u32, bool)],
    rows: &[(Call, Answer)],
) -> Result<(), NoMemory> {
    let mut pages: u32 = 0;
    for (made, wanted) in rows {
        let (found, again) = match make(rt, scene, *made) {
            Ok(found) => (found, false),
            Err(NoMemory) => (make_again(rt, scene, *made)?, true),
        };
        pages = pages.saturating_add(pages_made(*made, found));
        let left = again && claims(*made) && !spans.is_empty();
        if !left || !finds_otherwise(*made, chunks) {
            assert_eq!(rt; found, *wanted);
        }
        if left {
            return try_end(rt, scene, spans, pages);
        }
    }
    Ok(())
}
