//! Moves of the ownership core over many spans: what `bench/core.sh` times.
//!
//! The words are the number of spans, the objects of a span, and how far to go: `fill` takes, caches, fills and queues
//! each span, `sweep` then ends a mark phase that marks object 0 of each span and sweeps them all, and `give` does the
//! same with nothing marked and gives each span back.

use crate::stop::Stop;
use fallible_list::{List, NoMemory};
use std::alloc::Global;
use sweep_generation::{Core, Move, Reply, StepFault, step};

// The span class of all spans, and its swept partial and full sets: those of part 0 at generation 4, of part 1 at 6.
const CLASS: u8 = 6;

const FIRST_SET: u32 = 26;

const NEXT_SET: u32 = 25;

/// How far to go.
#[derive(Clone, Copy, Debug, PartialEq, Eq)]
enum Work {
    Fill,
    Sweep,
    Give,
}

/// How many moves were made, and how many spans are left.
#[derive(Clone, Copy, Debug)]
pub struct Moved {
    pub moves: u64,
    pub spans: usize,
}

pub fn asked(alloc: Global, words: &[String]) -> Result<Moved, Stop> {
    let [spans, objects, work] = words else {
        return Err(Stop::Words);
    };
    let (Ok(spans), Ok(objects)) = (spans.parse(), objects.parse()) else {
        return Err(Stop::Words);
    };
    match work.as_str() {
        "fill" => make_moves(alloc, spans, objects, Work::Fill),
        "sweep" => make_moves(alloc, spans, objects, Work::Sweep),
        "give" => make_moves(alloc, spans, objects, Work::Give),
        _ => Err(Stop::Words),
    }
}

pub fn few(alloc: Global) -> Result<Moved, Stop> {
    make_moves(alloc, 3, 2, Work::Sweep)
}

fn make_moves(alloc: Global, spans: u32, objects: u32, work: Work) -> Result<Moved, Stop> {
    let mut core = new_core(alloc, spans)?;
    let mut moves: u64 = 0;
    for page in 0..spans {
        moves = moves.saturating_add(fill_span(&mut core, page, objects)?);
    }
    if work != Work::Fill {
        let swept = sweep_all(alloc, &mut core, spans, work == Work::Give)?;
        moves = moves.saturating_add(swept);
    }
    Ok(Moved {
        moves,
        spans: core.span_count(),
    })
}

// Ends a mark phase and sweeps all spans. Answers the number of moves.
fn sweep_all(alloc: Global, core: &mut Core, spans: u32, gives: bool) -> Result<u64, Stop> {
    let mut moves = mark_end(alloc, core, if gives { 0 } else { spans })?;
    for _span in 0..spans {
        moves = moves.saturating_add(sweep_span(core, gives)?);
    }
    Ok(moves)
}

// A core of so many pages and one worker, with room.
fn new_core(alloc: Global, pages: u32) -> Result<Core, NoMemory> {
    let mut core = Core::new(alloc, pages, 1)?;
    core.make_room()?;
    Ok(core)
}

// Takes a page as a span, allocates all its objects, and queues it. Answers the number of moves.
fn fill_span(core: &mut Core, page: u32, objects: u32) -> Result<u64, StepFault> {
    core.make_life_room(objects)?;
    step(core, Move::Lock(0))?;
    step(core, Move::Take(0, page, 1, objects, CLASS))?;
    step(core, Move::Unlock(0))?;
    step(core, Move::Cache(0, page))?;
    for index in 0..objects {
        step(core, Move::Allocate(0, page, index))?;
    }
    step(core, Move::Uncache(0, page))?;
    step(core, Move::Claim(0, FIRST_SET, page))?;
    step(core, Move::Fill(0))?;
    Ok(7 + u64::from(objects))
}

// Ends a mark phase that marked object 0 of so many spans. Answers the number of moves.
fn mark_end(alloc: Global, core: &mut Core, spans: u32) -> Result<u64, StepFault> {
    let mut marks = List::new(alloc);
    for page in 0..spans {
        marks.push((page, 0))?;
    }
    step(core, Move::Next(marks))?;
    Ok(1)
}

// Sweeps the next span of the queue, and gives it back or queues it again. Answers the number of moves.
fn sweep_span(core: &mut Core, gives: bool) -> Result<u64, StepFault> {
    let Reply::Base(page) = step(core, Move::PopUnswept(0, FIRST_SET))? else {
        return Ok(1);
    };
    step(core, Move::Acquire(0, page))?;
    step(core, Move::Release(0, page))?;
    if gives {
        step(core, Move::Lock(0))?;
        step(core, Move::Give(0, page))?;
        step(core, Move::Unlock(0))?;
        return Ok(6);
    }
    step(core, Move::Claim(0, NEXT_SET, page))?;
    step(core, Move::Fill(0))?;
    Ok(5)
}
