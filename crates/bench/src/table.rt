//! Calls of the shared span table beside the same moves of the ownership core: what `bench/table.sh` times.
//!
//! The words are `core` or `table`, and how many times a span is put into a cache and taken out of it. The table has a region of one
//! chunk, and the core as many pages and workers.

ghost use Rattle.std.specs.Prelude.{◌≡◌, true, None};
ghost use Rattle.sweep_laws.specs.Lists.{has};
ghost use Rattle.span_laws.specs.Asks.{HasBody, IsAtWork};

use crate::stop::Stop;
use span_state::Body;
use span_table::{Shared, Uncached, Worker};
use std::alloc::Global;
use std::sync::Wait;
use sweep_generation::{Core, Move, StepFault, step};

// The pages of a chunk, which the span has, and the workers of a table.
const PAGES: u32 = 512;

const WORKERS: u32 = 70;

/// What is called.
#[derive(Clone, Copy)]
enum Callee {
    Core,
    Table,
}

fn callee_of(word: &str) -> Option<Callee> {
    match word {
        "core" => Some(Callee::Core),
        "table" => Some(Callee::Table),
        _ => None,
    }
}

pub fn asked<R: Wait>(rt: &R, alloc: Global, words: &[String]) -> Result<u64, Stop> {
    let [name, rounds] = words else {
        return Err(Stop::Words);
    };
    let callee = callee_of(name.as_str()).ok_or(Stop::Words)?;
    let Ok(rounds) = rounds.as_str().parse::<u64>() else {
        return Err(Stop::Words);
    };
    match callee {
        Callee::Core => moves(alloc, rounds),
        Callee::Table => calls(rt, alloc, rounds),
    }
}

/// A few of both.
pub fn few<R: Wait>(rt: &R, alloc: Global) -> Result<u64, Stop> {
    let moved = moves(alloc, 2)?;
    let called = calls(rt, alloc, 3)?;
    Ok(moved.saturating_add(called))
}

// So many moves into a cache and out of it.
fn moves(alloc: Global, rounds: u64) -> Result<u64, Stop> {
    let mut core = Core::new(alloc, PAGES, WORKERS)?;
    core.make_room()?;
    core.make_life_room(1)?;
    step(&mut core, Move::Lock(0))?;
    step(&mut core, Move::Take(0, 0, PAGES, 1, 0))?;
    step(&mut core, Move::Unlock(0))?;
    move_rounds(&mut core, rounds)?;
    Ok(rounds)
}

fn move_rounds(core: &mut Core, rounds: u64) -> Result<(), StepFault> {
    for _ in 0..rounds {
        step(core, Move::Cache(0, 0))?;
        step(core, Move::Uncache(0, 0))?;
    }
    Ok(())
}

// So many calls that do the same.
fn calls<R: Wait>(rt: &R, alloc: Global, rounds: u64) -> Result<u64, Stop> {
    let (shared, mut worker) = Shared::new(alloc, 1, PAGES, 0)?;
    let Ok(body) = shared.take_span(rt, &mut worker, PAGES, 0) else {
        return Err(Stop::NoMemory);
    };
    call_rounds(&shared, &mut worker, &body, rounds);
    Ok(rounds)
}

fn call_rounds(shared: &Shared, w: &mut Worker, body: &Body, rounds: u64)
    requires works { IsAtWork shared.now w.old }
    requires held { has body.now.page w.old.view.own.held ≡ true }
    requires unclaimed { w.old.view.own.claimed ≡ None }
    requires lent { HasBody w.old.view.own body.now }
{
    for _ in 0..rounds {
        call_round(shared, w, body);
    }
}

fn call_round(shared: &Shared, w: &mut Worker, body: &Body)
    // the worker with the span
    requires works { IsAtWork shared.now w.old }
    requires held { has body.now.page w.old.view.own.held ≡ true }
    requires unclaimed { w.old.view.own.claimed ≡ None }
    requires lent { HasBody w.old.view.own body.now }

    // the same behind it
    ensures works { IsAtWork shared.now w.new }
    ensures held { has body.now.page w.new.view.own.held ≡ true }
    ensures unclaimed { w.new.view.own.claimed ≡ None }
    ensures lent { HasBody w.new.view.own body.now }
{
    shared.mark_cached(w, body);
    match shared.uncache(w, body) {
        Uncached::Fresh => {}
        Uncached::Stale => unreachable!(),
    }
}
