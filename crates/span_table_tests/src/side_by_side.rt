//! Workers in threads of their own on one table, in the first cycle.

ghost use Rattle.std.specs.Prelude.{◌≡◌, All, IfOk};
ghost use Rattle.span_table_tests.specs.FirstCycle.{IsUnclaimed};

use crate::first_cycle::{LARGE_SET, large, pop, push, start, through_cache, worker};
use page_bitmap::Line;
use span_state::Marks;
use span_table::{Acquired, Shared, Uncached, Worker};
use std::alloc::AllocError;
use std::sync::Wait;
use std::test::Fail;
use std::thread::{Threads, join, map_vec};

// What a worker does in its thread, and how it comes back: it takes a large span, pushes it, counts its pages, pops a span if there is
// one, its own or another's, and has it in its cache for a while.
fn work<R: Wait>(rt: &R, shared: &Shared, mut w: Worker) -> Worker
    requires { IsUnclaimed shared.now w }
    ensures { IsUnclaimed shared.now result }
{
    if let Ok(body) = large(rt, shared, &mut w) {
        push(shared, &mut w, body);
        shared.add_swept(&mut w, 5);
        if let Some(body) = pop(shared, &mut w) {
            through_cache(shared, &mut w, &body);
        }
    }
    w
}

// Each worker in a thread of its own.
fn run_all<R: Threads + Wait + Sync>(
    rt: &R,
    shared: &Shared,
    workers: Vec<Worker>,
) -> Result<Vec<Worker>, AllocError>
    requires { All (λ w. IsUnclaimed shared.now w) workers.items }
    ensures { IfOk result (λ ws. All (λ w. IsUnclaimed shared.now w) ws.items) }
{
    map_vec(rt, workers, &|w| work(rt, shared, w))
}

#[test]
fn two_workers_take_spans_side_by_side(rt: HostRuntime) -> Result<(), Fail> {
    let (shared, mut driver) = Shared::new(rt.alloc(), 1, 100, 0)?;
    let mut one = shared.hand_out(&mut driver, 0);
    let mut two = shared.hand_out(&mut driver, 1);
    let (a, b) = join(
        &rt,
        || shared.try_span(&rt, &mut one, 5, 0),
        || shared.try_span(&rt, &mut two, 5, 0),
    );
    let (Ok(Some(a)), Ok(Some(b))) = (a, b) else {
        panic!(rt; "two runs are free")
    };
    assert!(rt; a.page != b.page && a.page <= 5 && b.page <= 5 && a.pages == 5 && b.pages == 5);
    assert!(rt; a.life != b.life);
    let Acquired::Other(taken) = shared.acquire(&mut driver, 5) else {
        panic!(rt; "no page waits")
    };
    assert!(rt; taken == 4);
    Ok(())
}

#[test]
fn workers_run_in_threads(rt: HostRuntime) -> Result<(), Fail> {
    let alloc = rt.alloc();
    let (shared, mut driver) = start(alloc, 100)?;
    let mut workers = Vec::new(alloc);
    workers.push(worker(&shared, &mut driver, 0))?;
    workers.push(worker(&shared, &mut driver, 1))?;
    workers.push(worker(&shared, &mut driver, 2))?;
    let workers = run_all(&rt, &shared, workers)?;
    assert!(rt; workers.len() == 3);
    let (head, tail) = shared.look(&mut driver, LARGE_SET);
    assert!(rt; head <= 3 && tail == 3);
    assert!(rt; shared.swept(&mut driver) == 15);
    assert!(rt; shared.pages_taken(&rt, &mut driver) == 15);
    Ok(())
}

#[test]
fn a_span_goes_through_sets_and_the_cache(rt: HostRuntime) -> Result<(), Fail> {
    let (shared, mut driver) = start(rt.alloc(), 100)?;
    let mut w = worker(&shared, &mut driver, 0);
    let Ok(body) = large(&rt, &shared, &mut w) else {
        panic!(rt; "a run is free")
    };
    assert!(rt; body.page == 0 && body.pages == 5 && body.life == 0);
    assert!(rt; push(&shared, &mut w, body) == 0);
    assert!(rt; shared.look(&mut w, LARGE_SET) == (0, 1));
    assert!(rt; shared.look_cell(&mut w, LARGE_SET, 0) == 1);
    assert!(rt;
        shared.look_cell(&mut w, LARGE_SET, 1) == 0 && shared.look_cell(&mut w, LARGE_SET, 512) == 0
    );
    let Some(body) = pop(&shared, &mut w) else {
        panic!(rt; "a span was pushed")
    };
    assert!(rt; body.page == 0);
    assert!(rt; shared.look(&mut w, LARGE_SET) == (1, 1));
    assert!(rt; through_cache(&shared, &mut w, &body) == Uncached::Fresh);
    Ok(())
}

#[test]
fn nothing_waits_at_the_start(rt: HostRuntime) -> Result<(), Fail> {
    let alloc = rt.alloc();
    let (shared, mut driver) = Shared::new(alloc, 1, 100, 0)?;
    let marks = Marks::empty(alloc);
    assert!(rt;
        shared
            .acquire_unmarked(&mut driver, &marks, 0, 512)
            .is_none()
    );
    let (shared, mut driver) = Shared::new(alloc, 1, 100, 0)?;
    assert!(rt; shared.next_unswept(&mut driver, 0).is_none());
    Ok(())
}

#[test]
fn counters_add_up(rt: HostRuntime) -> Result<(), Fail> {
    let (shared, mut driver) = start(rt.alloc(), 100)?;
    let mut w = worker(&shared, &mut driver, 0);
    assert!(rt; shared.generation(&mut w) == 4);
    assert!(rt; shared.add_swept(&mut w, 7) == 0 && shared.add_swept(&mut driver, 5) == 7);
    assert!(rt; shared.swept(&mut w) == 12);
    assert!(rt; shared.add_spent(&mut w, 8192) == 0 && shared.add_spent(&mut w, u64::MAX) == 8192);
    assert!(rt; shared.spent(&mut driver) == 8191);
    assert!(rt; shared.claim_chunk(&mut w) == 0 && shared.claim_chunk(&mut driver) == 1);
    shared.take_in(&mut driver, w);
    assert!(rt; shared.generation(&mut driver) == 4);
    Ok(())
}

#[test]
fn the_driver_learns_the_journal_and_closes(rt: HostRuntime) -> Result<(), Fail> {
    let alloc = rt.alloc();
    let (shared, mut driver) = Shared::new(alloc, 1, 3, 0)?;
    assert!(rt; shared.region(&driver) == 512 && shared.goal(&driver) == 3);
    let Ok(Some(body)) = shared.try_span(&rt, &mut driver, 5, 0) else {
        panic!(rt; "a run is free")
    };
    assert!(rt; body.page == 0);
    let Ok(step) = shared.scavenge_step(&rt, &mut driver) else {
        panic!(rt; "there is memory")
    };
    assert!(rt; step.run.is_none() && step.backed == 5);
    assert!(rt; shared.pages_taken(&rt, &mut driver) == 5);
    shared.learn_journal(&mut driver);
    let lines = shared.journal_copy(alloc, &mut driver)?;
    assert!(rt; lines.len() == 1);
    assert!(rt;
        lines.as_slice()[0]
            == Line::Take {
                cycle: 0,
                page: 0,
                pages: 5,
                class: 0
            }
    );
    let pages = shared.close(driver);
    assert!(rt; pages.taken() == 5 && pages.journal().len() == 1);
    Ok(())
}
