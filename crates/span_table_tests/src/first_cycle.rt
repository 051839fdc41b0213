//! What the tests put together from single steps, in the first cycle.

ghost use Rattle.std.specs.Prelude.{◌≡◌, ◌<◌, [], ◌∷◌, false, IfOk, IfSome};
ghost use Rattle.sweep_laws.specs.Lists.{has};
ghost use Rattle.span_table_tests.specs.FirstCycle.{Holds, HoldsPlaced, IsFirstDriver, IsUnclaimed};

use fallible_list::NoMemory;
use span_state::Body;
use span_table::{Refused, Shared, Uncached, Worker};
use std::alloc::Global;
use std::sync::Wait;

// The index of the full swept set of large spans, in the first cycle.
pub(crate) const LARGE_SET: u32 = 2;

// A region of one chunk with this goal for backed pages, and the driver.
pub(crate) fn start(alloc: Global, goal: u32) -> Result<(Shared, Worker), NoMemory>
    ensures { IfOk result (λ made. IsFirstDriver made.0 made.1 × (made.1.away ≡ [])) }
{
    let (shared, driver) = Shared::new(alloc, 1, goal, 0)?;
    Ok((shared, driver))
}

// The first driver hands out a worker.
pub(crate) fn worker(shared: &Shared, driver: &mut Worker, number: u32) -> Worker
    requires first { IsFirstDriver shared.now driver.old }
    requires number { number < 69 }
    requires home { has number driver.old.away ≡ false }
    ensures first { IsFirstDriver shared.now driver.new }
    ensures away { driver.new.away ≡ number ∷ driver.old.away }
    ensures ready { IsUnclaimed shared.now result }
{
    shared.hand_out(driver, number)
}

// Takes a large span of five pages, and places its one object.
pub(crate) fn large<R: Wait>(rt: &R, shared: &Shared, w: &mut Worker) -> Result<Body, Refused>
    requires { IsUnclaimed shared.now w.old }
    ensures ready { IsUnclaimed shared.now w.new }
    ensures body { IfOk result (λ b. HoldsPlaced w.new b) }
{
    let mut body = match shared.take_span(rt, w, 5, 0) {
        Ok(body) => body,
        Err(refused) => return Err(refused),
    };
    shared.note_alloc(w, &mut body, 0);
    Ok(body)
}

// Pushes a large span to the full set: it claims an index, and fills the cell. Answers the index.
pub(crate) fn push(shared: &Shared, w: &mut Worker, body: Body) -> u32
    requires ready { IsUnclaimed shared.now w.old }
    requires body { HoldsPlaced w.old body }
    ensures { IsUnclaimed shared.now w.new }
{
    let page = body.page;
    let index = shared.claim_index(w, LARGE_SET, body);
    shared.fill_cell(w, LARGE_SET, index, page);
    index
}

// Pops a large span from the full set, where it has one.
pub(crate) fn pop(shared: &Shared, w: &mut Worker) -> Option<Body>
    requires { IsUnclaimed shared.now w.old }
    ensures ready { IsUnclaimed shared.now w.new }
    ensures body { IfSome result (λ b. Holds w.new b) }
{
    let (head, tail) = shared.look(w, LARGE_SET);
    if head >= tail {
        return None;
    }
    let cell = shared.look_cell(w, LARGE_SET, head);
    if cell == 0 {
        return None;
    }
    let page = (cell - 1) as u32;
    match shared.raise_swept(w, LARGE_SET, head, tail, page) {
        Ok(body) => Some(body),
        Err(_) => None,
    }
}

// A span that the worker holds goes into its cache and leaves it.
pub(crate) fn through_cache(shared: &Shared, w: &mut Worker, body: &Body) -> Uncached
    requires ready { IsUnclaimed shared.now w.old }
    requires body { Holds w.old body.now }
    ensures { IsUnclaimed shared.now w.new }
{
    shared.mark_cached(w, body);
    shared.uncache(w, body)
}
