ghost use Rattle.std.specs.Prelude.{◌≡◌, ℕ, ◌*◌, ◌<◌, ◌≤◌, [], ◌∷◌, IfOk, OnOk, length};
ghost use Rattle.span_state.specs.Spans.{IsSameSpan, allocated};
ghost use Rattle.span_laws.specs.Asks.{IsAtWork};
ghost use Rattle.span_table_tests.specs.Rows.{ArePlaced, HasPlaced, HasTurned, IsFreeDriver, KeepsCached, KeepsPlaced, SeesEmpty};

use fallible_list::NoMemory;
use size_classes::MAX_CHUNKS;
use span_set::{SetId, claim, fill, push, reset};
use span_state::{Body, Marks};
use span_table::{Acquired, Shared, Worker};
use std::alloc::Global;
use std::sync::Wait;

/// The full set of large spans.
pub const LARGE: SetId = SetId {
    class: 0,
    full: true,
};

/// A region of so many chunks with this goal for backed pages, and the driver's worker.
pub fn start(alloc: Global, chunks: u32, goal: u32) -> Result<(Shared, Worker), NoMemory>
    // the chunks
    requires some { 1 ≤ chunks }
    requires few { chunks ≤ MAX_CHUNKS }

    // the driver, which is free
    ensures free { IfOk result (λ made. IsFreeDriver made.0 made.1) }

    // what the driver sees
    ensures generation { IfOk result (λ made. made.1.view.generation ≡ 4) }
    ensures region { IfOk result (λ made. made.1.view.region ≡ 512 * chunks) }
    ensures marks { IfOk result (λ made. made.1.view.marks ≡ []) }
    ensures uncached { IfOk result (λ made. made.1.view.own.cached ≡ []) }
{
    let (shared, w) = Shared::new(alloc, chunks, goal, 0)?;
    Ok((shared, w))
}

/// Takes a large span of so many pages, places its object and pushes it to the full set. Answers its page.
pub fn place<R: Wait>(rt: &R, shared: &Shared, w: &mut Worker, pages: u32) -> Result<u32, NoMemory>
    // the driver
    requires free { IsFreeDriver shared.now w.old }

    // the span
    requires large { 5 ≤ pages }

    // the driver behind it
    ensures free { OnOk result (IsFreeDriver shared.now w.new) }

    // what is placed
    ensures placed { IfOk result (λ page. HasPlaced page w.new) }
    ensures others { OnOk result (KeepsPlaced w.old w.new) }

    // what stays
    ensures generation { OnOk result (w.new.view.generation ≡ w.old.view.generation) }
    ensures region { OnOk result (w.new.view.region ≡ w.old.view.region) }
{
    let Ok(mut body) = shared.take_span(rt, w, pages, 0) else {
        return Err(NoMemory);
    };
    shared.note_alloc(w, &mut body, 0);
    let page = body.page;
    let claim = claim(shared, w, LARGE, body);
    fill(shared, w, claim);
    Ok(page)
}

// Whether the worker sees all unswept sets empty.
pub(crate) fn sees_all_empty(shared: &Shared, w: &mut Worker) -> bool
    requires works { IsAtWork shared.now w.old }
    ensures { SeesEmpty w.old w.new result }
{
    let part = (shared.generation(w) / 2 % 2) as u32;
    for set in 0..544 {
        if set % 2 != part {
            let (head, tail) = shared.look(w, set);
            if head != tail {
                return false;
            }
        }
    }
    true
}

/// Ends the first mark phase with these marks, where nothing is left to sweep.
pub fn turn(shared: &Shared, w: &mut Worker, marks: &Marks) -> Result<(), NoMemory>
    requires free { IsFreeDriver shared.now w.old }
    requires generation { w.old.view.generation ≡ 4 }
    requires placed { ArePlaced marks.now.pairs w.old }
    ensures turned { OnOk result (HasTurned shared.now marks.now.pairs w.new) }
    ensures region { OnOk result (w.new.view.region ≡ w.old.view.region) }
    ensures kept { OnOk result (KeepsCached w.old w.new) }
{
    if !sees_all_empty(shared, w) {
        return Err(NoMemory);
    }
    reset(shared, w);
    shared.end_cycle(w);
    shared.next_generation(w, marks);
    Ok(())
}

// The mark of the first object of the page.
fn one_mark(alloc: Global, page: u32) -> Result<Marks, NoMemory>
    ensures { IfOk result (λ marks. marks.pairs ≡ (page, 0) ∷ []) }
{
    let mut marks = Marks::empty(alloc);
    marks.add(page, 0)?;
    Ok(marks)
}

/// Ends the first mark phase, where the first object of the page alone is marked.
pub fn turn_one(alloc: Global, shared: &Shared, w: &mut Worker, page: u32) -> Result<(), NoMemory>
    requires free { IsFreeDriver shared.now w.old }
    requires generation { w.old.view.generation ≡ 4 }
    requires placed { HasPlaced page w.old }
    ensures turned { OnOk result (HasTurned shared.now ((page, 0) ∷ []) w.new) }
    ensures region { OnOk result (w.new.view.region ≡ w.old.view.region) }
{
    if !sees_all_empty(shared, w) {
        return Err(NoMemory);
    }
    reset(shared, w);
    shared.end_cycle(w);
    let marks = one_mark(alloc, page)?;
    shared.next_generation(w, &marks);
    Ok(())
}

// The body with its free index at the start.
fn from_start(body: Body) -> Body
    ensures same { IsSameSpan body result }
    ensures bits { (k : ℕ) → allocated result k ≡ allocated body k }
    ensures next { result.next ≡ 0 }
{
    let mut body = body;
    body.next = 0;
    body
}

/// Sweeps the span of the page, whose first object alone is marked, and pushes it to the full set.
pub fn sweep(shared: &Shared, w: &mut Worker, page: u32) -> Result<(), NoMemory>
    requires turned { HasTurned shared.now ((page, 0) ∷ []) w.old }
    requires low { page < w.old.view.region }
    ensures works { IsAtWork shared.now w.new }
    ensures driver { w.new.number ≡ 69 }
    ensures parts { OnOk result (1 < length w.new.view.parts) }
{
    let Acquired::Got(body) = shared.acquire(w, page) else {
        return Err(NoMemory);
    };
    if body.class != 0 || body.count != 1 {
        return Err(NoMemory);
    }
    let body = from_start(body);
    shared.release_swept(w, &body);
    push(shared, w, LARGE, body);
    Ok(())
}
