ghost use Rattle.std.specs.Prelude.{◌≡◌, ◌<◌, IfOk, Some, false, true};
ghost use Rattle.sweep_laws.specs.Reading.{is_swept_set};
ghost use Rattle.span_laws.specs.Asks.{IsAtWork};
ghost use Rattle.span_table_tests.specs.Claims.{KeepsClaim};
ghost use Rattle.span_table_tests.specs.Rows.{HoldsLarge, IsReady};

use crate::turns::LARGE;
use fallible_list::NoMemory;
use span_set::{Claim, Pop, SetId, claim, pop_swept, push};
use span_state::Body;
use span_table::{Acquired, Refused, Shared, Uncached, Worker};
use std::sync::Wait;

// Takes a large span of so many pages, at least five, and places its one object.
pub(crate) fn large<R: Wait>(
    rt: &R,
    shared: &Shared,
    w: &mut Worker,
    pages: u32,
) -> Result<Body, Refused>
    requires ready { IsReady shared.now w.old }
    ensures ready { IsReady shared.now w.new }
    ensures body { IfOk result (λ b. HoldsLarge w.new b) }
{
    let mut body = match shared.take_span(rt, w, pages.max(5), 0) {
        Ok(body) => body,
        Err(refused) => return Err(refused),
    };
    shared.note_alloc(w, &mut body, 0);
    Ok(body)
}

// Claims a cell of the full set for a large span.
pub(crate) fn claim_large(shared: &Shared, w: &mut Worker, body: Body) -> Claim
    // the worker with the span
    requires ready { IsReady shared.now w.old }
    requires body { HoldsLarge w.old body }

    // what stays
    ensures table { w.new.table ≡ w.old.table }
    ensures number { w.new.number ≡ w.old.number }
    ensures away { w.new.away ≡ w.old.away }
    ensures generation { w.new.view.generation ≡ w.old.view.generation }

    // what is claimed
    ensures claimed { w.new.view.own.claimed ≡ Some (record { set = result.set; index = result.index; page = result.page }) }
{
    claim(shared, w, LARGE, body)
}

// Pushes a large span to the full set.
pub(crate) fn push_large(shared: &Shared, w: &mut Worker, body: Body)
    requires ready { IsReady shared.now w.old }
    requires body { HoldsLarge w.old body }
    ensures { IsReady shared.now w.new }
{
    push(shared, w, LARGE, body);
}

// Pops a swept set, which leaves the worker's claim.
pub(crate) fn pop(shared: &Shared, w: &mut Worker, set: SetId) -> Pop
    requires works { IsAtWork shared.now w.old }
    requires class { set.class < 136 }
    ensures { KeepsClaim w.old w.new }
{
    pop_swept(shared, w, set)
}

// Raises the head of a swept set, where head and tail are these, by the page in the cell at that head. Answers the page that was popped,
// or the head and the tail that were found.
fn raise_swept(
    shared: &Shared,
    w: &mut Worker,
    set: u32,
    head: u32,
    tail: u32,
) -> Result<Result<u32, (u32, u32)>, NoMemory>
    requires ready { IsReady shared.now w.old }
    requires set { set < 544 }
    requires part { is_swept_set w.old.view.generation set ≡ true }
    ensures { IsReady shared.now w.new }
{
    let cell = shared.look_cell(w, set, head);
    if cell == 0 {
        return Err(NoMemory);
    }
    if head >= tail {
        return Err(NoMemory);
    }
    let page = (cell - 1) as u32;
    match shared.raise_swept(w, set, head, tail, page) {
        Ok(body) => Ok(Ok(body.page)),
        Err(found) => Ok(Err(found)),
    }
}

// The same of an unswept set.
fn raise_unswept(
    shared: &Shared,
    w: &mut Worker,
    set: u32,
    head: u32,
    tail: u32,
) -> Result<Result<u32, (u32, u32)>, NoMemory>
    requires ready { IsReady shared.now w.old }
    requires set { set < 544 }
    requires part { is_swept_set w.old.view.generation set ≡ false }
    ensures { IsReady shared.now w.new }
{
    let cell = shared.look_cell(w, set, head);
    if cell == 0 {
        return Err(NoMemory);
    }
    if head >= tail {
        return Err(NoMemory);
    }
    let page = (cell - 1) as u32;
    match shared.raise_unswept(w, set, head, tail, page) {
        Ok(()) => Ok(Ok(page)),
        Err(found) => Ok(Err(found)),
    }
}

// Whether a set is of the swept part.
fn is_swept(shared: &Shared, w: &mut Worker, set: u32) -> bool
    requires ready { IsReady shared.now w.old }
    ensures ready { IsReady shared.now w.new }
    ensures part { is_swept_set w.new.view.generation set ≡ result }
{
    u64::from(set % 2) == shared.generation(w) / 2 % 2
}

// The same of either.
pub(crate) fn raise(
    shared: &Shared,
    w: &mut Worker,
    set: u32,
    head: u32,
    tail: u32,
) -> Result<Result<u32, (u32, u32)>, NoMemory>
    requires ready { IsReady shared.now w.old }
    requires set { set < 544 }
    ensures { IsReady shared.now w.new }
{
    if is_swept(shared, w, set) {
        return raise_swept(shared, w, set, head, tail);
    }
    raise_unswept(shared, w, set, head, tail)
}

// Resets an unswept set that is seen empty; else its head and tail.
pub(crate) fn reset(
    shared: &Shared,
    w: &mut Worker,
    set: u32,
) -> Result<Option<(u32, u32)>, NoMemory>
    requires ready { IsReady shared.now w.old }
    requires set { set < 544 }
    ensures { IsReady shared.now w.new }
{
    if is_swept(shared, w, set) {
        return Err(NoMemory);
    }
    let (head, tail) = shared.look(w, set);
    if head != tail {
        return Ok(Some((head, tail)));
    }
    shared.reset_set(w, set);
    Ok(None)
}

// The word that an acquire of a page finds.
pub(crate) fn found(shared: &Shared, w: &mut Worker, page: u32) -> Option<u64>
    requires ready { IsReady shared.now w.old }
    requires low { page < w.old.view.region }
    ensures { IsReady shared.now w.new }
{
    match shared.acquire(w, page) {
        Acquired::Got(_) => None,
        Acquired::Other(word) => Some(word),
    }
}

// Takes a large span of so many pages, at least five, caches it, and takes it out: the word while it was cached, and what the way out
// answers.
pub(crate) fn cached<R: Wait>(
    rt: &R,
    shared: &Shared,
    w: &mut Worker,
    pages: u32,
) -> Result<(u64, Uncached), NoMemory>
    requires ready { IsReady shared.now w.old }
    ensures { IsReady shared.now w.new }
{
    let Ok(body) = shared.take_span(rt, w, pages.max(5), 0) else {
        return Err(NoMemory);
    };
    shared.mark_cached(w, &body);
    if body.page >= shared.region(w) {
        return Err(NoMemory);
    }
    let Acquired::Other(word) = shared.acquire(w, body.page) else {
        return Err(NoMemory);
    };
    Ok((word, shared.uncache(w, &body)))
}
