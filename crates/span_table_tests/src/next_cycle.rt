ghost use Rattle.std.specs.Prelude.{◌≡◌, ◌<◌, [], IfOk, OnOk, length};
ghost use Rattle.span_laws.specs.Asks.{IsAtWork};
ghost use Rattle.span_table_tests.specs.Rows.{HasCached, HasTurned, IsFreeDriver};

use crate::turns::{LARGE, place, sees_all_empty, sweep, turn, turn_one};
use fallible_list::NoMemory;
use span_set::{PopBase, pop_unswept, reset};
use span_state::{Body, Marks};
use span_table::{Acquired, Shared, Uncached, Worker};
use std::alloc::Global;
use std::sync::Wait;

// Takes a large span, caches it, and places its object.
fn cached<R: Wait>(rt: &R, shared: &Shared, w: &mut Worker) -> Result<Body, NoMemory>
    requires free { IsFreeDriver shared.now w.old }
    requires none { w.old.view.own.cached ≡ [] }
    ensures free { OnOk result (IsFreeDriver shared.now w.new) }
    ensures generation { OnOk result (w.new.view.generation ≡ w.old.view.generation) }
    ensures cached { IfOk result (λ b. HasCached w.new b) }
{
    let Ok(mut body) = shared.take_span(rt, w, 5, 0) else {
        return Err(NoMemory);
    };
    shared.mark_cached(w, &body);
    shared.note_alloc(w, &mut body, 0);
    Ok(body)
}

// The word of a cached span, and what its way out answers.
fn uncached(shared: &Shared, w: &mut Worker, body: &Body) -> Result<(u64, Uncached), NoMemory>
    requires works { IsAtWork shared.now w.old }
    requires body { HasCached w.old body.now }
{
    if body.page >= shared.region(w) {
        return Err(NoMemory);
    }
    let Acquired::Other(word) = shared.acquire(w, body.page) else {
        return Err(NoMemory);
    };
    Ok((word, shared.uncache(w, body)))
}

// A span stays cached over a mark end: its word then, and what its way out answers.
pub(crate) fn stale<R: Wait>(
    rt: &R,
    alloc: Global,
    shared: &Shared,
    w: &mut Worker,
) -> Result<(u64, Uncached), NoMemory>
    requires free { IsFreeDriver shared.now w.old }
    requires generation { w.old.view.generation ≡ 4 }
    requires none { w.old.view.own.cached ≡ [] }
{
    let body = cached(rt, shared, w)?;
    turn(shared, w, &Marks::empty(alloc))?;
    uncached(shared, w, &body)
}

// The word that an acquire of a page finds; none where the span waits.
fn word_at(shared: &Shared, w: &mut Worker, page: u32) -> Result<Option<u64>, NoMemory>
    requires works { IsAtWork shared.now w.old }
    ensures works { IsAtWork shared.now w.new }
{
    if page >= shared.region(w) {
        return Err(NoMemory);
    }
    match shared.acquire(w, page) {
        Acquired::Got(_) => Ok(None),
        Acquired::Other(word) => Ok(Some(word)),
    }
}

// The same for worker 1.
fn word_of_other(shared: &Shared, w: &mut Worker, page: u32) -> Result<Option<u64>, NoMemory>
    requires works { IsAtWork shared.now w.old }
    requires driver { w.old.number ≡ 69 }
    requires parts { 1 < length w.old.view.parts }
{
    let mut other = shared.hand_out(w, 1);
    word_at(shared, &mut other, page)
}

// The word that an acquire of a page of the region finds; none where the span waits.
fn word_found(shared: &Shared, w: &mut Worker, page: u32) -> Option<u64>
    requires table { w.old.table ≡ shared.now }
    requires low { page < w.old.view.region }
    ensures table { w.new.table ≡ shared.now }
    ensures caching { w.new.caching ≡ w.old.caching }
{
    match shared.acquire(w, page) {
        Acquired::Got(_) => None,
        Acquired::Other(word) => Some(word),
    }
}

// The same for workers 1 and 2, which are out at the same time and come back with what they have.
fn words_of_two(shared: &Shared, w: &mut Worker, page: u32) -> (Option<u64>, Option<u64>)
    requires works { IsAtWork shared.now w.old }
    requires driver { w.old.number ≡ 69 }
    requires parts { 2 < length w.old.view.parts }
    requires low { page < w.old.view.region }
{
    let mut one = shared.hand_out(w, 1);
    let mut two = shared.hand_out(w, 2);
    let words = (
        word_found(shared, &mut one, page),
        word_found(shared, &mut two, page),
    );
    shared.take_in(w, one);
    shared.take_in(w, two);
    words
}

// Two workers acquire the page of one span that waits behind a mark end: the words that they find.
pub(crate) fn met<R: Wait>(
    rt: &R,
    alloc: Global,
    shared: &Shared,
    w: &mut Worker,
) -> Result<(Option<u64>, Option<u64>), NoMemory>
    requires free { IsFreeDriver shared.now w.old }
    requires generation { w.old.view.generation ≡ 4 }
{
    let page = place(rt, shared, w, 5)?;
    turn_one(alloc, shared, w, page)?;
    if page >= shared.region(w) {
        return Err(NoMemory);
    }
    Ok(words_of_two(shared, w, page))
}

// The driver sweeps a span behind a mark end, and worker 1 acquires its page: the page, and the word that is found.
pub(crate) fn swept<R: Wait>(
    rt: &R,
    alloc: Global,
    shared: &Shared,
    w: &mut Worker,
) -> Result<(u32, Option<u64>), NoMemory>
    requires free { IsFreeDriver shared.now w.old }
    requires generation { w.old.view.generation ≡ 4 }
{
    let page = place(rt, shared, w, 5)?;
    turn_one(alloc, shared, w, page)?;
    if page >= shared.region(w) {
        return Err(NoMemory);
    }
    sweep(shared, w, page)?;
    Ok((page, word_of_other(shared, w, page)?))
}

// Sweeps the span of a page, in which nothing is marked, and gives it back.
fn give<R: Wait>(
    rt: &R,
    alloc: Global,
    shared: &Shared,
    w: &mut Worker,
    page: u32,
) -> Result<(), NoMemory>
    requires turned { HasTurned shared.now [] w.old }
    requires low { page < w.old.view.region }
    ensures works { IsAtWork shared.now w.new }
    ensures region { w.new.view.region ≡ w.old.view.region }
{
    let Acquired::Got(body) = shared.acquire(w, page) else {
        return Err(NoMemory);
    };
    let mut body = body;
    body.sweep(&Marks::empty(alloc));
    shared.release_swept(w, &body);
    shared.give_span(rt, w, body);
    Ok(())
}

// What a span's way back to the heap showed.
#[derive(Clone, Copy, Debug, PartialEq, Eq)]
pub(crate) struct Returned {
    // Its first page, and that of the next span of as many pages.
    pub page: u32,
    pub next: u32,
    // The pages of spans before and behind.
    pub before: u32,
    pub behind: u32,
    // The word of its page behind.
    pub word: Option<u64>,
}

// A large span is swept with nothing kept behind a mark end, and given back.
pub(crate) fn given<R: Wait>(
    rt: &R,
    alloc: Global,
    shared: &Shared,
    w: &mut Worker,
) -> Result<Returned, NoMemory>
    requires free { IsFreeDriver shared.now w.old }
    requires generation { w.old.view.generation ≡ 4 }
{
    let page = place(rt, shared, w, 5)?;
    turn(shared, w, &Marks::empty(alloc))?;
    if page >= shared.region(w) {
        return Err(NoMemory);
    }
    let before = shared.pages_taken(rt, w);
    give(rt, alloc, shared, w, page)?;
    let behind = shared.pages_taken(rt, w);
    let word = word_at(shared, w, page)?;
    let Ok(body) = shared.take_span(rt, w, 5, 0) else {
        return Err(NoMemory);
    };
    Ok(Returned {
        page,
        next: body.page,
        before,
        behind,
        word,
    })
}

// Behind a mark end the one entry of the unswept full set of large spans is popped, and all unswept sets are reset: what was popped,
// and what the set shows then.
pub(crate) fn popped_and_reset<R: Wait>(
    rt: &R,
    alloc: Global,
    shared: &Shared,
    w: &mut Worker,
) -> Result<(PopBase, PopBase), NoMemory>
    requires free { IsFreeDriver shared.now w.old }
    requires generation { w.old.view.generation ≡ 4 }
{
    place(rt, shared, w, 5)?;
    turn(shared, w, &Marks::empty(alloc))?;
    let popped = pop_unswept(shared, w, LARGE);
    if !sees_all_empty(shared, w) {
        return Err(NoMemory);
    }
    reset(shared, w);
    Ok((popped, pop_unswept(shared, w, LARGE)))
}

// Behind a mark end that marks the first of two large spans alone: the page of the span that is acquired, of those without a mark, where
// none is before the second span.
pub(crate) fn unmarked<R: Wait>(
    rt: &R,
    alloc: Global,
    shared: &Shared,
    w: &mut Worker,
) -> Result<Option<u32>, NoMemory>
    requires free { IsFreeDriver shared.now w.old }
    requires generation { w.old.view.generation ≡ 4 }
{
    let first = place(rt, shared, w, 5)?;
    let second = place(rt, shared, w, 5)?;
    let mut marks = Marks::empty(alloc);
    marks.add(first, 0)?;
    turn(shared, w, &marks)?;
    let region = shared.region(w);
    if second >= region {
        return Err(NoMemory);
    }
    let None = shared.acquire_unmarked(w, &marks, 0, second) else {
        return Err(NoMemory);
    };
    match shared.acquire_unmarked(w, &marks, 0, region) {
        Some(body) => Ok(Some(body.page)),
        None => Ok(None),
    }
}

// Behind a mark end, where one full large span waits: the place of the first unswept set with an entry, and of the next one behind it.
pub(crate) fn unswept<R: Wait>(
    rt: &R,
    alloc: Global,
    shared: &Shared,
    w: &mut Worker,
) -> Result<(Option<u32>, Option<u32>), NoMemory>
    requires free { IsFreeDriver shared.now w.old }
    requires generation { w.old.view.generation ≡ 4 }
{
    place(rt, shared, w, 5)?;
    turn(shared, w, &Marks::empty(alloc))?;
    let first = shared.next_unswept(w, 0);
    Ok((first, shared.next_unswept(w, 1)))
}
