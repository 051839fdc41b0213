ghost use Rattle.std.specs.Prelude.{◌≡◌, ◌<◌, ◌≤◌, length, true, None};
ghost use Rattle.span_laws.specs.Asks.{IsAtWork};
ghost use Rattle.page_bitmap.specs.Counts.{one_if};
ghost use Rattle.worker_log.specs.SetNumbers.{swept_set};
ghost use Rattle.worker_log.specs.Entries.{is_pop_of, many};
ghost use Rattle.span_set.specs.Asks.{WorksIn};
ghost use Rattle.span_set.specs.Sweeps.{MaySweep};
ghost use Rattle.span_set.specs.Tallies.{Frees, MayCount};
ghost use Rattle.central_lists.specs.Lists.{Caches, LooksFirst};
ghost use Rattle.central_lists.specs.Tries.{Searches, SweepsOne, TriesAll, TriesOne};

use crate::answers::{FromSets, Look, Search, Tried};
use crate::glances::{sees_empty, sees_none};
use fallible_list::NoMemory;
use span_laws::Acquired;
use span_set::{Hand, Pop, PopBase, SetId, Shop, pop_swept, pop_unswept, push, sweep_in_hand};
use span_state::Body;

// The most entries that one call pops from unswept sets.
const TRIES: u32 = 100;

/// A span of a class, from 0 to 135, for a cache: the worker holds it, and it has a free index. First the swept partial set is
/// looked into; then entries of the unswept partial set are popped, and each span that waits for its sweep is swept; then
/// those of the unswept full set, where a span that stays full is pushed to the swept full set (`mcentral.go`, `cacheSpan`). In all at
/// most 100 entries of unswept sets are popped, those of spans that were swept or taken meanwhile among them.
///
/// `NeedFresh` comes only where the swept partial set was seen as it says, and then both unswept sets were seen empty or `tried` is
/// 100. `NoMemory` comes only where a note of a sweep found no memory: what was swept and pushed before stands, and the worker holds
/// no span more.
pub fn cache_span(shop: &Shop, hand: &mut Hand, class: u8) -> Result<FromSets, NoMemory>
    requires works { WorksIn shop.now hand.old }
    requires unclaimed { hand.old.worker.view.own.claimed ≡ None }
    requires class { class < 136 }
    ensures caches { Caches hand.old.worker.view.generation class hand.old hand.new result }
    ensures tally { Frees shop.now.marks.now hand.old hand.new }
{
    match sees_none(shop, hand, class) {
        Some(at) => Ok(FromSets::NeedFresh {
            swept: Look::Empty { at },
            tried: 0,
        }),
        None => search_sets(shop, hand, class),
    }
}

// The same where a set was not seen empty. It stands alone, so that a call that finds them all empty has no place for a body.
#[inline(never)]
fn search_sets(shop: &Shop, hand: &mut Hand, class: u8) -> Result<FromSets, NoMemory>
    requires works { WorksIn shop.now hand.old }
    requires unclaimed { hand.old.worker.view.own.claimed ≡ None }
    requires class { class < 136 }
    ensures caches { Caches hand.old.worker.view.generation class hand.old hand.new result }
    ensures tally { Frees shop.now.marks.now hand.old hand.new }
{
    match look_first(shop, hand, class) {
        Ok(body) => Ok(FromSets::SweptPartial(body)),
        Err(swept) => match search_unswept(shop, hand, class) {
            Ok(Search::Found(body)) => Ok(FromSets::SweptHere(body)),
            Ok(Search::NotFound(tried)) => Ok(FromSets::NeedFresh { swept, tried }),
            Err(NoMemory) => Err(NoMemory),
        },
    }
}

// Looks into the swept partial set.
fn look_first(shop: &Shop, hand: &mut Hand, class: u8) -> Result<Body, Look>
    requires works { IsAtWork shop.now.shared.now hand.old.worker }
    requires class { class < 136 }
    ensures looks { LooksFirst hand.old.worker.view.generation class hand.old hand.new result }
    ensures tally { Frees shop.now.marks.now hand.old hand.new }
{
    match pop_swept(shop.shared, &mut hand.worker, SetId { class, full: false }) {
        Pop::Taken(body) => Ok(body),
        Pop::Empty { head, .. } => Err(Look::Empty { at: head }),
        Pop::NotYet { head } => Err(Look::NotYet { at: head }),
    }
}

// Goes through the unswept sets of the class, the partial one first.
fn search_unswept(shop: &Shop, hand: &mut Hand, class: u8) -> Result<Search, NoMemory>
    requires works { WorksIn shop.now hand.old }
    requires unclaimed { hand.old.worker.view.own.claimed ≡ None }
    requires class { class < 136 }
    ensures searches { Searches hand.old.worker.view.generation class hand.old hand.new result }
    ensures tally { Frees shop.now.marks.now hand.old hand.new }
{
    match look_through(shop, hand, class, false, 0) {
        Ok(Search::NotFound(tried)) if tried < TRIES => {
            look_through(shop, hand, class, true, tried)
        }
        found => found,
    }
}

// Pops entries of an unswept set until a span is kept, none is left, or there were a hundred with those before. Most sets are empty, which
// one look tells.
fn look_through(
    shop: &Shop,
    hand: &mut Hand,
    class: u8,
    full: bool,
    before: u32,
) -> Result<Search, NoMemory>
    requires works { WorksIn shop.now hand.old }
    requires unclaimed { hand.old.worker.view.own.claimed ≡ None }
    requires class { class < 136 }
    requires before { before ≤ 100 }
    ensures tries { TriesAll hand.old.worker.view.generation class (one_if full) before hand.old hand.new result }
    ensures tally { Frees shop.now.marks.now hand.old hand.new }
{
    if sees_empty(shop, hand, class, full) {
        return Ok(Search::NotFound(before));
    }
    try_all(shop, hand, class, full, before)
}

// The same of a set that had an entry.
#[inline(never)]
fn try_all(
    shop: &Shop,
    hand: &mut Hand,
    class: u8,
    full: bool,
    before: u32,
) -> Result<Search, NoMemory>
    requires works { WorksIn shop.now hand.old }
    requires unclaimed { hand.old.worker.view.own.claimed ≡ None }
    requires class { class < 136 }
    requires before { before ≤ 100 }
    ensures tries { TriesAll hand.old.worker.view.generation class (one_if full) before hand.old hand.new result }
    ensures tally { Frees shop.now.marks.now hand.old hand.new }
{
    let mut tried = before;
    while tried < TRIES {
        match try_one(shop, hand, class, full)? {
            Tried::Empty => return Ok(Search::NotFound(tried)),
            Tried::Gone => tried += 1,
            Tried::Kept(body) => return Ok(Search::Found(body)),
        }
    }
    Ok(Search::NotFound(TRIES))
}

// Pops one entry of an unswept set, and sweeps its span where that waits for its sweep.
fn try_one(shop: &Shop, hand: &mut Hand, class: u8, full: bool) -> Result<Tried, NoMemory>
    requires works { WorksIn shop.now hand.old }
    requires unclaimed { hand.old.worker.view.own.claimed ≡ None }
    requires class { class < 136 }
    ensures tries { TriesOne hand.old.worker.view.generation class (one_if full) hand.old hand.new result }
    ensures tally { Frees shop.now.marks.now hand.old hand.new }
{
    hand.reserve_note()?;
    match pop_unswept(shop.shared, &mut hand.worker, SetId { class, full }) {
        PopBase::Empty { .. } => Ok(Tried::Empty),
        PopBase::Popped(page) => match shop.shared.acquire(&mut hand.worker, page) {
            Acquired::Other(_) => Ok(Tried::Gone),
            Acquired::Got(body) => match sweep_one(shop, hand, class, body) {
                Some(body) => Ok(Tried::Kept(body)),
                None => Ok(Tried::Gone),
            },
        },
    }
}

// Sweeps a span of the class that the worker acquired: it is kept where it has a free index, else it goes to the full set.
fn sweep_one(shop: &Shop, hand: &mut Hand, class: u8, body: Body) -> Option<Body>
    // the hand works in the shop, and has room
    requires works { IsAtWork shop.now.shared.now hand.old.worker }
    requires counts { MayCount shop.now.ring.now shop.now.marks.now hand.old.tally }
    requires unclaimed { hand.old.worker.view.own.claimed ≡ None }
    requires room { length hand.old.notes.items < hand.old.notes.space }

    // the span
    requires may { MaySweep shop.now.marks.now body hand.old.worker }
    requires class { class < 136 }
    requires of_class { body.class ≡ class }
    requires unpopped { many (is_pop_of (swept_set hand.old.worker.view.generation class 1) body.page) hand.old.worker.view.own.log ≡ 0 }

    // what was done
    ensures sweeps { SweepsOne shop.now.marks.now class body hand.old hand.new result }
    ensures tally { Frees shop.now.marks.now hand.old hand.new }
{
    let mut body = body;
    sweep_in_hand(shop, hand, &mut body);
    if body.next_free().is_some() {
        return Some(body);
    }
    push(
        shop.shared,
        &mut hand.worker,
        SetId { class, full: true },
        body,
    );
    None
}
