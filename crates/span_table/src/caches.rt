//! The end of a sweep, and the cache of a worker: stores in the word of a page that the worker has. No slot moves.
ghost use Rattle.std.specs.Prelude.{◌≡◌, ℕ, ◌+◌, ◌<◌, ◌==◌, true, false, None};
ghost use Rattle.sweep_laws.specs.Lists.{has};
ghost use Rattle.span_state.specs.MarkSet.{has_pair};
ghost use Rattle.span_state.specs.Bits.{bit_of};
ghost use Rattle.span_laws.specs.Answers.{UncachesSpan};
ghost use Rattle.span_laws.specs.Asks.{HasBody, HasSpan, IsUntouched};
ghost use Rattle.span_laws.specs.BodyAsks.{HasMarked, HasMarks};
ghost use Rattle.span_laws.specs.Views.{span_of};
ghost use Rattle.span_table.specs.Asks.{IsInside, IsOfRegion};
ghost use Rattle.span_laws.specs.OwnSteps.{after_of, after_said};
ghost use Rattle.span_table.specs.Seats.{says, says_of};

use crate::plays::{Cache, Check, Numbered, OfSpan, ReadCache, Release, Uncache, UncacheStale};
use crate::shared::{Shared, Worker};
use crate::view::{Item, SeatView};
use crate::words::word_of_page;
use atomic_table::Seat;
use span_laws::{Said, SaidOf, Uncached};
use span_state::Body;
use std::marker::Brand;

// The worker is told that the pages of its part are of the region.
pub(crate) fn check(shared: &Shared, seat: &mut Seat<Item, SeatView>)
    requires table { seat.old.table_id ≡ shared.now }
    requires out { seat.old.me.0.out ≡ true }
    ensures table { seat.new.table_id ≡ seat.old.table_id }
    ensures view { seat.new.me ≡ seat.old.me }
    ensures inside { IsInside seat.old.me.0 }
{
    let table = &shared.table;
    table.shared.load::<Check>(seat, 1);
}

fn release_as<J: OfSpan>(
    shared: &Shared,
    seat: &mut Seat<Item, SeatView>,
    body: &Body,
    generation: u64,
)
    // the seat
    requires table { seat.old.table_id ≡ shared.now }
    requires out { seat.old.me.0.out ≡ true }

    // the page and the generation
    requires region { IsOfRegion body.now.page seat.old.table_id seat.old.me.0 }
    requires generation { generation ≡ seat.old.me.0.view.generation }

    // the span that is swept
    requires picked { J.span ≡ span_of body.now }
    requires sweeping { has body.now.page seat.old.me.0.view.own.sweeping ≡ true }
    requires lent { HasSpan seat.old.me.0.view.own body.now }
    requires marks { HasMarks seat.old.me.0.view.marks body.now }

    // the seat behind it
    ensures table { seat.new.table_id ≡ seat.old.table_id }
    ensures view { seat.new.me ≡ (says_of SaidOf.Releases J.span seat.old.me.0, seat.old.me.1) }
{
    let table = &shared.table;
    let place = word_of_page(body.page);
    table.shared.store::<Release<J>>(seat, place, generation);
}

// The store of G by the worker that sweeps the span.
fn release(shared: &Shared, seat: &mut Seat<Item, SeatView>, body: &Body, generation: u64)
    // the seat
    requires table { seat.old.table_id ≡ shared.now }
    requires out { seat.old.me.0.out ≡ true }

    // the page and the generation
    requires region { IsOfRegion body.now.page seat.old.table_id seat.old.me.0 }
    requires generation { generation ≡ seat.old.me.0.view.generation }

    // the span that is swept
    requires sweeping { has body.now.page seat.old.me.0.view.own.sweeping ≡ true }
    requires lent { HasSpan seat.old.me.0.view.own body.now }
    requires marks { HasMarks seat.old.me.0.view.marks body.now }

    // the seat behind it
    ensures table { seat.new.table_id ≡ seat.old.table_id }
    ensures view { seat.new.me ≡ (says_of SaidOf.Releases (span_of body.now) seat.old.me.0, seat.old.me.1) }
{
    release_as::<Brand>(shared, seat, body, generation);
}

fn cache_as<J: Numbered>(
    shared: &Shared,
    seat: &mut Seat<Item, SeatView>,
    page: u32,
    generation: u64,
)
    // the seat
    requires table { seat.old.table_id ≡ shared.now }
    requires out { seat.old.me.0.out ≡ true }

    // the page and the generation
    requires region { IsOfRegion page seat.old.table_id seat.old.me.0 }
    requires generation { (generation ≡ seat.old.me.0.view.generation) × (generation < 8589934593) }

    // the span that is held
    requires picked { J.number ≡ page }
    requires held { has page seat.old.me.0.view.own.held ≡ true }
    requires unclaimed { seat.old.me.0.view.own.claimed ≡ None }

    // the seat behind it
    ensures table { seat.new.table_id ≡ seat.old.table_id }
    ensures view { seat.new.me ≡ (says (Said.Caches J.number) seat.old.me.0, seat.old.me.1) }
{
    let table = &shared.table;
    let place = word_of_page(page);
    table.shared.store::<Cache<J>>(seat, place, generation + 3);
}

// The store of G+3 by the worker that holds the span.
fn cache(shared: &Shared, seat: &mut Seat<Item, SeatView>, page: u32, generation: u64)
    // the seat
    requires table { seat.old.table_id ≡ shared.now }
    requires out { seat.old.me.0.out ≡ true }

    // the page and the generation
    requires region { IsOfRegion page seat.old.table_id seat.old.me.0 }
    requires generation { (generation ≡ seat.old.me.0.view.generation) × (generation < 8589934593) }

    // the span that is held
    requires held { has page seat.old.me.0.view.own.held ≡ true }
    requires unclaimed { seat.old.me.0.view.own.claimed ≡ None }

    // the seat behind it
    ensures table { seat.new.table_id ≡ seat.old.table_id }
    ensures view { seat.new.me ≡ (says (Said.Caches page) seat.old.me.0, seat.old.me.1) }
{
    cache_as::<Brand>(shared, seat, page, generation);
}

// The word of a page that the worker has cached.
fn read_cached(shared: &Shared, seat: &mut Seat<Item, SeatView>, page: u32) -> u64
    // the seat
    requires table { seat.old.table_id ≡ shared.now }
    requires out { seat.old.me.0.out ≡ true }

    // the page
    requires region { IsOfRegion page seat.old.table_id seat.old.me.0 }
    requires cached { has page seat.old.me.0.view.own.cached ≡ true }

    // the seat behind it
    ensures table { seat.new.table_id ≡ seat.old.table_id }
    ensures view { seat.new.me ≡ seat.old.me }

    // what the word tells
    ensures fresh { has page seat.old.me.0.view.own.fresh ≡ (result == seat.old.me.0.view.generation + 3) }
{
    let table = &shared.table;
    let place = word_of_page(page);
    table.shared.load::<ReadCache>(seat, place)
}

fn uncache_as<J: Numbered>(
    shared: &Shared,
    seat: &mut Seat<Item, SeatView>,
    page: u32,
    generation: u64,
)
    // the seat
    requires table { seat.old.table_id ≡ shared.now }
    requires out { seat.old.me.0.out ≡ true }

    // the page and the generation
    requires region { IsOfRegion page seat.old.table_id seat.old.me.0 }
    requires generation { generation ≡ seat.old.me.0.view.generation }

    // the span that is cached
    requires picked { J.number ≡ page }
    requires cached { has page seat.old.me.0.view.own.cached ≡ true }
    requires fresh { has page seat.old.me.0.view.own.fresh ≡ true }

    // the seat behind it
    ensures table { seat.new.table_id ≡ seat.old.table_id }
    ensures view { seat.new.me ≡ (says (Said.Uncaches J.number) seat.old.me.0, seat.old.me.1) }
{
    let table = &shared.table;
    let place = word_of_page(page);
    table.shared.store::<Uncache<J>>(seat, place, generation);
}

// The store of G over G+3.
fn uncache_fresh(shared: &Shared, seat: &mut Seat<Item, SeatView>, page: u32, generation: u64)
    // the seat
    requires table { seat.old.table_id ≡ shared.now }
    requires out { seat.old.me.0.out ≡ true }

    // the page and the generation
    requires region { IsOfRegion page seat.old.table_id seat.old.me.0 }
    requires generation { generation ≡ seat.old.me.0.view.generation }

    // the span that is cached
    requires cached { has page seat.old.me.0.view.own.cached ≡ true }
    requires fresh { has page seat.old.me.0.view.own.fresh ≡ true }

    // the seat behind it
    ensures table { seat.new.table_id ≡ seat.old.table_id }
    ensures view { seat.new.me ≡ (says (Said.Uncaches page) seat.old.me.0, seat.old.me.1) }
{
    uncache_as::<Brand>(shared, seat, page, generation);
}

fn uncache_stale_as<J: OfSpan>(
    shared: &Shared,
    seat: &mut Seat<Item, SeatView>,
    body: &Body,
    generation: u64,
)
    // the seat
    requires table { seat.old.table_id ≡ shared.now }
    requires out { seat.old.me.0.out ≡ true }

    // the page and the generation
    requires region { IsOfRegion body.now.page seat.old.table_id seat.old.me.0 }
    requires generation { (generation ≡ seat.old.me.0.view.generation) × (0 < generation) }

    // the span that is cached
    requires picked { J.span ≡ span_of body.now }
    requires cached { has body.now.page seat.old.me.0.view.own.cached ≡ true }
    requires stale { has body.now.page seat.old.me.0.view.own.fresh ≡ false }
    requires lent { HasBody seat.old.me.0.view.own body.now }

    // the seat behind it
    ensures table { seat.new.table_id ≡ seat.old.table_id }
    ensures view { seat.new.me ≡ (says (Said.UncachesStale J.span.page) seat.old.me.0, seat.old.me.1) }

    // what is known of the span
    ensures marked { (k : ℕ) → has_pair seat.old.me.0.view.marks J.span.page k ≡ true → bit_of J.span.bits k ≡ true }
    ensures untouched { IsUntouched seat.old.me.0.view.generation seat.old.me.0.view.own J.span.page }
{
    let table = &shared.table;
    let place = word_of_page(body.page);
    table
        .shared
        .store::<UncacheStale<J>>(seat, place, generation - 1);
}

// The store of G-1 over G+1.
fn uncache_stale(shared: &Shared, seat: &mut Seat<Item, SeatView>, body: &Body, generation: u64)
    // the seat
    requires table { seat.old.table_id ≡ shared.now }
    requires out { seat.old.me.0.out ≡ true }

    // the page and the generation
    requires region { IsOfRegion body.now.page seat.old.table_id seat.old.me.0 }
    requires generation { (generation ≡ seat.old.me.0.view.generation) × (0 < generation) }

    // the span that is cached
    requires cached { has body.now.page seat.old.me.0.view.own.cached ≡ true }
    requires stale { has body.now.page seat.old.me.0.view.own.fresh ≡ false }
    requires lent { HasBody seat.old.me.0.view.own body.now }

    // the seat behind it
    ensures table { seat.new.table_id ≡ seat.old.table_id }
    ensures view { seat.new.me ≡ (says (Said.UncachesStale body.now.page) seat.old.me.0, seat.old.me.1) }

    // what is known of the span
    ensures marked { HasMarked seat.old.me.0.view.marks body.now }
    ensures untouched { IsUntouched seat.old.me.0.view.generation seat.old.me.0.view.own body.now.page }
{
    uncache_stale_as::<Brand>(shared, seat, body, generation);
}

impl Shared {
    /// The worker ends the sweep of a span, whose body has just the marked objects and the free index 0: the word becomes G,
    /// and the worker holds the span. Takes no memory, and waits for nobody.
    pub fn release_swept(&self, w: &mut Worker, body: &Body)
        requires table { w.old.table ≡ self.now }
        requires sweeping { has body.now.page w.old.view.own.sweeping ≡ true }
        requires lent { HasSpan w.old.view.own body.now }
        requires marks { HasMarks w.old.view.marks body.now }
        requires next { body.now.next ≡ 0 }
        ensures { w.new ≡ after_of SaidOf.Releases (span_of body.now) w.old }
    {
        check(self, &mut w.seat);
        release(self, &mut w.seat, body, w.generation);
    }

    /// The worker caches a span that it holds, and has claimed nothing: the word becomes G+3 (`mcentral.go`, `cacheSpan`).
    /// Takes no memory, and waits for nobody.
    pub fn mark_cached(&self, w: &mut Worker, body: &Body)
        requires table { w.old.table ≡ self.now }
        requires held { has body.now.page w.old.view.own.held ≡ true }
        requires unclaimed { w.old.view.own.claimed ≡ None }
        requires lent { HasBody w.old.view.own body.now }
        ensures { w.new ≡ after_said (Said.Caches body.now.page) w.old }
    {
        check(self, &mut w.seat);
        cache(self, &mut w.seat, body.page, w.generation);
    }

    /// A span leaves the cache (`mcentral.go`, `uncacheSpan`). Fresh where it was cached in this cycle: the word G+3 becomes G,
    /// and the worker holds it. Stale where it was cached before the last mark end: the word G+1 becomes G-1, and the worker
    /// sweeps it. Takes no memory, and waits for nobody.
    pub fn uncache(&self, w: &mut Worker, body: &Body) -> Uncached
        requires table { w.old.table ≡ self.now }
        requires cached { has body.now.page w.old.view.own.cached ≡ true }
        requires lent { HasBody w.old.view.own body.now }
        ensures { UncachesSpan body.now w.old w.new result }
    {
        check(self, &mut w.seat);
        let word = read_cached(self, &mut w.seat, body.page);
        if word == w.generation + 3 {
            uncache_fresh(self, &mut w.seat, body.page, w.generation);
            return Uncached::Fresh;
        }
        uncache_stale(self, &mut w.seat, body, w.generation);
        Uncached::Stale
    }
}
