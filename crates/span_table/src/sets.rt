//! Steps on swept sets that take a body home, or out.
ghost use Rattle.std.specs.Prelude.{◌≡◌, ℕ, ◌+◌, ◌<◌, ◌≤◌, ◌==◌, true, false, None, [], ◌∷◌};
ghost use Rattle.sweep_laws.specs.Lists.{has};
ghost use Rattle.sweep_laws.specs.Reading.{is_swept_set};
ghost use Rattle.span_laws.specs.Answers.{IsOfSet, RaisesSwept};
ghost use Rattle.span_laws.specs.Asks.{HasBody};
ghost use Rattle.span_laws.specs.Bodies.{lends};
ghost use Rattle.span_laws.specs.Views.{has_cell, span_of};
ghost use Rattle.worker_log.specs.Entries.{many, is_pop_of, is_placing_in};
ghost use Rattle.worker_log.specs.SetNumbers.{is_full_set};
ghost use Rattle.table_words.specs.Names.{head_tail, tail_of};
ghost use Rattle.span_table.specs.Asks.{MayClaim};
ghost use Rattle.span_laws.specs.OwnSteps.{after_said};
ghost use Rattle.span_table.specs.Plays.{RaisesBy};
ghost use Rattle.span_table.specs.Seats.{with_slot, without_slot, says};

use crate::plays::{Claim, Fetch, Numbered, Raise, Return};
use crate::shared::{Shared, Worker};
use crate::view::{Item, SeatView};
use crate::words::{halves, word_of_set};
use atomic_table::Seat;
use span_laws::Said;
use span_state::Body;
use std::marker::Brand;
use table_words::head_tail as join_halves;

fn fetch_as<J: Numbered>(shared: &Shared, seat: &mut Seat<Item, SeatView>, _page: u32)
    requires table { seat.old.table_id ≡ shared.now }
    requires out { (seat.old.me.0.out ≡ true) × (seat.old.me.0.slot_out ≡ 0) }
    requires lent { 0 < lends J.number seat.old.me.0.view.own }
    ensures table { seat.new.table_id ≡ seat.old.table_id }
    ensures view { (y : Item) × (seat.new.me ≡ (with_slot J.number seat.old.me.0, (J.number + 1, y) ∷ seat.old.me.1)) }
{
    let table = &shared.table;
    table.shared.load::<Fetch<J>>(seat, 0);
}

// The slot of a page that the worker has in hand goes out.
fn fetch(shared: &Shared, seat: &mut Seat<Item, SeatView>, page: u32)
    requires table { seat.old.table_id ≡ shared.now }
    requires out { (seat.old.me.0.out ≡ true) × (seat.old.me.0.slot_out ≡ 0) }
    requires lent { 0 < lends page seat.old.me.0.view.own }
    ensures table { seat.new.table_id ≡ seat.old.table_id }
    ensures view { (y : Item) × (seat.new.me ≡ (with_slot page seat.old.me.0, (page + 1, y) ∷ seat.old.me.1)) }
{
    fetch_as::<Brand>(shared, seat, page);
}

fn claim_as<J: Numbered>(
    shared: &Shared,
    seat: &mut Seat<Item, SeatView>,
    set: u32,
    _page: u32,
) -> u64
    // the seat
    requires table { seat.old.table_id ≡ shared.now }
    requires out { seat.old.me.0.out ≡ true }

    // the set and its claim
    requires set { set < 544 }
    requires claim { (b : Body) × (b.page ≡ J.number) × MayClaim set b seat.old.me.0 × (seat.old.me.0.slot_out ≡ b.page + 1) × (seat.old.me.1 ≡ (b.page + 1, Item.Span b) ∷ []) }

    // the seat behind it
    ensures table { seat.new.table_id ≡ seat.old.table_id }
    ensures view { seat.new.me ≡ (without_slot (says (Said.Claims set (tail_of result) J.number) seat.old.me.0), []) }

    // the index
    ensures index { tail_of result + 1 < seat.old.table_id.slots }
{
    let table = &shared.table;
    let place = word_of_set(shared.chunks, set);
    table.shared.fetch_add::<Claim<J>>(seat, place, 1)
}

// Claims the next index of a set for a page, whose body is in the slot that the seat has out: it comes home with this step.
fn claim(shared: &Shared, seat: &mut Seat<Item, SeatView>, set: u32, page: u32) -> u64
    // the seat
    requires table { seat.old.table_id ≡ shared.now }
    requires out { seat.old.me.0.out ≡ true }

    // the set and its claim
    requires set { set < 544 }
    requires claim { (b : Body) × (b.page ≡ page) × MayClaim set b seat.old.me.0 × (seat.old.me.0.slot_out ≡ b.page + 1) × (seat.old.me.1 ≡ (b.page + 1, Item.Span b) ∷ []) }

    // the seat behind it
    ensures table { seat.new.table_id ≡ seat.old.table_id }
    ensures view { seat.new.me ≡ (without_slot (says (Said.Claims set (tail_of result) page) seat.old.me.0), []) }

    // the index
    ensures index { tail_of result + 1 < seat.old.table_id.slots }
{
    claim_as::<Brand>(shared, seat, set, page)
}

fn raise_as<J: Numbered>(
    shared: &Shared,
    seat: &mut Seat<Item, SeatView>,
    set: u32,
    head: u32,
    tail: u32,
    _page: u32,
) -> u64
    // the seat
    requires table { seat.old.table_id ≡ shared.now }
    requires out { (seat.old.me.0.out ≡ true) × (seat.old.me.0.slot_out ≡ 0) }

    // the set
    requires set { set < 544 }
    requires part { is_swept_set seat.old.me.0.view.generation set ≡ true }

    // its head and its tail
    requires order { head < tail }
    requires read { has_cell set head J.number seat.old.me.0.view.own.read ≡ true }

    // the seat behind it
    ensures table { seat.new.table_id ≡ seat.old.table_id }
    ensures view { RaisesBy (result == head_tail head tail) set J.number result seat.old.me seat.new.me }
{
    let table = &shared.table;
    let place = word_of_set(shared.chunks, set);
    let old = join_halves(head, tail);
    table
        .shared
        .compare_exchange::<Raise<J>>(seat, place, old, old + (1 << 32))
}

// Raises the head of a set by one where head and tail are these still.
fn raise(
    shared: &Shared,
    seat: &mut Seat<Item, SeatView>,
    set: u32,
    head: u32,
    tail: u32,
    page: u32,
) -> u64
    // the seat
    requires table { seat.old.table_id ≡ shared.now }
    requires out { (seat.old.me.0.out ≡ true) × (seat.old.me.0.slot_out ≡ 0) }

    // the set
    requires set { set < 544 }
    requires part { is_swept_set seat.old.me.0.view.generation set ≡ true }

    // its head and its tail
    requires order { head < tail }
    requires read { has_cell set head page seat.old.me.0.view.own.read ≡ true }

    // the seat behind it
    ensures table { seat.new.table_id ≡ seat.old.table_id }
    ensures view { RaisesBy (result == head_tail head tail) set page result seat.old.me seat.new.me }
{
    raise_as::<Brand>(shared, seat, set, head, tail, page)
}

impl Shared {
    /// Claims the next index of a swept set of the body's class for a span that the worker holds, and brings the body home. Takes no memory.
    pub fn claim_index(&self, w: &mut Worker, set: u32, body: Body) -> u32
        // the worker and the set
        requires table { w.old.table ≡ self.now }
        requires set { set < 544 }
        requires part { is_swept_set w.old.view.generation set ≡ true }

        // the span that the worker holds
        requires held { has body.page w.old.view.own.held ≡ true }
        requires unclaimed { w.old.view.own.claimed ≡ None }
        requires lent { HasBody w.old.view.own body }

        // the span may go into the set
        requires fits { IsOfSet set body }
        requires unpopped { many (is_pop_of set body.page) w.old.view.own.log ≡ 0 }
        requires unplaced { is_full_set set ≡ false → many (is_placing_in body.page) w.old.view.own.log ≡ 0 }

        // what was done
        ensures { w.new ≡ after_said (Said.Claims set result body.page) w.old }
    {
        let page = body.page;
        fetch(self, &mut w.seat, page);
        let table = &self.table;
        drop(
            table
                .shared
                .exchange(&mut w.seat, page as usize + 1, Item::Span(body)),
        );
        let word = claim(self, &mut w.seat, set, page);
        let (_, index) = halves(word);
        index
    }

    /// Pops the span at the head of a swept set, where head and tail are these still: the worker holds it and gets its body. It asks for
    /// the page that the worker read in the cell at that head. Else the head and the tail that were found. Takes no memory.
    pub fn raise_swept(
        &self,
        w: &mut Worker,
        set: u32,
        head: u32,
        tail: u32,
        page: u32,
    ) -> Result<Body, (u32, u32)>
        requires table { w.old.table ≡ self.now }
        requires set { set < 544 }
        requires part { is_swept_set w.old.view.generation set ≡ true }
        requires order { head < tail }
        requires read { has_cell set head page w.old.view.own.read ≡ true }
        ensures { RaisesSwept set head tail page w.old w.new result }
    {
        let word = raise(self, &mut w.seat, set, head, tail, page);
        let (found_head, found_tail) = halves(word);
        if found_head != head || found_tail != tail {
            return Err((found_head, found_tail));
        }
        let table = &self.table;
        let Item::Span(body) = table
            .shared
            .exchange(&mut w.seat, page as usize + 1, Item::Nothing)
        else {
            unreachable!()
        };
        table.shared.load::<Return>(&mut w.seat, 0);
        Ok(body)
    }
}
