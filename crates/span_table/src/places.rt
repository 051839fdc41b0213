//! Objects are placed: an add of 1 to the word of the worker's own allocations.
ghost use Rattle.std.specs.Prelude.{◌≡◌, ℕ, ◌+◌, ◌<◌, true};
ghost use Rattle.span_state.specs.Bits.{HasFree, with_bit};
ghost use Rattle.span_state.specs.Spans.{allocated, IsSameSpan};
ghost use Rattle.span_state.specs.declared.body.Body.{Body};
ghost use Rattle.span_laws.specs.Asks.{HasBody, MayPlace};
ghost use Rattle.span_laws.specs.Views.{span_of};
ghost use Rattle.span_table.specs.Asks.{PlacesIn};
ghost use Rattle.span_laws.specs.OwnSteps.{after_of};
ghost use Rattle.span_table.specs.Seats.{says_of};

use crate::plays::{OfPlace, Place};
use crate::shared::{Shared, Worker};
use crate::view::{Item, SeatView};
use atomic_table::Seat;
use span_laws::SaidOf;
use span_state::Body;
use std::marker::Brand;
use table_words::event_word;

fn place_as<J: OfPlace>(
    shared: &Shared,
    seat: &mut Seat<Item, SeatView>,
    number: u32,
    _body: &Body,
    _index: u32,
)
    // the seat and its number
    requires table { seat.old.table_id ≡ shared.now }
    requires out { seat.old.me.0.out ≡ true }
    requires number { number < 70 }
    requires own { number ≡ seat.old.me.0.number }

    // the place of the object
    requires picked { (J.span ≡ span_of _body.now) × (J.index ≡ _index) }
    requires place { PlacesIn _body.now _index seat.old.me.0.view.own }

    // the seat behind it
    ensures table { seat.new.table_id ≡ seat.old.table_id }
    ensures view { seat.new.me ≡ (says_of (SaidOf.Places J.index) J.span seat.old.me.0, seat.old.me.1) }
{
    let table = &shared.table;
    let word = event_word(number) as usize;
    table.shared.fetch_add::<Place<J>>(seat, word, 1);
}

// Counts the object that was placed in a body at an index.
fn place(shared: &Shared, seat: &mut Seat<Item, SeatView>, number: u32, body: &Body, index: u32)
    // the seat and its number
    requires table { seat.old.table_id ≡ shared.now }
    requires out { seat.old.me.0.out ≡ true }
    requires number { number < 70 }
    requires own { number ≡ seat.old.me.0.number }

    // the place of the object
    requires place { PlacesIn body.now index seat.old.me.0.view.own }

    // the seat behind it
    ensures table { seat.new.table_id ≡ seat.old.table_id }
    ensures view { seat.new.me ≡ (says_of (SaidOf.Places index) (span_of body.now) seat.old.me.0, seat.old.me.1) }
{
    place_as::<Brand>(shared, seat, number, body, index);
}

impl Shared {
    /// Places an object at the lowest free index of a span that the worker cached in this cycle, while it has no other span of the
    /// class cached, or of a span of one object that it holds. Takes no memory, and waits for nobody.
    pub fn note_alloc(&self, w: &mut Worker, body: &mut Body, index: u32)
        // the worker
        requires table { w.old.table ≡ self.now }

        // the body and its free index
        requires lent { HasBody w.old.view.own body.old }
        requires place { MayPlace w.old.view.own body.old }
        requires free { HasFree body.old.count (allocated body.old) index }

        // the body behind it
        ensures body { (k : ℕ) → allocated body.new k ≡ with_bit index (allocated body.old) k }
        ensures next { body.new.next ≡ index + 1 }
        ensures same { IsSameSpan body.old body.new }

        // the worker behind it
        ensures view { w.new ≡ after_of (SaidOf.Places index) (span_of body.new) w.old }
    {
        body.take_index(index);
        place(self, &mut w.seat, w.number, body, index);
    }
}
