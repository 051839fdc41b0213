ghost use Rattle.std.specs.Prelude.{◌≡◌, ◌<◌, ◌≤◌, true, None, length};
ghost use Rattle.span_laws.specs.Asks.{IsAtWork, IsUntouched};
ghost use Rattle.span_set.specs.Sweeps.{MaySweep};
ghost use Rattle.span_set.specs.Tallies.{Frees, MayCount};
ghost use Rattle.sweeper.specs.Settles.{Settles};

use span_set::{Hand, SetId, Shop, push, sweep_in_hand};
use span_state::{Body, SweepNote};
use std::sync::Wait;

/// Sweeps a span in hand, and puts it where it belongs: an emptied one goes back to the heap, a full one to the swept full set of
/// its class, and any other to the swept partial set (`mgcsweep.go`, `sweep`). Answers the note of the sweep.
pub fn settle<R: Wait>(rt: &R, shop: &Shop, hand: &mut Hand, body: Body) -> SweepNote
    // the hand works in the shop, and has room
    requires works { IsAtWork shop.now.shared.now hand.old.worker }
    requires counts { MayCount shop.now.ring.now shop.now.marks.now hand.old.tally }
    requires unclaimed { hand.old.worker.view.own.claimed ≡ None }
    requires room { length hand.old.notes.items < hand.old.notes.space }

    // the span
    requires class { body.class < 136 }
    requires may { MaySweep shop.now.marks.now body hand.old.worker }
    requires untouched { IsUntouched hand.old.worker.view.generation hand.old.worker.view.own body.page }

    // what was done
    ensures did { Settles shop.now.marks.now body hand.old hand.new result }
    ensures tally { Frees shop.now.marks.now hand.old hand.new }
{
    let generation = shop.shared.generation(&mut hand.worker);
    let mut body = body;
    let swept = sweep_in_hand(shop, hand, &mut body);
    let note = SweepNote {
        cycle: ((generation - 4) / 2) as u32,
        page: body.page,
        kept: swept.kept,
        freed: swept.freed,
    };
    if swept.kept == 0 {
        shop.shared.give_span(rt, &mut hand.worker, body);
        return note;
    }
    let set = SetId {
        class: body.class,
        full: body.next_free().is_none(),
    };
    push(shop.shared, &mut hand.worker, set, body);
    note
}
