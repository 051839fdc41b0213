ghost use Rattle.std.specs.Prelude.{◌≡◌, ◌<◌, ◌≤◌, ◌∷◌, ◌++◌, [], true, length, All};
ghost use Rattle.span_laws.specs.Asks.{IsAtWork};
ghost use Rattle.span_set.specs.Sweeps.{MaySweep, SweepsBody, SweepsInHand, note_of};
ghost use Rattle.span_set.specs.Tallies.{Frees, MayCount, frees_all};

use crate::hand::{Hand, Shop};
use profile_cycle::{Ring, Tally};
use span_state::{Body, SweepNote, Swept};

// Counts a free for each dead bucket, in order.
fn count_dead(ring: &Ring, tally: &mut Tally, dead: &[u32])
    requires ring { tally.old.ring ≡ ring.now }
    requires dead { All (λ b. b < ring.now.buckets) dead.now }
    ensures { tally.new ≡ frees_all dead.now tally.old }
{
    for bucket in dead {
        ring.freed(tally, *bucket);
    }
}

/// Sweeps a span in hand, by the shop's marks: the marked objects are the allocated ones, its pages count as swept, the hand gets
/// the note, for which it has room, its tally counts a free for each dead sample of the page (`mprof.go`, `mProf_Free`), and the
/// word becomes G, by which the worker holds the span (`mgcsweep.go`, `sweep`). Takes no memory.
pub fn sweep_in_hand(shop: &Shop, hand: &mut Hand, body: &mut Body) -> Swept
    // the hand works in the shop, and has room
    requires works { IsAtWork shop.now.shared.now hand.old.worker }
    requires counts { MayCount shop.now.ring.now shop.now.marks.now hand.old.tally }
    requires room { length hand.old.notes.items < hand.old.notes.space }

    // the span
    requires may { MaySweep shop.now.marks.now body.old hand.old.worker }

    // the sweep
    ensures body { SweepsBody shop.now.marks.now body.old body.new result }

    // the hand behind it
    ensures worker { SweepsInHand body.new result hand.old.worker hand.new.worker }
    ensures notes { hand.new.notes ≡ record hand.old.notes { items = hand.old.notes.items ++ note_of hand.old.worker.view.generation body.new result ∷ [] } }
    ensures tally { Frees shop.now.marks.now hand.old hand.new }
{
    let generation = shop.shared.generation(&mut hand.worker);
    let swept = body.sweep(shop.marks);
    shop.shared.add_swept(&mut hand.worker, body.pages);
    hand.notes.push(SweepNote {
        cycle: ((generation - 4) / 2) as u32,
        page: body.page,
        kept: swept.kept,
        freed: swept.freed,
    });
    count_dead(shop.ring, &mut hand.tally, shop.marks.dead(body.page));
    shop.shared.release_swept(&mut hand.worker, body);
    swept
}
