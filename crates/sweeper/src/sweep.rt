ghost use Rattle.std.specs.Prelude.{◌≡◌, ◌<◌, ◌≤◌, [], true, None, length};
ghost use Rattle.span_set.specs.Asks.{WorksIn};
ghost use Rattle.span_set.specs.Sets.{unswept_of};
ghost use Rattle.span_set.specs.Tallies.{Frees};
ghost use Rattle.span_laws.specs.Scans.{nth_unswept};
ghost use Rattle.sweeper.specs.Tries.{SweepsNext, TriesEntry};
ghost use Rattle.sweeper.specs.Sweeps.{SweepsOne};

use crate::answers::SweptOne;
use crate::settle::settle;
use fallible_list::NoMemory;
use span_set::{Hand, PopBase, SetId, Shop, pop_unswept};
use span_state::SweepNote;
use span_table::Acquired;
use std::sync::Wait;

// What one entry of an unswept set gave.
#[derive(Drop)]
pub(crate) enum Tried {
    // Its span was swept.
    Swept(SweepNote),
    // Its span did not wait any more.
    Gone,
    // There was none.
    Empty,
}

// The unswept sets in the order in which they are swept: by span class, the full set before the partial one.
pub(crate) fn set_at(index: u32) -> SetId
    requires { index < 272 }
    ensures number { (g : Rattle.std.specs.Prelude.ℕ) → unswept_of g result ≡ nth_unswept g index }
    ensures class { result.class < 136 }
{
    SetId {
        class: (index / 2) as u8,
        full: index % 2 == 0,
    }
}

// Pops one entry of an unswept set, and sweeps its span where it waits; else the entry is dropped.
fn try_entry<R: Wait>(rt: &R, shop: &Shop, hand: &mut Hand, set: SetId) -> Tried
    // the hand works in the shop, and has room
    requires works { WorksIn shop.now hand.old }
    requires unclaimed { hand.old.worker.view.own.claimed ≡ None }
    requires room { length hand.old.notes.items < hand.old.notes.space }
    requires unpopped { hand.old.worker.view.own.popped ≡ [] }

    // the set
    requires class { set.class < 136 }

    // what was done
    ensures did { TriesEntry (unswept_of hand.old.worker.view.generation set) hand.old hand.new result }
    ensures tally { Frees shop.now.marks.now hand.old hand.new }
{
    let page = match pop_unswept(shop.shared, &mut hand.worker, set) {
        PopBase::Popped(page) => page,
        PopBase::Empty { .. } => return Tried::Empty,
    };
    match shop.shared.acquire(&mut hand.worker, page) {
        Acquired::Got(body) => Tried::Swept(settle(rt, shop, hand, body)),
        Acquired::Other(_) => Tried::Gone,
    }
}

// Sweeps the next span of an unswept set; none where the set was seen empty. Each try pops an entry, and a head has 32 bits, so
// the call ends.
pub(crate) fn sweep_next<R: Wait>(
    rt: &R,
    shop: &Shop,
    hand: &mut Hand,
    set: SetId,
) -> Option<SweepNote>
    // the hand works in the shop, and has room
    requires works { WorksIn shop.now hand.old }
    requires unclaimed { hand.old.worker.view.own.claimed ≡ None }
    requires room { length hand.old.notes.items < hand.old.notes.space }
    requires unpopped { hand.old.worker.view.own.popped ≡ [] }

    // the set
    requires class { set.class < 136 }

    // what was done
    ensures did { SweepsNext (unswept_of hand.old.worker.view.generation set) hand.old hand.new result }
    ensures tally { Frees shop.now.marks.now hand.old hand.new }
{
    for _ in 0..u64::MAX {
        match try_entry(rt, shop, hand, set) {
            Tried::Swept(note) => return Some(note),
            Tried::Gone => {}
            Tried::Empty => return None,
        }
    }
    unreachable!()
}

/// Sweeps the next span that waits: through the span classes in rising order, in each the full set before the partial one; an
/// entry whose span does not wait any more is dropped (`mgcsweep.go`, `sweepone` and `nextSpanForSweep`). An emptied span goes
/// back to the heap, a full one to the swept full set of its class, and any other to the swept partial set.
///
/// `NothingLeft` only where each unswept set was seen empty in this call. NoMemory where there was no room for a note: nothing
/// changes then.
pub fn sweep_one<R: Wait>(rt: &R, shop: &Shop, hand: &mut Hand) -> Result<SweptOne, NoMemory>
    requires works { WorksIn shop.now hand.old }
    requires unclaimed { hand.old.worker.view.own.claimed ≡ None }
    requires unpopped { hand.old.worker.view.own.popped ≡ [] }
    ensures did { SweepsOne hand.old hand.new result }
    ensures tally { Frees shop.now.marks.now hand.old hand.new }
{
    hand.reserve_note()?;
    let mut next: u32 = 0;
    while let Some(index) = shop.shared.next_unswept(&mut hand.worker, next) {
        if let Some(note) = sweep_next(rt, shop, hand, set_at(index)) {
            return Ok(SweptOne::Swept(note));
        }
        next = index + 1;
    }
    Ok(SweptOne::NothingLeft)
}
