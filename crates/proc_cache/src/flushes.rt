ghost use Rattle.std.specs.Prelude.{◌≡◌, ◌<◌, ◌≤◌, true, false, length};
ghost use Rattle.sweep_laws.specs.Lists.{has};
ghost use Rattle.span_laws.specs.Asks.{HasBody, IsIdle};
ghost use Rattle.span_set.specs.Asks.{WorksIn};
ghost use Rattle.span_set.specs.Tallies.{Frees};
ghost use Rattle.proc_cache.specs.Flushes.{FlushesCache, FlushesClass, FlushesSpan};
ghost use Rattle.proc_cache.specs.Serves.{IsUsedCache, Serves, is_flushed};

use crate::proc::Proc;
use fallible_list::NoMemory;
use size_classes::SPAN_CLASSES;
use span_set::{Hand, Shop};
use span_state::Body;
use span_table::Uncached;
use std::sync::Wait;
use sweeper::settle_span;

/// Empties the processor's cache where it has not done so since the last mark end (`mcache.go`, `prepareForSweep`): through the span
/// classes in rising order, each span that was cached before is swept and put where it belongs, an emptied one goes back
/// to the heap. After NoMemory the classes flushed so far are flushed, and the rest is cached.
pub fn flush<R: Wait>(rt: &R, proc: &mut Proc, shop: &Shop, hand: &mut Hand) -> Result<(), NoMemory>
    // the hand works in the shop
    requires works { WorksIn shop.now hand.old }
    requires idle { IsIdle hand.old.worker.view.own }

    // the processor serves its worker
    requires serves { Serves hand.old.worker.view.generation hand.old.worker.view.own proc.old }

    // what was done
    ensures flushes { FlushesCache proc.old proc.new hand.old hand.new result }

    // what is counted
    ensures countdown { proc.new.countdown ≡ proc.old.countdown }
    ensures tally { Frees shop.now.marks.now hand.old hand.new }

    // the processor serves it still
    ensures serves { Serves hand.new.worker.view.generation hand.new.worker.view.own proc.new }
    ensures used { IsUsedCache hand.old.worker.view.own → IsUsedCache hand.new.worker.view.own }
{
    let generation = shop.shared.generation(&mut hand.worker);
    if proc.flushed == generation {
        return Ok(());
    }
    flush_all(rt, proc, shop, hand, generation)
}

// The same for a processor that has not flushed in this cycle, at the generation that was read. A function of its own, so that `flush`, which
// is called for each object, is small.
#[inline(never)]
fn flush_all<R: Wait>(
    rt: &R,
    proc: &mut Proc,
    shop: &Shop,
    hand: &mut Hand,
    generation: u64,
) -> Result<(), NoMemory>
    // the hand works in the shop
    requires works { WorksIn shop.now hand.old }
    requires idle { IsIdle hand.old.worker.view.own }

    // the processor serves its worker, and has not flushed
    requires serves { Serves hand.old.worker.view.generation hand.old.worker.view.own proc.old }
    requires stale { is_flushed hand.old.worker.view.generation proc.old ≡ false }
    requires generation { generation ≡ hand.old.worker.view.generation }

    // what was done
    ensures flushes { FlushesCache proc.old proc.new hand.old hand.new result }

    // what is counted
    ensures countdown { proc.new.countdown ≡ proc.old.countdown }
    ensures tally { Frees shop.now.marks.now hand.old hand.new }

    // the processor serves it still
    ensures serves { Serves hand.new.worker.view.generation hand.new.worker.view.own proc.new }
    ensures used { IsUsedCache hand.old.worker.view.own → IsUsedCache hand.new.worker.view.own }
{
    for class in 0..SPAN_CLASSES {
        flush_class(rt, proc, shop, hand, class)?;
    }
    proc.flushed = generation;
    Ok(())
}

// Flushes one span class of a processor that has not flushed in this cycle.
fn flush_class<R: Wait>(
    rt: &R,
    proc: &mut Proc,
    shop: &Shop,
    hand: &mut Hand,
    class: u8,
) -> Result<(), NoMemory>
    // the hand works in the shop
    requires works { WorksIn shop.now hand.old }
    requires idle { IsIdle hand.old.worker.view.own }

    // the processor serves its worker, and has not flushed
    requires serves { Serves hand.old.worker.view.generation hand.old.worker.view.own proc.old }
    requires stale { is_flushed hand.old.worker.view.generation proc.old ≡ false }

    // the span class
    requires class { class < 136 }

    // what was done
    ensures flushes { FlushesClass class proc.old proc.new hand.old hand.new result }

    // what is counted
    ensures countdown { proc.new.countdown ≡ proc.old.countdown }
    ensures tally { Frees shop.now.marks.now hand.old hand.new }

    // the processor serves it still
    ensures serves { Serves hand.new.worker.view.generation hand.new.worker.view.own proc.new }
{
    if proc.slots[class as usize].is_none() {
        return Ok(());
    }
    hand.reserve_note()?;
    let Some(body) = proc.slots[class as usize].take() else {
        return Ok(());
    };
    flush_span(rt, shop, hand, body);
    Ok(())
}

// Takes a stale span out of the cache, sweeps it, and puts it where it belongs.
fn flush_span<R: Wait>(rt: &R, shop: &Shop, hand: &mut Hand, body: Body)
    // the hand works in the shop, and has room
    requires works { WorksIn shop.now hand.old }
    requires idle { IsIdle hand.old.worker.view.own }
    requires room { length hand.old.notes.items < hand.old.notes.space }

    // the span
    requires class { body.class < 136 }
    requires cached { has body.page hand.old.worker.view.own.cached ≡ true }
    requires stale { has body.page hand.old.worker.view.own.fresh ≡ false }
    requires lent { HasBody hand.old.worker.view.own body }

    // what was done
    ensures flushes { FlushesSpan body.page hand.old hand.new }
    ensures tally { Frees shop.now.marks.now hand.old hand.new }
{
    match shop.shared.uncache(&mut hand.worker, &body) {
        Uncached::Fresh => unreachable!(),
        Uncached::Stale => {
            settle_span(rt, shop, hand, body);
        }
    }
}
