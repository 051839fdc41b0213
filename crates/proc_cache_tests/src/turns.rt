//! What a processor does on the driver of a table, beside whom no worker has anything: it places objects, and goes over a mark end.

ghost use Rattle.std.specs.Prelude.{◌≡◌, ◌<◌, ◌≤◌, IfOk, OnErr, OnOk};
ghost use Rattle.proc_cache_tests.specs.Ready.{AreObjects, Grows, HasSettled, HasSwept, IsPlaced, IsPrepared, IsReady};

use crate::objects::{Object, mark_all, slot_on_page};
use central_lists::{FromSets, cache_span};
use fallible_list::NoMemory;
use large_objects::alloc_large;
use proc_cache::{Placed, Proc, Refused, alloc, count_placed, flush};
use profile_cycle::Ring;
use size_classes::PAGE_SIZE;
use span_set::{Hand, Shop, reset};
use span_state::Marks;
use span_table::Shared;
use std::alloc::Global;
use std::sync::Wait;
use sweep_lists::Entries;
use sweeper::{SweptOne, finish, reclaim, sweep_one};
use trace_reader::Event;

// A generation at which no mark end may come.
const LAST: u64 = 8_589_934_592;

// A small object of this bucket, which is one of the objects from now on.
pub(crate) fn small<R: Wait>(
    rt: &R,
    shop: &Shop,
    hand: &mut Hand,
    proc: &mut Proc,
    objects: &mut Entries<Object>,
    event: Event,
    bucket: u32,
) -> Result<Placed, Refused>
    // the hand with its processor, and the objects
    requires ready { IsReady shop.now.shared.now shop.now.ring.now shop.now.marks.now hand.old proc.old }
    requires objects { AreObjects hand.old.worker.view.own.log objects.old.items }

    // the event and its bucket
    requires some { 1 ≤ event.size }
    requires small { event.size ≤ 32768 }
    requires bucket { bucket < 2 }

    // the same behind it
    ensures ready { IsReady shop.now.shared.now shop.now.ring.now shop.now.marks.now hand.new proc.new }
    ensures objects { AreObjects hand.new.worker.view.own.log objects.new.items }
{
    let Ok(()) = objects.reserve_one() else {
        return Err(Refused::NoMemory);
    };
    let placed = place(rt, shop, hand, proc, event, bucket)?;
    let Some(slot) = slot_on_page(event.size) else {
        return Ok(placed);
    };
    objects.push(Object {
        addr: placed.addr,
        slot,
    });
    Ok(placed)
}

// The same, without a note of the object.
fn place<R: Wait>(
    rt: &R,
    shop: &Shop,
    hand: &mut Hand,
    proc: &mut Proc,
    event: Event,
    bucket: u32,
) -> Result<Placed, Refused>
    // the hand with its processor
    requires ready { IsReady shop.now.shared.now shop.now.ring.now shop.now.marks.now hand.old proc.old }

    // the event and its bucket
    requires some { 1 ≤ event.size }
    requires small { event.size ≤ 32768 }
    requires bucket { bucket < 2 }

    // the same behind it
    ensures ready { IsReady shop.now.shared.now shop.now.ring.now shop.now.marks.now hand.new proc.new }
    ensures grows { Grows hand.old.worker hand.new.worker }

    // what is placed
    ensures placed { IfOk result (λ p. IsPlaced event.size p.addr hand.new.worker) }
{
    alloc(rt, proc, shop, hand, event, bucket)
}

// A large object of so many pages and this bucket, behind a flush.
pub(crate) fn large<R: Wait>(
    rt: &R,
    shop: &Shop,
    hand: &mut Hand,
    proc: &mut Proc,
    pages: u32,
    bucket: u32,
) -> Result<Placed, Refused>
    requires ready { IsReady shop.now.shared.now shop.now.ring.now shop.now.marks.now hand.old proc.old }
    requires pages { 5 ≤ pages }
    requires bucket { bucket < 2 }
    ensures ready { IsReady shop.now.shared.now shop.now.ring.now shop.now.marks.now hand.new proc.new }
    ensures grows { Grows hand.old.worker hand.new.worker }
{
    let Ok(()) = flush_now(rt, shop, hand, proc) else {
        return Err(Refused::NoMemory);
    };
    put_large(rt, shop, hand, proc, pages, bucket)
}

// The same where the processor has flushed.
fn put_large<R: Wait>(
    rt: &R,
    shop: &Shop,
    hand: &mut Hand,
    proc: &mut Proc,
    pages: u32,
    bucket: u32,
) -> Result<Placed, Refused>
    requires ready { IsReady shop.now.shared.now shop.now.ring.now shop.now.marks.now hand.old proc.old }
    requires pages { 5 ≤ pages }
    requires bucket { bucket < 2 }
    ensures ready { IsReady shop.now.shared.now shop.now.ring.now shop.now.marks.now hand.new proc.new }
    ensures grows { Grows hand.old.worker hand.new.worker }
{
    let addr = alloc_large(rt, shop, hand, pages, 1)?;
    let slot = PAGE_SIZE * u64::from(pages);
    let sampled = count_placed(proc, shop, hand, slot, bucket);
    Ok(Placed { addr, sampled })
}

// The processor flushes, where it has not done so in this cycle.
fn flush_now<R: Wait>(rt: &R, shop: &Shop, hand: &mut Hand, proc: &mut Proc) -> Result<(), NoMemory>
    requires ready { IsReady shop.now.shared.now shop.now.ring.now shop.now.marks.now hand.old proc.old }
    ensures ready { IsReady shop.now.shared.now shop.now.ring.now shop.now.marks.now hand.new proc.new }
    ensures grows { Grows hand.old.worker hand.new.worker }
    ensures flushed { OnOk result (proc.new.flushed ≡ hand.new.worker.view.generation) }
{
    flush(rt, proc, shop, hand)
}

// Flushes, and sweeps all that is left.
pub(crate) fn sweep_all<R: Wait>(
    rt: &R,
    shop: &Shop,
    hand: &mut Hand,
    proc: &mut Proc,
) -> Result<(), NoMemory>
    requires ready { IsReady shop.now.shared.now shop.now.ring.now shop.now.marks.now hand.old proc.old }
    ensures ready { IsReady shop.now.shared.now shop.now.ring.now shop.now.marks.now hand.new proc.new }
    ensures grows { Grows hand.old.worker hand.new.worker }
    ensures swept { OnOk result (HasSwept hand.new.worker proc.new) }
{
    flush_now(rt, shop, hand, proc)?;
    finish(rt, shop, hand)
}

// Reclaims so many pages.
pub(crate) fn reclaim_pages<R: Wait>(
    rt: &R,
    shop: &Shop,
    hand: &mut Hand,
    proc: &Proc,
    pages: u32,
) -> Result<u32, NoMemory>
    requires ready { IsReady shop.now.shared.now shop.now.ring.now shop.now.marks.now hand.old proc.now }
    ensures ready { IsReady shop.now.shared.now shop.now.ring.now shop.now.marks.now hand.new proc.now }
    ensures grows { Grows hand.old.worker hand.new.worker }
{
    let _proc = proc;
    reclaim(rt, shop, hand, pages)
}

// A span of a span class for a cache; and where there is no memory for the looks, a hand that may be called again.
pub(crate) fn look(
    shop: &Shop,
    hand: &mut Hand,
    proc: &Proc,
    class: u8,
) -> Result<FromSets, NoMemory>
    requires ready { IsReady shop.now.shared.now shop.now.ring.now shop.now.marks.now hand.old proc.now }
    requires class { class < 136 }
    ensures ready { OnErr result (IsReady shop.now.shared.now shop.now.ring.now shop.now.marks.now hand.new proc.now) }
    ensures grows { OnErr result (Grows hand.old.worker hand.new.worker) }
{
    let _proc = proc;
    cache_span(shop, hand, class)
}

// The next sweep of a span in the unswept sets.
pub(crate) fn sweep_next<R: Wait>(
    rt: &R,
    shop: &Shop,
    hand: &mut Hand,
    proc: &Proc,
) -> Result<SweptOne, NoMemory>
    requires ready { IsReady shop.now.shared.now shop.now.ring.now shop.now.marks.now hand.old proc.now }
    ensures ready { IsReady shop.now.shared.now shop.now.ring.now shop.now.marks.now hand.new proc.now }
    ensures grows { Grows hand.old.worker hand.new.worker }
{
    let _proc = proc;
    sweep_one(rt, shop, hand)
}

// Resets the unswept sets, and learns the whole journal. Fails where no mark end may come any more.
pub(crate) fn settle(shop: &Shop, hand: &mut Hand, proc: &Proc) -> Result<(), NoMemory>
    requires ready { IsReady shop.now.shared.now shop.now.ring.now shop.now.marks.now hand.old proc.now }
    requires swept { HasSwept hand.old.worker proc.now }
    ensures ready { IsReady shop.now.shared.now shop.now.ring.now shop.now.marks.now hand.new proc.now }
    ensures grows { Grows hand.old.worker hand.new.worker }
    ensures settled { OnOk result (HasSettled hand.new.worker proc.now) }
{
    let _proc = proc;
    if shop.shared.generation(&mut hand.worker) >= LAST {
        return Err(NoMemory);
    }
    reset(shop.shared, &mut hand.worker);
    shop.shared.end_cycle(&mut hand.worker);
    Ok(())
}

// Sweeps all that is left, and settles; then the marks of these pages' indices, which live on.
pub(crate) fn prepare<R: Wait>(
    rt: &R,
    alloc: Global,
    shop: &Shop,
    hand: &mut Hand,
    proc: &mut Proc,
    objects: &Entries<Object>,
    live: &[(u32, u32)],
) -> Result<Marks, NoMemory>
    requires ready { IsReady shop.now.shared.now shop.now.ring.now shop.now.marks.now hand.old proc.old }
    requires objects { AreObjects hand.old.worker.view.own.log objects.now.items }
    ensures ready { IsReady shop.now.shared.now shop.now.ring.now shop.now.marks.now hand.new proc.new }
    ensures grows { Grows hand.old.worker hand.new.worker }
    ensures prepared { IfOk result (λ marks. IsPrepared hand.new.worker proc.new marks) }
{
    sweep_all(rt, shop, hand, proc)?;
    settle(shop, hand, proc)?;
    mark_all(alloc, shop.marks, objects.as_slice(), live)
}

// Ends the mark phase, with the next marks behind those of the one before.
pub(crate) fn turn(
    shared: &Shared,
    ring: &mut Ring,
    marks: &Marks,
    hand: &mut Hand,
    proc: &Proc,
    next: &Marks,
)
    requires ready { IsReady shared.now ring.old marks.now hand.old proc.now }
    requires prepared { IsPrepared hand.old.worker proc.now next.now }
    ensures { IsReady shared.now ring.new next.now hand.new proc.now }
{
    let _marks = marks;
    let _proc = proc;
    shared.next_generation(&mut hand.worker, next);
    ring.next_cycle(&mut hand.tally);
}
