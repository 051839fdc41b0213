ghost use Rattle.std.specs.Prelude.{◌≡◌, ◌^◌, ◌<◌, ◌≤◌, IfOk, OnOk, OnErr};
ghost use Rattle.size_classes.specs.Classes.{IsLeastClass, span_class_of};
ghost use Rattle.profile_cycle.specs.Naming.{slot_for};
ghost use Rattle.profile_cycle.specs.Sampling.{behind, is_sample};
ghost use Rattle.span_laws.specs.Asks.{IsIdle};
ghost use Rattle.span_set.specs.Asks.{WorksIn};
ghost use Rattle.span_set.specs.Tallies.{Frees};
ghost use Rattle.proc_cache.specs.Allocs.{AllocatesIn, addr_of};
ghost use Rattle.proc_cache.specs.Hits.{IsMissing};
ghost use Rattle.proc_cache.specs.Samples.{CountsOne};
ghost use Rattle.proc_cache.specs.Serves.{IsUsedCache, Serves};

use crate::flushes::flush;
use crate::hits::{Hit, alloc_hit};
use crate::proc::Proc;
use crate::refills::refill;
use crate::samples::count_placed;
use size_classes::{Kind, class_of, slot_size, span_class};
use span_set::{Hand, Shop};
use std::sync::Wait;
use sweeper::Refused;
use trace_reader::Event;

/// A small object that was placed.
#[derive(Clone, Copy, Debug, PartialEq, Eq)]
pub struct Placed {
    /// Its address, below 2^48.
    pub addr: u64,
    /// Whether it is sampled.
    pub sampled: bool,
}

/// Allocates an object of a small size, from 1 to 32768 bytes, for an event (`malloc.go`, `mallocgc`): where it is the processor's first one
/// since the last mark end, the cache is flushed; then the object takes the lowest free index of the cached span, after a refill
/// where there is none. Where the processor's countdown samples the placed object, the hand's tally counts one allocation of the bucket,
/// which is the number of the event's stack and slot.
///
/// After a refusal the countdown is as it was, and no allocation is counted. NoRun comes with the Miss line of this call, as `refill` says, and
/// the worker has no block then: its page cache, if it has one, is settled. After NoMemory a cached span that was not flushed or pushed yet
/// stays cached.
pub fn alloc<R: Wait>(
    rt: &R,
    proc: &mut Proc,
    shop: &Shop,
    hand: &mut Hand,
    event: Event,
    bucket: u32,
) -> Result<Placed, Refused>
    // the hand works in the shop
    requires works { WorksIn shop.now hand.old }
    requires idle { IsIdle hand.old.worker.view.own }

    // the processor serves its worker
    requires serves { Serves hand.old.worker.view.generation hand.old.worker.view.own proc.old }
    requires used { IsUsedCache hand.old.worker.view.own }

    // the object
    requires some { 1 ≤ event.size }
    requires small { event.size ≤ 32768 }
    requires bucket { bucket < shop.now.ring.now.buckets }

    // where it is
    ensures low { IfOk result (λ placed. placed.addr < 2 ^ 48) }
    ensures allocates { (class : Rattle.std.specs.Prelude.ℕ) × IsLeastClass event.size class × AllocatesIn shop.now.pages shop.now.distance (span_class_of class event.scan) proc.old proc.new hand.old hand.new (addr_of result) }

    // whether it is sampled, and what is counted
    ensures sampled { IfOk result (λ placed. placed.sampled ≡ is_sample proc.old.countdown (slot_for event.size)) }
    ensures countdown { OnOk result (proc.new.countdown ≡ behind proc.old.countdown (slot_for event.size)) }
    ensures untouched { OnErr result (proc.new.countdown ≡ proc.old.countdown) }
    ensures counted { IfOk result (λ placed. CountsOne shop.now.marks.now bucket placed.sampled hand.old hand.new) }
    ensures frees { OnErr result (Frees shop.now.marks.now hand.old hand.new) }

    // the processor serves it still
    ensures number { proc.new.number ≡ proc.old.number }
    ensures serves { Serves hand.new.worker.view.generation hand.new.worker.view.own proc.new }
    ensures used { IsUsedCache hand.new.worker.view.own }
{
    let Kind::Small(class) = class_of(event.size) else {
        unreachable!()
    };
    let addr = alloc_in(rt, proc, shop, hand, span_class(class, event.scan))?;
    let slot = u64::from(slot_size(class));
    let sampled = count_placed(proc, shop, hand, slot, bucket);
    Ok(Placed { addr, sampled })
}

// The same for a span class, from 2 to 135.
fn alloc_in<R: Wait>(
    rt: &R,
    proc: &mut Proc,
    shop: &Shop,
    hand: &mut Hand,
    class: u8,
) -> Result<u64, Refused>
    // the hand works in the shop
    requires works { WorksIn shop.now hand.old }
    requires idle { IsIdle hand.old.worker.view.own }

    // the processor serves its worker
    requires serves { Serves hand.old.worker.view.generation hand.old.worker.view.own proc.old }
    requires used { IsUsedCache hand.old.worker.view.own }

    // the span class
    requires small { 2 ≤ class }
    requires class { class < 136 }

    // where the object is
    ensures low { IfOk result (λ at. at < 2 ^ 48) }
    ensures allocates { AllocatesIn shop.now.pages shop.now.distance class proc.old proc.new hand.old hand.new result }

    // what is counted
    ensures countdown { proc.new.countdown ≡ proc.old.countdown }
    ensures tally { Frees shop.now.marks.now hand.old hand.new }

    // the processor serves it still
    ensures number { proc.new.number ≡ proc.old.number }
    ensures serves { Serves hand.new.worker.view.generation hand.new.worker.view.own proc.new }
    ensures used { IsUsedCache hand.new.worker.view.own }
{
    let Ok(()) = flush(rt, proc, shop, hand) else {
        return Err(Refused::NoMemory);
    };
    match alloc_hit(proc, shop.shared, &mut hand.worker, class) {
        Hit::At(addr) => Ok(addr),
        Hit::Miss => alloc_missed(rt, proc, shop, hand, class),
    }
}

// The same where the processor has flushed and the cached span is absent or full.
fn alloc_missed<R: Wait>(
    rt: &R,
    proc: &mut Proc,
    shop: &Shop,
    hand: &mut Hand,
    class: u8,
) -> Result<u64, Refused>
    // the hand works in the shop
    requires works { WorksIn shop.now hand.old }
    requires idle { IsIdle hand.old.worker.view.own }

    // the processor serves its worker
    requires serves { Serves hand.old.worker.view.generation hand.old.worker.view.own proc.old }
    requires used { IsUsedCache hand.old.worker.view.own }
    requires flushed { proc.old.flushed ≡ hand.old.worker.view.generation }
    requires missing { IsMissing proc.old class }

    // the span class
    requires small { 2 ≤ class }
    requires class { class < 136 }

    // where the object is
    ensures low { IfOk result (λ at. at < 2 ^ 48) }
    ensures allocates { AllocatesIn shop.now.pages shop.now.distance class proc.old proc.new hand.old hand.new result }

    // what is counted
    ensures countdown { proc.new.countdown ≡ proc.old.countdown }
    ensures tally { Frees shop.now.marks.now hand.old hand.new }

    // the processor serves it still
    ensures number { proc.new.number ≡ proc.old.number }
    ensures serves { Serves hand.new.worker.view.generation hand.new.worker.view.own proc.new }
    ensures used { IsUsedCache hand.new.worker.view.own }
{
    refill(rt, proc, shop, hand, class)?;
    match alloc_hit(proc, shop.shared, &mut hand.worker, class) {
        Hit::At(addr) => Ok(addr),
        Hit::Miss => unreachable!(),
    }
}
