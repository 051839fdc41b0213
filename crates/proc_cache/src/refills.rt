ghost use Rattle.std.specs.Prelude.{◌≡◌, ◌/◌, ◌<◌, ◌≤◌, true, None};
ghost use Rattle.sweep_laws.specs.Lists.{has};
ghost use Rattle.size_classes.specs.Classes.{pages_of};
ghost use Rattle.worker_log.specs.SetNumbers.{swept_set};
ghost use Rattle.span_laws.specs.BodyAsks.{IsFullBody};
ghost use Rattle.span_laws.specs.Asks.{IsAtWork, IsIdle};
ghost use Rattle.span_laws.specs.Views.{span_of};
ghost use Rattle.span_laws.specs.OwnSteps.{after_said};
ghost use Rattle.span_set.specs.Asks.{WorksIn};
ghost use Rattle.span_set.specs.Tallies.{Frees};
ghost use Rattle.proc_cache.specs.Hits.{IsMissing};
ghost use Rattle.proc_cache.specs.Cache.{slot_at};
ghost use Rattle.proc_cache.specs.RefillLogs.{bytes_of};
ghost use Rattle.proc_cache.specs.Findings.{Comes, FindsSpan, IsFor, IsHolding};
ghost use Rattle.proc_cache.specs.Refills.{KeepsSpan, LeavesFull, RefillsCache};
ghost use Rattle.proc_cache.specs.Serves.{IsCachedAt, IsUsedBut, IsUsedCache, Serves};

use crate::proc::Proc;
use central_lists::{FromSets, Look, cache_span};
use fallible_list::NoMemory;
use size_classes::{PAGE_SIZE, span_pages};
use span_set::{Hand, SetId, Shop, push};
use span_state::Body;
use span_table::{Said, Uncached};
use std::sync::Wait;
use sweeper::{Refused, new_span, pay};

/// Where the span of a refilled cache comes from.
#[derive(Clone, Copy, Debug, PartialEq, Eq)]
pub enum CacheFrom {
    /// From the swept partial set of the class.
    SweptPartial,
    /// From an unswept set of the class: this call swept it.
    SweptHere,
    /// It is a new one.
    Fresh {
        /// What was seen of the swept partial set.
        swept: Look,
        /// How many entries were popped from the unswept sets, at most 100.
        tried: u32,
    },
}

/// Gets a span with a free index for a span class, from 2 to 135, into the cache (`mcache.go`, `refill`): a full span goes to the swept
/// full set; the span's bytes are paid for by sweeping; and a span comes from the central lists, or is made. The processor has flushed in this
/// cycle, and the cached span of the class is absent or full.
///
/// After each refusal the slot of the class is empty, and the other classes are as they were. NoRun comes with the Miss line of
/// this call, only after each unswept set was seen empty, and the worker has no block then: its page cache, if it has one, is settled.
pub fn refill<R: Wait>(
    rt: &R,
    proc: &mut Proc,
    shop: &Shop,
    hand: &mut Hand,
    class: u8,
) -> Result<CacheFrom, Refused>
    // the hand works in the shop
    requires works { WorksIn shop.now hand.old }
    requires idle { IsIdle hand.old.worker.view.own }

    // the processor serves its worker
    requires serves { Serves hand.old.worker.view.generation hand.old.worker.view.own proc.old }
    requires used { IsUsedCache hand.old.worker.view.own }
    requires flushed { proc.old.flushed ≡ hand.old.worker.view.generation }
    requires missing { IsMissing proc.old class }

    // the span class
    requires small { 2 ≤ class }
    requires class { class < 136 }

    // what was done
    ensures refills { RefillsCache shop.now.pages shop.now.distance class proc.old proc.new hand.old hand.new result }

    // what is counted
    ensures countdown { proc.new.countdown ≡ proc.old.countdown }
    ensures tally { Frees shop.now.marks.now hand.old hand.new }

    // the processor serves it still
    ensures serves { Serves hand.new.worker.view.generation hand.new.worker.view.own proc.new }
    ensures used { IsUsedBut class hand.new.worker.view.own proc.new }
{
    leave_full(proc, shop, hand, class);
    match find_span(rt, shop, hand, class) {
        Ok((body, from)) => {
            keep_span(proc, shop, hand, class, body);
            Ok(from)
        }
        Err(refused) => Err(refused),
    }
}

// Lets the full span of a class, if there is one, go to the swept full set. Takes no memory.
fn leave_full(proc: &mut Proc, shop: &Shop, hand: &mut Hand, class: u8)
    // the worker
    requires works { IsAtWork shop.now.shared.now hand.old.worker }
    requires idle { IsIdle hand.old.worker.view.own }

    // the processor serves it
    requires serves { Serves hand.old.worker.view.generation hand.old.worker.view.own proc.old }
    requires used { IsUsedCache hand.old.worker.view.own }
    requires flushed { proc.old.flushed ≡ hand.old.worker.view.generation }
    requires missing { IsMissing proc.old class }

    // the span class
    requires class { class < 136 }

    // what was done
    ensures leaves { LeavesFull class proc.old proc.new hand.old hand.new }

    // what is counted
    ensures countdown { proc.new.countdown ≡ proc.old.countdown }
    ensures counted { hand.new.tally ≡ hand.old.tally }

    // the processor serves it still
    ensures serves { Serves hand.new.worker.view.generation hand.new.worker.view.own proc.new }
    ensures used { IsUsedCache hand.new.worker.view.own }
{
    if proc.slots[class as usize].is_some() {
        leave_span(proc, shop, hand, class);
    }
}

// The same of a slot with a span. It stands alone, so that an empty slot has no place for a body.
#[inline(never)]
fn leave_span(proc: &mut Proc, shop: &Shop, hand: &mut Hand, class: u8)
    // the worker
    requires works { IsAtWork shop.now.shared.now hand.old.worker }
    requires idle { IsIdle hand.old.worker.view.own }

    // the processor serves it
    requires serves { Serves hand.old.worker.view.generation hand.old.worker.view.own proc.old }
    requires used { IsUsedCache hand.old.worker.view.own }
    requires flushed { proc.old.flushed ≡ hand.old.worker.view.generation }
    requires missing { IsMissing proc.old class }

    // the span class
    requires class { class < 136 }

    // what was done
    ensures leaves { LeavesFull class proc.old proc.new hand.old hand.new }

    // what is counted
    ensures countdown { proc.new.countdown ≡ proc.old.countdown }
    ensures counted { hand.new.tally ≡ hand.old.tally }

    // the processor serves it still
    ensures serves { Serves hand.new.worker.view.generation hand.new.worker.view.own proc.new }
    ensures used { IsUsedCache hand.new.worker.view.own }
{
    let Some(body) = proc.slots[class as usize].take() else {
        return;
    };
    push_full(shop, hand, class, body);
}

// Takes a full span out of the cache, in which it is since this cycle, and pushes it.
fn push_full(shop: &Shop, hand: &mut Hand, class: u8, body: Body)
    // the worker
    requires works { IsAtWork shop.now.shared.now hand.old.worker }
    requires idle { IsIdle hand.old.worker.view.own }

    // the span
    requires class { class < 136 }
    requires cached { IsCachedAt hand.old.worker.view.generation hand.old.worker.view.own class (span_of body) }
    requires fresh { has body.page hand.old.worker.view.own.fresh ≡ true }
    requires full { IsFullBody body }

    // the worker behind it
    ensures view { hand.new.worker ≡ after_said (Said.Fills (swept_set hand.old.worker.view.generation class 1) body.page)
        (after_said (Said.Reads 1 hand.old.worker.view.generation) (after_said (Said.Uncaches body.page) hand.old.worker)) }

    // the rest of the hand
    ensures notes { hand.new.notes ≡ hand.old.notes }
    ensures counted { hand.new.tally ≡ hand.old.tally }
{
    match shop.shared.uncache(&mut hand.worker, &body) {
        Uncached::Fresh => push(
            shop.shared,
            &mut hand.worker,
            SetId { class, full: true },
            body,
        ),
        Uncached::Stale => unreachable!(),
    }
}

// Pays for a span of a class, and finds one, which the worker holds.
fn find_span<R: Wait>(
    rt: &R,
    shop: &Shop,
    hand: &mut Hand,
    class: u8,
) -> Result<(Body, CacheFrom), Refused>
    // the hand works in the shop
    requires works { WorksIn shop.now hand.old }
    requires idle { IsIdle hand.old.worker.view.own }

    // the span class
    requires small { 2 ≤ class }
    requires class { class < 136 }

    // what was done
    ensures finds { FindsSpan shop.now.pages shop.now.distance class hand.old hand.new result }
    ensures tally { Frees shop.now.marks.now hand.old hand.new }
{
    let pages = span_pages(class / 2);
    let Ok(_) = pay(rt, shop, hand, u64::from(pages) * PAGE_SIZE, 0) else {
        return Err(Refused::NoMemory);
    };
    take_span(rt, shop, hand, class, pages)
}

// Finds a span of a class that has so many pages: from the central lists, or a new one.
fn take_span<R: Wait>(
    rt: &R,
    shop: &Shop,
    hand: &mut Hand,
    class: u8,
    pages: u32,
) -> Result<(Body, CacheFrom), Refused>
    // the hand works in the shop
    requires works { WorksIn shop.now hand.old }
    requires idle { IsIdle hand.old.worker.view.own }

    // the span class
    requires small { 2 ≤ class }
    requires class { class < 136 }
    requires pages { pages ≡ pages_of (class / 2) }

    // what was done
    ensures comes { Comes class hand.old hand.new result }
    ensures tally { Frees shop.now.marks.now hand.old hand.new }
{
    match cache_span(shop, hand, class) {
        Ok(FromSets::SweptPartial(body)) => Ok((body, CacheFrom::SweptPartial)),
        Ok(FromSets::SweptHere(body)) => Ok((body, CacheFrom::SweptHere)),
        Ok(FromSets::NeedFresh { swept, tried }) => match new_span(rt, shop, hand, pages, class) {
            Ok(body) => Ok((body, CacheFrom::Fresh { swept, tried })),
            Err(refused) => Err(refused),
        },
        Err(NoMemory) => Err(Refused::NoMemory),
    }
}

// Caches a span that the worker holds, in the empty slot of its class, and adds its bytes to the spent ones. Takes no memory.
fn keep_span(proc: &mut Proc, shop: &Shop, hand: &mut Hand, class: u8, body: Body)
    // the worker
    requires works { IsAtWork shop.now.shared.now hand.old.worker }
    requires holds { IsHolding hand.old.worker.view.own body.page }

    // the span
    requires small { 2 ≤ class }
    requires class { class < 136 }
    requires body { IsFor class body hand.old hand.old }

    // the processor serves the worker
    requires serves { Serves hand.old.worker.view.generation hand.old.worker.view.own proc.old }
    requires flushed { proc.old.flushed ≡ hand.old.worker.view.generation }
    requires empty { slot_at proc.old class ≡ None }

    // what was done
    ensures keeps { KeepsSpan class (bytes_of class) body proc.old proc.new hand.old hand.new }
    ensures notes { hand.new.notes ≡ hand.old.notes }

    // what is counted
    ensures countdown { proc.new.countdown ≡ proc.old.countdown }
    ensures counted { hand.new.tally ≡ hand.old.tally }

    // the processor serves it still
    ensures serves { Serves hand.new.worker.view.generation hand.new.worker.view.own proc.new }
    ensures used { IsUsedCache hand.old.worker.view.own → IsUsedBut class hand.new.worker.view.own proc.new }
{
    let bytes = u64::from(span_pages(class / 2)) * PAGE_SIZE;
    shop.shared.add_spent(&mut hand.worker, bytes);
    shop.shared.mark_cached(&mut hand.worker, &body);
    proc.slots[class as usize] = Some(body);
}
