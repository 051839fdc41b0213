ghost use Rattle.std.specs.Prelude.{◌≡◌, ◌<◌, ◌≤◌, true};
ghost use Rattle.span_laws.specs.Asks.{IsAtWork, IsIdle};
ghost use Rattle.span_set.specs.Asks.{WorksIn};
ghost use Rattle.span_set.specs.Tallies.{Frees};
ghost use Rattle.large_objects.specs.Larges.{AllocatesLarge, IsForOne, PutsObject};
ghost use Rattle.proc_cache.specs.Findings.{IsHolding};

use size_classes::{PAGE_SIZE, REGION_START};
use span_set::{Hand, SetId, Shop, push};
use span_state::Body;
use std::sync::Wait;
use sweeper::{Refused, new_span, pay};

/// Allocates a large object in a span of its own, of so many pages, at least 5, and span class 0 or 1 (`mcache.go`, `allocLarge`): the span's
/// bytes are paid for by sweeping, with the credit of its own pages; a span is made; the object is placed at index 0; and the
/// span goes to the swept full set. Answers the address. The cached spans stay as they are, whatever the call answers. Whether the object
/// is sampled is the processor's to say (`proc_cache`, `count_placed`).
///
/// NoRun comes with the Miss line of this call, only after each unswept set was seen empty, and the worker has no block then: its page cache, if
/// it has one, is settled.
pub fn alloc_large<R: Wait>(
    rt: &R,
    shop: &Shop,
    hand: &mut Hand,
    pages: u32,
    class: u8,
) -> Result<u64, Refused>
    requires works { WorksIn shop.now hand.old }
    requires large { class < 2 }
    requires pages { 5 ≤ pages }
    requires idle { IsIdle hand.old.worker.view.own }
    ensures did { AllocatesLarge shop.now.pages shop.now.distance pages class hand.old hand.new result }
    ensures tally { Frees shop.now.marks.now hand.old hand.new }
{
    let bytes = u64::from(pages) * PAGE_SIZE;
    let Ok(_) = pay(rt, shop, hand, bytes, pages) else {
        return Err(Refused::NoMemory);
    };
    let body = new_span(rt, shop, hand, pages, class)?;
    shop.shared.add_spent(&mut hand.worker, bytes);
    Ok(put_object(shop, hand, class, body))
}

// Places the object at index 0 of its new span, and lets the span go to the swept full set. Takes no memory.
fn put_object(shop: &Shop, hand: &mut Hand, class: u8, body: Body) -> u64
    requires works { IsAtWork shop.now.shared.now hand.old.worker }
    requires large { class < 2 }
    requires holds { IsHolding hand.old.worker.view.own body.page }
    requires body { IsForOne class body hand.old.worker }
    ensures puts { PutsObject class body hand.old hand.new result }
    ensures counted { hand.new.tally ≡ hand.old.tally }
{
    let mut body = body;
    shop.shared.note_alloc(&mut hand.worker, &mut body, 0);
    let addr = REGION_START + PAGE_SIZE * u64::from(body.page);
    let set = SetId { class, full: true };
    push(shop.shared, &mut hand.worker, set, body);
    addr
}
