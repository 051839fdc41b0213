ghost use Rattle.std.specs.Prelude.{◌≡◌, ◌<◌, ◌≤◌, [], true, None};
ghost use Rattle.page_alloc.specs.FreeRuns.{IsSpanSize};
ghost use Rattle.span_set.specs.Asks.{WorksIn};
ghost use Rattle.span_set.specs.Tallies.{Frees};
ghost use Rattle.sweeper.specs.MakeSteps.{SweepsAndTakes};
ghost use Rattle.sweeper.specs.NewSpans.{MakesSpan};

use crate::cuts::cut_or_take;
use crate::payments::finish;
use crate::reclaimer::reclaim;
use fallible_list::NoMemory;
use span_set::{Hand, Shop};
use span_state::Body;
use span_table::Refused;
use std::sync::Wait;

/// Makes a span of n pages and this span class, which the worker then holds (`mheap.go`, `alloc` and `allocSpan`): it reclaims n
/// pages. A worker with a page cache that wants fewer than 16 pages cuts the span out of its block; where that gives nothing and the
/// block has no page left or isn't there, it settles, pulls another block and cuts again. Where it still has no span, it takes a run
/// at first fit. Where no run fits, it sweeps all that is left in the unswept sets, settles its own block (ours) and takes
/// again. n is the pages of the small class, or at least 5 for span class 0 or 1.
///
/// NoRun where no run of n pages is free then, with the Miss line that says so: pages in the blocks of others count as taken, and
/// the worker has no block then. After NoMemory the sweeps and the claims of chunks before stand, and so do the settling and pulling
/// of the own block, and the worker holds no further span.
pub fn new_span<R: Wait>(
    rt: &R,
    shop: &Shop,
    hand: &mut Hand,
    n: u32,
    class: u8,
) -> Result<Body, Refused>
    // the hand works in the shop
    requires works { WorksIn shop.now hand.old }
    requires unclaimed { hand.old.worker.view.own.claimed ≡ None }
    requires unpopped { hand.old.worker.view.own.popped ≡ [] }

    // the span
    requires size { IsSpanSize class n }
    requires class { class < 136 }

    // what was done
    ensures did { MakesSpan n class hand.old hand.new result }
    ensures tally { Frees shop.now.marks.now hand.old hand.new }
{
    let Ok(_) = reclaim(rt, shop, hand, n) else {
        return Err(Refused::NoMemory);
    };
    match cut_or_take(rt, shop, hand, n, class) {
        Ok(Some(body)) => Ok(body),
        Ok(None) => sweep_and_take(rt, shop, hand, n, class),
        Err(NoMemory) => Err(Refused::NoMemory),
    }
}

// Sweeps all that is left, settles the own block, and then takes.
fn sweep_and_take<R: Wait>(
    rt: &R,
    shop: &Shop,
    hand: &mut Hand,
    n: u32,
    class: u8,
) -> Result<Body, Refused>
    // the hand works in the shop
    requires works { WorksIn shop.now hand.old }
    requires unclaimed { hand.old.worker.view.own.claimed ≡ None }
    requires unpopped { hand.old.worker.view.own.popped ≡ [] }

    // the span
    requires size { IsSpanSize class n }
    requires class { class < 136 }

    // what was done
    ensures did { SweepsAndTakes n class hand.old hand.new result }
    ensures tally { Frees shop.now.marks.now hand.old hand.new }
{
    let Ok(()) = finish(rt, shop, hand) else {
        return Err(Refused::NoMemory);
    };
    shop.shared.settle(rt, &mut hand.worker);
    shop.shared.take_span(rt, &mut hand.worker, n, class)
}
