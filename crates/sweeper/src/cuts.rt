ghost use Rattle.std.specs.Prelude.{◌≡◌, ◌<◌, [], true, None};
ghost use Rattle.page_alloc.specs.FreeRuns.{IsSpanSize};
ghost use Rattle.span_laws.specs.Asks.{IsAtWork};
ghost use Rattle.sweeper.specs.MakeSteps.{CutsOrPulls, CutsOrTakes};

use fallible_list::NoMemory;
use span_laws::Pulled;
use span_set::{Hand, Shop};
use span_state::Body;
use span_table::{Shared, Worker};
use std::sync::Wait;

// A worker whose page cache gives no more than 15 pages at a time asks it for fewer than these.
const CUT_PAGES: u32 = 16;

// Cuts a span of n pages out of the worker's block. Where that gives nothing and the block has no page left or isn't there, it is settled,
// another one is pulled, and the span is cut out of that. None where there is none to cut, or the worker has no page cache.
fn cut_or_pull<R: Wait>(
    rt: &R,
    shared: &Shared,
    w: &mut Worker,
    n: u32,
    class: u8,
) -> Result<Option<Body>, NoMemory>
    requires works { IsAtWork shared.now w.old }
    requires few { n < 16 }
    requires size { IsSpanSize class n }
    requires class { class < 136 }
    ensures did { CutsOrPulls n class w.old w.new result }
{
    let Some(left) = w.cached_pages() else {
        return Ok(None);
    };
    if let Some(body) = shared.cut(w, n, class) {
        return Ok(Some(body));
    }
    if left > 0 {
        return Ok(None);
    }
    shared.settle(rt, w);
    match shared.pull(rt, w)? {
        Pulled::Got(_) => Ok(shared.cut(w, n, class)),
        Pulled::NoPage => Ok(None),
    }
}

// Makes a span of n pages: it is cut where the worker has a page cache and there are fewer than 16, and else a run is taken at first fit. None
// where no run fits.
pub(crate) fn cut_or_take<R: Wait>(
    rt: &R,
    shop: &Shop,
    hand: &mut Hand,
    n: u32,
    class: u8,
) -> Result<Option<Body>, NoMemory>
    // the worker
    requires works { IsAtWork shop.now.shared.now hand.old.worker }
    requires unpopped { hand.old.worker.view.own.popped ≡ [] }

    // the span
    requires size { IsSpanSize class n }
    requires class { class < 136 }

    // what was done
    ensures did { CutsOrTakes n class hand.old hand.new result }

    // the rest of the hand
    ensures notes { hand.new.notes ≡ hand.old.notes }
    ensures tally { hand.new.tally ≡ hand.old.tally }
{
    if n < CUT_PAGES {
        if let Some(body) = cut_or_pull(rt, shop.shared, &mut hand.worker, n, class)? {
            return Ok(Some(body));
        }
    }
    shop.shared.try_span(rt, &mut hand.worker, n, class)
}
