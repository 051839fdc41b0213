ghost use Rattle.std.specs.Prelude.{◌<◌, ◌≤◌, length};
ghost use Rattle.sweeper_tests.specs.Rows.{IsReady};

use span_set::{Hand, PopBase, SetId, Shop, pop_unswept};
use span_state::SweepNote;
use span_table::Acquired;
use std::sync::Wait;
use sweeper::settle_span;

/// What a page or an entry of an unswept set leads to.
#[derive(Clone, Copy)]
pub(crate) enum Met {
    /// Its span waited, and was swept, with this note.
    Swept(SweepNote),
    /// The word of this page was this one, and not that of a span that waits.
    Other(u32, u64),
    /// The set was empty, with this head and tail.
    Empty(u32, u32),
}

// Sweeps the span of a page, where it waits.
pub(crate) fn meet_page<R: Wait>(rt: &R, shop: &Shop, hand: &mut Hand, page: u32) -> Met
    requires ready { IsReady shop.now.shared.now shop.now.ring.now shop.now.marks.now hand.old }
    requires room { length hand.old.notes.items < hand.old.notes.space }
    requires low { page < hand.old.worker.view.region }
    ensures { IsReady shop.now.shared.now shop.now.ring.now shop.now.marks.now hand.new }
{
    match shop.shared.acquire(&mut hand.worker, page) {
        Acquired::Got(body) => Met::Swept(settle_span(rt, shop, hand, body)),
        Acquired::Other(word) => Met::Other(page, word),
    }
}

// Pops an entry of an unswept set, and sweeps its span where it waits.
pub(crate) fn meet_entry<R: Wait>(rt: &R, shop: &Shop, hand: &mut Hand, set: SetId) -> Met
    requires ready { IsReady shop.now.shared.now shop.now.ring.now shop.now.marks.now hand.old }
    requires room { length hand.old.notes.items < hand.old.notes.space }
    requires class { set.class < 136 }
    ensures { IsReady shop.now.shared.now shop.now.ring.now shop.now.marks.now hand.new }
{
    let page = match pop_unswept(shop.shared, &mut hand.worker, set) {
        PopBase::Popped(page) => page,
        PopBase::Empty { head, tail } => return Met::Empty(head, tail),
    };
    match shop.shared.acquire(&mut hand.worker, page) {
        Acquired::Got(body) => Met::Swept(settle_span(rt, shop, hand, body)),
        Acquired::Other(word) => Met::Other(page, word),
    }
}
