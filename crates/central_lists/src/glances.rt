//! Looks at the heads and tails of a class's sets. They change nothing and move no body, so that a call that finds all sets empty costs
//! little.

ghost use Rattle.std.specs.Prelude.{◌≡◌, ◌<◌, true, false, IfSome, MatchOption, Ok};
ghost use Rattle.span_laws.specs.Asks.{IsAtWork};
ghost use Rattle.page_bitmap.specs.Counts.{one_if};
ghost use Rattle.worker_log.specs.SetNumbers.{swept_set, unswept_set};
ghost use Rattle.span_set.specs.Tallies.{Frees};
ghost use Rattle.central_lists.specs.Lists.{Caches};
ghost use Rattle.central_lists.specs.Looks.{Saw, SawEmpty, AnyLog};
ghost use Rattle.central_lists.specs.Works.{HandSearches, nothing};
ghost use Rattle.central_lists.specs.declared.answers.FromSets.TheVariants.{NeedFresh};
ghost use Rattle.central_lists.specs.declared.answers.Look.TheVariants.{Empty};

use span_set::{Hand, SetId, Shop, swept_number, unswept_number};

/// Whether an unswept set is seen empty.
pub(crate) fn sees_empty(shop: &Shop, hand: &mut Hand, class: u8, full: bool) -> bool
    requires works { IsAtWork shop.now.shared.now hand.old.worker }
    requires class { class < 136 }
    ensures empty { result ≡ true → HandSearches hand.old.worker.view.generation class 0 nothing nothing (SawEmpty (unswept_set hand.old.worker.view.generation class (one_if full))) hand.old hand.new }
    ensures looked { HandSearches hand.old.worker.view.generation class 0 nothing nothing AnyLog hand.old hand.new }
    ensures tally { Frees shop.now.marks.now hand.old hand.new }
{
    let generation = shop.shared.generation(&mut hand.worker);
    let set = unswept_number(SetId { class, full }, generation);
    let (head, tail) = shop.shared.look(&mut hand.worker, set);
    head == tail
}

/// The head of the swept partial set, where that is seen empty.
pub(crate) fn sees_no_swept(shop: &Shop, hand: &mut Hand, class: u8) -> Option<u32>
    requires works { IsAtWork shop.now.shared.now hand.old.worker }
    requires class { class < 136 }
    ensures saw { IfSome result (λ at. HandSearches hand.old.worker.view.generation class 0 nothing nothing (Saw (swept_set hand.old.worker.view.generation class 0) (Empty at)) hand.old hand.new) }
    ensures looked { HandSearches hand.old.worker.view.generation class 0 nothing nothing AnyLog hand.old hand.new }
    ensures tally { Frees shop.now.marks.now hand.old hand.new }
{
    let generation = shop.shared.generation(&mut hand.worker);
    let set = swept_number(SetId { class, full: false }, generation);
    let (head, tail) = shop.shared.look(&mut hand.worker, set);
    if head == tail { Some(head) } else { None }
}

/// The head of the swept partial set, where that and then both unswept sets of the class are seen empty.
pub(crate) fn sees_none(shop: &Shop, hand: &mut Hand, class: u8) -> Option<u32>
    requires works { IsAtWork shop.now.shared.now hand.old.worker }
    requires class { class < 136 }
    ensures none { MatchOption result
        (HandSearches hand.old.worker.view.generation class 0 nothing nothing AnyLog hand.old hand.new)
        (λ at. Caches hand.old.worker.view.generation class hand.old hand.new (Ok (NeedFresh (Empty at) 0))) }
    ensures table { hand.new.worker.table ≡ hand.old.worker.table }
    ensures tally { Frees shop.now.marks.now hand.old hand.new }
{
    let at = sees_no_swept(shop, hand, class)?;
    if !sees_empty(shop, hand, class, false) {
        return None;
    }
    if !sees_empty(shop, hand, class, true) {
        return None;
    }
    Some(at)
}
