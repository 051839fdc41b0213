ghost use Rattle.std.specs.Prelude.{◌<◌, ◌≤◌, IfOk};
ghost use Rattle.span_set.specs.Asks.{MaySearch};

use central_lists::{FromSets, Look, cache_span};
use fallible_list::NoMemory;
use profile_cycle::Ring;
use size_classes::PAGE_SIZE;
use span_set::{Distance, Hand, Shop};
use span_state::Marks;
use span_table::Shared;
use std::alloc::Global;
use std::process::Abort;
use std::test::Fail;

// What a hand works on, and the driver's hand.
#[derive(Drop)]
struct Scene {
    shared: Shared,
    marks: Marks,
    ring: Ring,
    hand: Hand,
}

// A region of one chunk without spans, and a ring of one bucket.
fn start(alloc: Global) -> Result<Scene, NoMemory>
    ensures { IfOk result (λ s. MaySearch s.shared s.ring s.marks s.hand) }
{
    let (ring, tally) = Ring::new(alloc, 1)?;
    let (shared, driver) = Shared::new(alloc, 1, 512, 0)?;
    Ok(Scene {
        shared,
        marks: Marks::empty(alloc),
        ring,
        hand: Hand::new(alloc, driver, tally),
    })
}

// The call sees all sets of the class empty from their start on, and pops nothing.
fn finds_none(rt: &impl Abort, shop: &Shop, hand: &mut Hand, class: u8) -> Result<(), NoMemory>
    requires ready { MaySearch shop.now.shared.now shop.now.ring.now shop.now.marks.now hand.old }
    requires class { class < 136 }
    ensures { IfOk result (λ _. MaySearch shop.now.shared.now shop.now.ring.now shop.now.marks.now hand.new) }
{
    let FromSets::NeedFresh { swept, tried } = cache_span(shop, hand, class)? else {
        panic!(rt; "class {class} has a span");
    };
    assert_eq!(rt; swept, Look::Empty { at: 0 });
    assert_eq!(rt; tried, 0);
    Ok(())
}

// No class has a span.
fn all_find_none(rt: &impl Abort, shop: &Shop, hand: &mut Hand) -> Result<(), NoMemory>
    requires ready { MaySearch shop.now.shared.now shop.now.ring.now shop.now.marks.now hand.old }
{
    for class in 0..136 {
        finds_none(rt, shop, hand, class)?;
    }
    Ok(())
}

#[test]
fn new_table_has_no_span(rt: HostRuntime) -> Result<(), Fail> {
    let alloc = rt.alloc();
    let Scene {
        shared,
        marks,
        ring,
        mut hand,
    } = start(alloc)?;
    let shop = Shop {
        shared: &shared,
        marks: &marks,
        ring: &ring,
        distance: Distance::of(PAGE_SIZE),
        pages: 0,
    };
    all_find_none(&rt, &shop, &mut hand)?;
    assert_eq!(rt; hand.notes.len(), 0);
    Ok(())
}
