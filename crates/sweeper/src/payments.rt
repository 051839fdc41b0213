ghost use Rattle.std.specs.Prelude.{◌≡◌, ◌<◌, ◌≤◌, [], true, None};
ghost use Rattle.span_laws.specs.Asks.{IsAtWork};
ghost use Rattle.span_set.specs.Asks.{WorksIn};
ghost use Rattle.span_set.specs.Sets.{unswept_of};
ghost use Rattle.span_set.specs.Tallies.{Frees};
ghost use Rattle.sweeper.specs.Pays.{Pays, target_of};
ghost use Rattle.sweeper.specs.PaySteps.{ReadsSwept, SweepsSet, SweepsUntil};
ghost use Rattle.sweeper.specs.Sweeps.{Finishes};

use crate::answers::Paid;
use crate::sweep::{set_at, sweep_next};
use fallible_list::NoMemory;
use span_set::{Hand, SetId, Shop};
use std::sync::Wait;

// No number of swept pages reaches it.
const ALL: u128 = u128::MAX;

// The first cycle's generation.
const FIRST: u64 = 4;

// The pages to be swept before so many bytes more are allocated, with a credit of pages. It fits for all numbers.
fn target(generation: u64, pages: u32, distance: u64, spent: u64, bytes: u64, credit: u32) -> u128
    requires { 1 ≤ distance }
    ensures { result ≡ target_of generation pages distance spent bytes credit }
{
    if generation == FIRST {
        return 0;
    }
    let bytes = u128::from(bytes) + u128::from(spent);
    (u128::from(pages) * bytes / u128::from(distance)).saturating_sub(u128::from(credit))
}

// The swept pages, where they reach the target.
fn reached(shop: &Shop, hand: &mut Hand, target: u128) -> Option<u64>
    requires works { IsAtWork shop.now.shared.now hand.old.worker }
    ensures did { ReadsSwept target hand.old hand.new result }
{
    let seen = shop.shared.swept(&mut hand.worker);
    if target <= u128::from(seen) {
        return Some(seen);
    }
    None
}

// Sweeps the spans of an unswept set that has an entry, until the swept pages, which it answers, reach the target; none where the
// set was seen empty.
fn sweep_entries<R: Wait>(
    rt: &R,
    shop: &Shop,
    hand: &mut Hand,
    set: SetId,
    target: u128,
) -> Result<Option<u64>, NoMemory>
    requires works { WorksIn shop.now hand.old }
    requires unclaimed { hand.old.worker.view.own.claimed ≡ None }
    requires unpopped { hand.old.worker.view.own.popped ≡ [] }
    requires class { set.class < 136 }
    ensures did { SweepsSet (unswept_of hand.old.worker.view.generation set) target hand.old hand.new result }
    ensures tally { Frees shop.now.marks.now hand.old hand.new }
{
    for _ in 0..u64::MAX {
        hand.reserve_note()?;
        let Some(_) = sweep_next(rt, shop, hand, set) else {
            return Ok(None);
        };
        if let Some(seen) = reached(shop, hand, target) {
            return Ok(Some(seen));
        }
    }
    unreachable!()
}

// The same through all unswept sets, where the swept pages don't reach the target before.
fn sweep_until<R: Wait>(
    rt: &R,
    shop: &Shop,
    hand: &mut Hand,
    target: u128,
) -> Result<Option<u64>, NoMemory>
    requires works { WorksIn shop.now hand.old }
    requires unclaimed { hand.old.worker.view.own.claimed ≡ None }
    requires unpopped { hand.old.worker.view.own.popped ≡ [] }
    ensures did { SweepsUntil 272 target hand.old hand.new result }
    ensures tally { Frees shop.now.marks.now hand.old hand.new }
{
    if let Some(seen) = reached(shop, hand, target) {
        return Ok(Some(seen));
    }
    let mut next: u32 = 0;
    while let Some(index) = shop.shared.next_unswept(&mut hand.worker, next) {
        if let Some(seen) = sweep_entries(rt, shop, hand, set_at(index), target)? {
            return Ok(Some(seen));
        }
        next = index + 1;
    }
    Ok(None)
}

/// Pays for so many bytes, with a credit of so many pages, by sweeping until the swept pages of this cycle reach the target or
/// nothing is left (`mgcsweep.go`, `deductSweepCredit`). The target is `pages * (bytes + spent) / distance - credit` by the shop's
/// pages and distance and the bytes spent in this cycle; 0 where that is below 0, and in the first cycle.
///
/// `Reached` only where the swept pages, read in this call, were at least the target, and `NothingLeft` only where each unswept
/// set was seen empty in this call. After NoMemory the sweeps before stand.
pub fn pay<R: Wait>(
    rt: &R,
    shop: &Shop,
    hand: &mut Hand,
    bytes: u64,
    credit: u32,
) -> Result<Paid, NoMemory>
    requires works { WorksIn shop.now hand.old }
    requires unclaimed { hand.old.worker.view.own.claimed ≡ None }
    requires unpopped { hand.old.worker.view.own.popped ≡ [] }
    ensures did { Pays shop.now.pages shop.now.distance bytes credit hand.old hand.new result }
    ensures tally { Frees shop.now.marks.now hand.old hand.new }
{
    let generation = shop.shared.generation(&mut hand.worker);
    let spent = shop.shared.spent(&mut hand.worker);
    let distance = shop.distance.bytes();
    let target = target(generation, shop.pages, distance, spent, bytes, credit);
    match sweep_until(rt, shop, hand, target)? {
        Some(seen) => Ok(Paid::Reached {
            seen,
            target: target as u64,
        }),
        None => Ok(Paid::NothingLeft),
    }
}

/// Sweeps until each unswept set was seen empty in this call. After NoMemory the sweeps before stand.
pub fn finish<R: Wait>(rt: &R, shop: &Shop, driver: &mut Hand) -> Result<(), NoMemory>
    requires works { WorksIn shop.now driver.old }
    requires unclaimed { driver.old.worker.view.own.claimed ≡ None }
    requires unpopped { driver.old.worker.view.own.popped ≡ [] }
    ensures did { Finishes driver.old driver.new result }
    ensures tally { Frees shop.now.marks.now driver.old driver.new }
{
    sweep_until(rt, shop, driver, ALL)?;
    Ok(())
}
