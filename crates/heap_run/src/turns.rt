//! A worker is handed out and taken in again, and the driver collects its notes; the flush of a processor that has no event.

ghost use Rattle.std.specs.Prelude.{◌≡◌, ◌++◌, ◌<◌, ◌≤◌, length, true, false, IfOk, OnOk};
ghost use Rattle.sweep_laws.specs.Lists.{has};
ghost use Rattle.span_laws.specs.Asks.{IsIdle};
ghost use Rattle.span_laws.specs.Handed.{handing, taking_in};
ghost use Rattle.span_state.specs.declared.sweep.SweepNote.{SweepNote};
ghost use Rattle.span_laws.specs.CacheAnswers.{IsSettled};
ghost use Rattle.heap_run.specs.Parts.{part_at};
ghost use Rattle.profile_cycle.specs.History.{joined, lent};
ghost use Rattle.span_set.specs.Asks.{WorksIn};
ghost use Rattle.heap_run.specs.Counts.{Counts, IsOut, no_counts};
ghost use Rattle.heap_run.specs.Turns.{IsCaching, SaysNone, TookTurn};

use edge_io::NoMemory;
use proc_cache::{Proc, flush};
use span_set::{Hand, Shop};
use span_state::SweepNote;
use std::alloc::Global;
use std::sync::Wait;
use sweep_lists::Entries;

/// A processor flushes its cache, where it has not done so in this cycle.
pub(crate) fn flush_processor<R: Wait>(
    rt: &R,
    alloc: Global,
    shop: &Shop,
    driver: &mut Hand,
    proc: &mut Proc,
) -> Result<(), NoMemory>
    // the driver works in the shop
    requires works { WorksIn shop.now driver.old }
    requires driver { driver.old.worker.number ≡ 69 }
    requires parts { length driver.old.worker.view.parts ≡ 70 }
    requires drives { driver.old.tally.view.drives ≡ true }

    // the processor, whose worker is at home
    requires number { proc.old.number < 69 }
    requires idle { IsIdle (part_at driver.old.worker proc.old.number) }
    requires caching { IsCaching driver.old.worker.view.generation (part_at driver.old.worker proc.old.number) proc.old }

    // what was done
    ensures turn { OnOk result (TookTurn proc.old.number SaysNone driver.old driver.new) }
    ensures flushed { OnOk result (proc.new.flushed ≡ driver.old.worker.view.generation) }

    // what is counted
    ensures countdown { OnOk result (proc.new.countdown ≡ proc.old.countdown) }
    ensures counts { OnOk result (Counts shop.now.marks.now no_counts driver.old driver.new) }

    // the processor serves it still
    ensures caching { OnOk result (IsCaching driver.old.worker.view.generation (part_at driver.new.worker proc.old.number) proc.new) }
    ensures number { OnOk result (proc.new.number ≡ proc.old.number) }
{
    let mut hand = send_out(alloc, shop, driver, proc.number(), false)?;
    flush(rt, proc, shop, &mut hand)?;
    bring_back(shop, driver, hand)
}

/// Hands the worker of a number out, with a tally of its own, and with a page cache or without one. Others may be out.
pub(crate) fn send_out(
    alloc: Global,
    shop: &Shop,
    driver: &mut Hand,
    number: u32,
    caching: bool,
) -> Result<Hand, NoMemory>
    // the driver
    requires table { driver.old.worker.table ≡ shop.now.shared.now }
    requires driver { driver.old.worker.number ≡ 69 }
    requires ring { driver.old.tally.ring ≡ shop.now.ring.now }
    requires drives { driver.old.tally.view.drives ≡ true }

    // the worker that goes
    requires number { number < 69 }
    requires home { has number driver.old.worker.away ≡ false }
    requires part { number < length driver.old.worker.view.parts }
    requires caching { caching ≡ true → (number < 64) × (number < driver.old.worker.view.procs) }

    // it is out
    ensures hand { IfOk result (λ hand. IsOut number driver.old hand) }
    ensures caching { IfOk result (λ hand. hand.worker.caching ≡ caching) }

    // the driver behind it
    ensures away { OnOk result (driver.new.worker ≡ handing number driver.old.worker) }
    ensures notes { OnOk result (driver.new.notes ≡ driver.old.notes) }
    ensures tally { OnOk result (driver.new.tally ≡ record driver.old.tally { view = lent driver.old.tally.view }) }
{
    let tally = shop.ring.split(&mut driver.tally)?;
    let worker = if caching {
        shop.shared.hand_out_for(&mut driver.worker, number)
    } else {
        shop.shared.hand_out(&mut driver.worker, number)
    };
    Ok(Hand::new(alloc, worker, tally))
}

/// Takes a worker in, with its notes behind those collected before, and its tally.
pub(crate) fn bring_back(shop: &Shop, driver: &mut Hand, hand: Hand) -> Result<(), NoMemory>
    // the driver
    requires table { driver.old.worker.table ≡ shop.now.shared.now }
    requires driver { driver.old.worker.number ≡ 69 }
    requires ring { driver.old.tally.ring ≡ shop.now.ring.now }
    requires drives { driver.old.tally.view.drives ≡ true }

    // the worker that comes back
    requires out { hand.worker.table ≡ shop.now.shared.now }
    requires settled { IsSettled hand.worker }
    requires of_ring { hand.tally.ring ≡ shop.now.ring.now }
    requires split { hand.tally.view.drives ≡ false }
    requires cycle { hand.tally.view.cycle ≡ driver.old.tally.view.cycle }

    // the driver behind it
    ensures worker { driver.new.worker ≡ taking_in hand.worker driver.old.worker }
    ensures notes { OnOk result (driver.new.notes.items ≡ driver.old.notes.items ++ hand.notes.items) }
    ensures tally { driver.new.tally ≡ record driver.old.tally { view = joined driver.old.tally.view hand.tally.view } }
{
    let Hand {
        worker,
        notes,
        tally,
    } = hand;
    shop.shared.take_in(&mut driver.worker, worker);
    shop.ring.join(&mut driver.tally, tally);
    collect(&mut driver.notes, notes.as_slice())
}

// Puts the notes of a hand behind those collected before.
fn collect(notes: &mut Entries<SweepNote>, more: &[SweepNote]) -> Result<(), NoMemory>
    ensures { OnOk result (notes.new.items ≡ notes.old.items ++ more.now) }
{
    for note in more {
        notes.reserve_one()?;
        notes.push(*note);
    }
    Ok(())
}
