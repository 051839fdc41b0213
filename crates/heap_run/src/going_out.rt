//! The workers of a cycle go out, one after another, the last number first.

ghost use Rattle.std.specs.Prelude.{◌≡◌, ◌++◌, ◌∷◌, ◌+◌, [], ◌<◌, ◌≤◌, false, true, length, slice_index_or, slice_set, IfOk, OnOk};
ghost use Rattle.sweep_laws.specs.Lists.{has};
ghost use Rattle.span_laws.specs.Handed.{handing};
ghost use Rattle.profile_cycle.specs.History.{lent};
ghost use Rattle.span_set.specs.declared.hand.Hand.{Hand as Held};
ghost use Rattle.heap_run.specs.Counts.{IsOut};
ghost use Rattle.heap_run.specs.Out.{AreAsked, AreOf, AreSent, HasSent, IsSent, MayStart, helpers};

use crate::cycle::LentLists;
use crate::lanes::{Lane, SCAVENGER, Task, Turn};
use crate::queues::Queues;
use crate::turns::send_out;
use edge_io::{List, NoMemory};
use proc_cache::Proc;
use span_set::{Hand, Shop};
use std::alloc::Global;
use std::mem::replace;
use std::snapshot::Snapshot;

// The number of the first background sweeper.
const SWEEPERS: u32 = 64;

/// What was before anyone went out, for contracts alone.
#[derive(Drop)]
pub(crate) struct Start {
    pub(crate) driver: Snapshot<Hand>,
    pub(crate) procs: Snapshot<Vec<Proc>>,
    pub(crate) given: Snapshot<LentLists>,
}

/// Who is out, and the processors that stay for want of an event. Of each the last is the first to be taken back.
#[derive(Drop)]
pub(crate) struct Out {
    pub(crate) lanes: Vec<Lane>,
    pub(crate) resting: Vec<Proc>,
}

/// The scavenger, the background sweepers and each processor with an event go out, the processors with page caches if they have
/// one. Without memory the processors and their lists may
/// be lost.
pub(crate) fn send_all(
    alloc: Global,
    shop: &Shop,
    driver: &mut Hand,
    procs: &mut Vec<Proc>,
    queues: &Queues,
    background: u32,
    caching: bool,
    given: &mut LentLists,
    start: &Start,
) -> Result<Out, NoMemory>
    // how the workers start
    requires starts { MayStart shop.now.shared.now shop.now.ring.now shop.now.marks.now start.now }
    requires asked { AreAsked shop.now.ring.now.buckets queues.now.events queues.now.buckets start.now }
    requires few { background ≤ 4 }
    requires caching { caching ≡ true → length start.now.procs.value.items ≤ start.now.driver.value.worker.view.procs }

    // what the driver has
    requires driver { driver.old ≡ start.now.driver.value }
    requires procs { procs.old ≡ start.now.procs.value }
    requires given { given.old ≡ start.now.given.value }

    // who is out
    ensures sent { IfOk result (λ out. AreSent start.now queues.now.events background 0 out.lanes.items out.resting.items procs.new.items given.new driver.new) }
{
    let mut lanes = Vec::new(alloc);
    send_helpers(alloc, shop, driver, background, &mut lanes, start)?;
    let mut out = Out {
        lanes,
        resting: Vec::new(alloc),
    };
    let count = procs.len();
    for sent in 0..count {
        let number = count - 1 - sent;
        send_processor(
            alloc, shop, driver, procs, queues, background, caching, given, &mut out, number, start,
        )?;
    }
    Ok(out)
}

// The scavenger goes out, and then the background sweepers.
fn send_helpers(
    alloc: Global,
    shop: &Shop,
    driver: &mut Hand,
    background: u32,
    lanes: &mut Vec<Lane>,
    start: &Start,
) -> Result<(), NoMemory>
    requires starts { MayStart shop.now.shared.now shop.now.ring.now shop.now.marks.now start.now }
    requires driver { driver.old ≡ start.now.driver.value }
    requires none { lanes.old.items ≡ [] }
    requires few { background ≤ 4 }
    ensures sent { OnOk result (HasSent start.now.driver.value (helpers background) driver.new) }
    ensures lanes { OnOk result (AreOf (IsSent start.now) (helpers background) lanes.new.items) }
{
    send(alloc, shop, driver, SCAVENGER, false, Task::Scavenge, lanes)?;
    for sent in 0..background {
        let number = SWEEPERS + background - 1 - sent;
        send(
            alloc,
            shop,
            driver,
            number,
            false,
            Task::Sweep(number),
            lanes,
        )?;
    }
    Ok(())
}

// The last of the processors goes out, with a page cache where processors have one, or stays for want of an event.
fn send_processor(
    alloc: Global,
    shop: &Shop,
    driver: &mut Hand,
    procs: &mut Vec<Proc>,
    queues: &Queues,
    background: u32,
    caching: bool,
    given: &mut LentLists,
    out: &mut Out,
    number: usize,
    start: &Start,
) -> Result<(), NoMemory>
    // how the workers start
    requires starts { MayStart shop.now.shared.now shop.now.ring.now shop.now.marks.now start.now }
    requires asked { AreAsked shop.now.ring.now.buckets queues.now.events queues.now.buckets start.now }
    requires few { background ≤ 4 }
    requires caching { caching ≡ true → length start.now.procs.value.items ≤ start.now.driver.value.worker.view.procs }

    // who is out, and who goes
    requires number { number < length start.now.procs.value.items }
    requires sent { AreSent start.now queues.now.events background (number + 1) out.old.lanes.items out.old.resting.items procs.old.items given.old driver.old }

    // the same behind it
    ensures sent { OnOk result (AreSent start.now queues.now.events background number out.new.lanes.items out.new.resting.items procs.new.items given.new driver.new) }
{
    let Some(proc) = procs.pop() else {
        unreachable!()
    };
    if queues.events.of(number).is_empty() {
        out.resting.push(proc)?;
        return Ok(());
    }
    let turn = lend_lists(alloc, proc, number, given);
    let lanes = &mut out.lanes;
    send(
        alloc,
        shop,
        driver,
        number as u32,
        caching,
        Task::Allocate(turn),
        lanes,
    )?;
    Ok(())
}

// A processor with its lists, which leave empty ones.
fn lend_lists(alloc: Global, proc: Proc, number: usize, given: &mut LentLists) -> Turn
    requires answers { number < length given.old.answers.items }
    requires sampled { number < length given.old.sampled.items }
    ensures turn { result ≡ record { proc = proc; answers = slice_index_or given.old.answers.items number []; sampled = slice_index_or given.old.sampled.items number [] } }
    ensures answers { given.new.answers.items ≡ slice_set given.old.answers.items number [] }
    ensures sampled { given.new.sampled.items ≡ slice_set given.old.sampled.items number [] }
{
    Turn {
        proc,
        answers: replace(&mut given.answers[number], List::new(alloc)),
        sampled: replace(&mut given.sampled[number], List::new(alloc)),
    }
}

// The worker of a number goes out with its task, and with a page cache or without one.
fn send(
    alloc: Global,
    shop: &Shop,
    driver: &mut Hand,
    number: u32,
    caching: bool,
    task: Task,
    lanes: &mut Vec<Lane>,
) -> Result<(), NoMemory>
    // the driver
    requires table { driver.old.worker.table ≡ shop.now.shared.now }
    requires driver { driver.old.worker.number ≡ 69 }
    requires ring { driver.old.tally.ring ≡ shop.now.ring.now }
    requires drives { driver.old.tally.view.drives ≡ true }

    // the worker that goes
    requires number { number < 69 }
    requires home { has number driver.old.worker.away ≡ false }
    requires part { number < length driver.old.worker.view.parts }
    requires caching { caching ≡ true → (number < 64) × (number < driver.old.worker.view.procs) }

    // it is out
    ensures lane { OnOk result ((hand : Held) × IsOut number driver.old hand × (hand.worker.caching ≡ caching) × (lanes.new.items ≡ lanes.old.items ++ record { hand = hand; task = task; refused = false } ∷ [])) }

    // the driver behind it
    ensures away { OnOk result (driver.new.worker ≡ handing number driver.old.worker) }
    ensures notes { OnOk result (driver.new.notes ≡ driver.old.notes) }
    ensures tally { OnOk result (driver.new.tally ≡ record driver.old.tally { view = lent driver.old.tally.view }) }
{
    let hand = send_out(alloc, shop, driver, number, caching)?;
    lanes.push(Lane {
        hand,
        task,
        refused: false,
    })?;
    Ok(())
}
