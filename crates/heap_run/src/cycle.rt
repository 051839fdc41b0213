//! One cycle of a run: the turns of all workers, and its end.

ghost use Rattle.std.specs.Prelude.{◌≡◌, ℕ, ◌^◌, ◌<◌, ◌≤◌, ◌+◌, [], All, length, slice_index_or, vec_len, false, true, IfOk, OnOk};
ghost use Rattle.heap_run.specs.Parts.{part_at};
ghost use Rattle.heap_run.specs.Riding.{HaveRidden};
ghost use Rattle.heap_run.specs.Settled.{HasFlushed, HasSettled, HasWorked};
ghost use Rattle.span_set.specs.Asks.{WorksIn};
ghost use Rattle.sample_laws.specs.Counted.{all_counts};
ghost use Rattle.heap_run.specs.Counts.{HaveBuckets, Counts, HaveSampled, KeepCountdowns, no_counts};
ghost use Rattle.heap_run.specs.Gains.{HaveKept, gains};
ghost use Rattle.heap_run.specs.Out.{AreAsked, AreOf, AreStillOut, HasOut, HasTaken, IsBack, IsTakenIn, MayJoin, MayStart, helpers};
ghost use Rattle.heap_run.specs.Turns.{HaveAnswered, IsCollecting, IsDriving, KeepsAnswers, SaysNone, no_cache};

use crate::going_out::{Out, Start, send_all};
use crate::lanes::{Lane, Task, run_all};
use crate::queues::Queues;
use crate::turns::{bring_back, flush_processor};
use cycle_history::Answer;
use edge_io::{Gate, List, NoMemory};
use proc_cache::Proc;
use profile_readers::{Board, Viewer};
use scavenger::scavenge_to;
use span_set::{Hand, Shop};
use std::alloc::Global;
use std::snapshot::Snapshot;
use std::sync::Wait;
use std::thread::Threads;
use sweeper::finish;

/// The lists in which each processor puts what its events come to: the answers, and which of the objects are sampled.
#[derive(Drop)]
pub(crate) struct LentLists {
    pub answers: Vec<List<Answer>>,
    pub sampled: Vec<List<bool>>,
}

/// The processors with an event, with page caches if they have one, the background sweepers, the scavenger and the viewers run beside each
/// other, and the driver takes all workers in.
/// What the processors' events come to is put behind what is in their lists. Without memory the processors and their lists may be
/// lost.
pub(crate) fn run_beside<B: Board + Send + Sync, R: Threads + Wait + Sync, G: Gate>(
    rt: &R,
    alloc: Global,
    shop: &Shop,
    driver: &mut Hand,
    procs: &mut Vec<Proc>,
    queues: &Queues,
    background: u32,
    caching: bool,
    gate: &G,
    given: &mut LentLists,
    viewers: &mut [Viewer<B>],
) -> Result<(), NoMemory>
    // the driver works in the shop, and all are at home
    requires works { WorksIn shop.now driver.old }
    requires parts { length driver.old.worker.view.parts ≡ 70 }
    requires drives { driver.old.tally.view.drives ≡ true }
    requires driving { IsDriving driver.old.worker procs.old.items driver.old }
    requires collecting { IsCollecting driver.old }
    requires quiet { (w : ℕ) → SaysNone (part_at driver.old.worker w).log }

    // the processors, with their queues and lists
    requires few { vec_len procs.old ≤ 64 }
    requires caching { caching ≡ true → vec_len procs.old ≤ driver.old.worker.view.procs }
    requires count { length queues.now.events ≡ vec_len procs.old }
    requires buckets { length queues.now.buckets ≡ vec_len procs.old }
    requires lists { (vec_len given.old.answers ≡ vec_len procs.old) × (vec_len given.old.sampled ≡ vec_len procs.old) }
    requires numbered { HaveBuckets shop.now.ring.now.buckets queues.now.events queues.now.buckets }
    requires sizes { (w : ℕ) → All (λ e. e.size ≤ 2 ^ 40) (slice_index_or queues.now.events w []) }

    // the helpers
    requires background { background ≤ 4 }

    // the driver has all again
    ensures driving { OnOk result (IsDriving driver.old.worker procs.new.items driver.new) }
    ensures procs { OnOk result (vec_len procs.new ≡ vec_len procs.old) }
    ensures collecting { OnOk result (IsCollecting driver.new) }

    // what the processors answered
    ensures answered { OnOk result (HaveAnswered queues.now.riding queues.now.events (gains given.old.answers.items given.new.answers.items) driver.new.worker) }
    ensures riders { OnOk result (HaveRidden queues.now.riding queues.now.events (gains given.old.answers.items given.new.answers.items)) }
    ensures size { OnOk result ((vec_len given.new.answers ≡ vec_len procs.old) × (vec_len given.new.sampled ≡ vec_len procs.old)) }
    ensures sampled { OnOk result (HaveSampled queues.now.riding queues.now.events (gains given.old.answers.items given.new.answers.items) (gains given.old.sampled.items given.new.sampled.items) procs.old.items procs.new.items) }
    ensures kept { OnOk result (HaveKept given.old.answers.items given.new.answers.items × HaveKept given.old.sampled.items given.new.sampled.items) }

    // what is counted
    ensures counts { OnOk result (Counts shop.now.marks.now (all_counts (vec_len procs.old) (gains given.old.sampled.items given.new.sampled.items) queues.now.buckets) driver.old driver.new) }
{
    let start = Start {
        driver: Snapshot::of(&*driver),
        procs: Snapshot::of(&*procs),
        given: Snapshot::of(&*given),
    };
    let mut out = send_all(
        alloc, shop, driver, procs, queues, background, caching, given, &start,
    )?;
    run_all(
        rt,
        alloc,
        shop,
        queues,
        gate,
        out.lanes.as_mut_slice(),
        viewers,
    );
    take_processors(
        shop, driver, procs, queues, background, given, &mut out, &start,
    )?;
    take_helpers(
        shop, driver, procs, queues, background, given, out.lanes, &start,
    )?;
    Ok(())
}

// The processors are taken in, in rising order.
fn take_processors(
    shop: &Shop,
    driver: &mut Hand,
    procs: &mut Vec<Proc>,
    queues: &Queues,
    background: u32,
    given: &mut LentLists,
    out: &mut Out,
    start: &Start,
) -> Result<(), NoMemory>
    requires starts { MayStart shop.now.shared.now shop.now.ring.now shop.now.marks.now start.now }
    requires asked { AreAsked shop.now.ring.now.buckets queues.now.events queues.now.buckets start.now }
    requires out { AreStillOut queues.now.riding start.now shop.now.marks.now queues.now.events queues.now.buckets background 0 out.old.lanes.items out.old.resting.items procs.old.items given.old driver.old }
    ensures out { OnOk result (AreStillOut queues.now.riding start.now shop.now.marks.now queues.now.events queues.now.buckets background (length start.now.procs.value.items) out.new.lanes.items out.new.resting.items procs.new.items given.new driver.new) }
{
    for number in 0..given.answers.len() {
        take_processor(
            shop, driver, procs, queues, background, given, out, number, start,
        )?;
    }
    Ok(())
}

// The next processor is taken in, with what it has done, or has stayed for want of an event.
fn take_processor(
    shop: &Shop,
    driver: &mut Hand,
    procs: &mut Vec<Proc>,
    queues: &Queues,
    background: u32,
    given: &mut LentLists,
    out: &mut Out,
    number: usize,
    start: &Start,
) -> Result<(), NoMemory>
    requires starts { MayStart shop.now.shared.now shop.now.ring.now shop.now.marks.now start.now }
    requires asked { AreAsked shop.now.ring.now.buckets queues.now.events queues.now.buckets start.now }
    requires number { number < length start.now.procs.value.items }
    requires out { AreStillOut queues.now.riding start.now shop.now.marks.now queues.now.events queues.now.buckets background number out.old.lanes.items out.old.resting.items procs.old.items given.old driver.old }
    ensures out { OnOk result (AreStillOut queues.now.riding start.now shop.now.marks.now queues.now.events queues.now.buckets background (number + 1) out.new.lanes.items out.new.resting.items procs.new.items given.new driver.new) }
{
    if queues.events.of(number).is_empty() {
        let Some(proc) = out.resting.pop() else {
            unreachable!()
        };
        procs.push(proc)?;
        return Ok(());
    }
    let Some(lane) = out.lanes.pop() else {
        unreachable!()
    };
    let task = take_in(shop, driver, lane)?;
    let Task::Allocate(turn) = task else {
        unreachable!()
    };
    procs.push(turn.proc)?;
    given.answers[number] = turn.answers;
    given.sampled[number] = turn.sampled;
    Ok(())
}

// The background sweepers and the scavenger are taken in, in rising order.
fn take_helpers(
    shop: &Shop,
    driver: &mut Hand,
    procs: &Vec<Proc>,
    queues: &Queues,
    background: u32,
    given: &LentLists,
    mut lanes: Vec<Lane>,
    start: &Start,
) -> Result<(), NoMemory>
    // how the workers started
    requires starts { MayStart shop.now.shared.now shop.now.ring.now shop.now.marks.now start.now }
    requires few { background ≤ 4 }

    // who is out, and what was taken in
    requires out { HasOut start.now.driver.value (helpers background) driver.old }
    requires lanes { AreOf (IsBack queues.now.riding start.now shop.now.marks.now queues.now.events queues.now.buckets) (helpers background) lanes.items }
    requires taken { HasTaken queues.now.riding start.now shop.now.marks.now queues.now.events queues.now.buckets (length start.now.procs.value.items) procs.now.items given.now driver.old }

    // the same behind it
    ensures out { OnOk result (HasOut start.now.driver.value [] driver.new) }
    ensures taken { OnOk result (HasTaken queues.now.riding start.now shop.now.marks.now queues.now.events queues.now.buckets (length start.now.procs.value.items) procs.now.items given.now driver.new) }
{
    for _back in 0..lanes.len() {
        let Some(lane) = lanes.pop() else {
            unreachable!()
        };
        take_in(shop, driver, lane)?;
    }
    Ok(())
}

// Takes in a worker that has run, with its notes and its tally, and says what it did. Where it found no memory, that is the answer.
fn take_in(shop: &Shop, driver: &mut Hand, lane: Lane) -> Result<Task, NoMemory>
    // the driver
    requires table { driver.old.worker.table ≡ shop.now.shared.now }
    requires driver { driver.old.worker.number ≡ 69 }
    requires ring { driver.old.tally.ring ≡ shop.now.ring.now }
    requires drives { driver.old.tally.view.drives ≡ true }

    // the worker that comes back
    requires back { lane.refused ≡ false → MayJoin shop.now.shared.now shop.now.ring.now driver.old lane.hand }

    // what was done
    ensures ran { OnOk result (lane.refused ≡ false) }
    ensures task { IfOk result (λ task. task ≡ lane.task) }
    ensures taken { OnOk result (IsTakenIn lane.hand driver.old driver.new) }
{
    let Lane {
        hand,
        task,
        refused,
    } = lane;
    if refused {
        return Err(NoMemory);
    }
    bring_back(shop, driver, hand)?;
    Ok(task)
}

/// Each processor flushes its cache, where it has not done so in this cycle.
pub(crate) fn flush_processors<R: Wait>(
    rt: &R,
    alloc: Global,
    shop: &Shop,
    driver: &mut Hand,
    procs: &mut Vec<Proc>,
) -> Result<(), NoMemory>
    // the driver works in the shop, and all are at home
    requires works { WorksIn shop.now driver.old }
    requires parts { length driver.old.worker.view.parts ≡ 70 }
    requires drives { driver.old.tally.view.drives ≡ true }
    requires driving { IsDriving driver.old.worker procs.old.items driver.old }
    requires collecting { IsCollecting driver.old }

    // the processors
    requires few { vec_len procs.old ≤ 64 }

    // the driver has all again
    ensures driving { OnOk result (IsDriving driver.old.worker procs.new.items driver.new) }
    ensures procs { OnOk result (vec_len procs.new ≡ vec_len procs.old) }
    ensures collecting { OnOk result (IsCollecting driver.new) }
    ensures own { OnOk result (part_at driver.new.worker 69 ≡ part_at driver.old.worker 69) }

    // the processors behind it
    ensures keeps { OnOk result (KeepsAnswers driver.old.worker driver.new.worker) }
    ensures flushed { OnOk result ((i : ℕ) → i < vec_len procs.new → (slice_index_or procs.new.items i no_cache).flushed ≡ driver.old.worker.view.generation) }
    ensures countdowns { OnOk result (KeepCountdowns procs.old.items procs.new.items) }

    // what is counted
    ensures counts { OnOk result (Counts shop.now.marks.now no_counts driver.old driver.new) }
{
    for p in 0..procs.len() {
        flush_processor(rt, alloc, shop, driver, &mut procs[p])?;
    }
    Ok(())
}

/// Ends a cycle: sweeps what is left, has the processors flush that have not done so, scavenges to the goal, and settles.
pub(crate) fn end_cycle<R: Wait>(
    rt: &R,
    alloc: Global,
    shop: &Shop,
    driver: &mut Hand,
    procs: &mut Vec<Proc>,
) -> Result<(), NoMemory>
    // the driver works in the shop, and all are at home
    requires works { WorksIn shop.now driver.old }
    requires parts { length driver.old.worker.view.parts ≡ 70 }
    requires drives { driver.old.tally.view.drives ≡ true }
    requires driving { IsDriving driver.old.worker procs.old.items driver.old }
    requires collecting { IsCollecting driver.old }

    // the processors
    requires few { vec_len procs.old ≤ 64 }

    // the driver has all again, and the cycle ended
    ensures driving { OnOk result (IsDriving driver.old.worker procs.new.items driver.new) }
    ensures procs { OnOk result (vec_len procs.new ≡ vec_len procs.old) }
    ensures collecting { OnOk result (IsCollecting driver.new) }
    ensures settled { OnOk result (HasSettled driver.new.worker) }

    // the processors behind it
    ensures keeps { OnOk result (KeepsAnswers driver.old.worker driver.new.worker) }
    ensures flushed { OnOk result (HasFlushed procs.new.items driver.new.worker) }
    ensures countdowns { OnOk result (KeepCountdowns procs.old.items procs.new.items) }

    // what is counted
    ensures counts { OnOk result (Counts shop.now.marks.now no_counts driver.old driver.new) }
{
    finish(rt, shop, driver)?;
    flush_processors(rt, alloc, shop, driver, procs)?;
    scavenge_to(rt, shop.shared, &mut driver.worker)?;
    shop.shared.end_cycle(&mut driver.worker);
    Ok(())
}

/// All of a cycle: the processors answer their events, the background sweepers sweep, the scavenger scavenges, and the cycle ends.
/// The queues are let go before what came of them is merged, so that both are never in memory. Without memory the lists may be lost.
pub(crate) fn run_workers<B: Board + Send + Sync, R: Threads + Wait + Sync, G: Gate>(
    rt: &R,
    alloc: Global,
    shop: &Shop,
    driver: &mut Hand,
    procs: &mut Vec<Proc>,
    queues: Queues,
    background: u32,
    caching: bool,
    gate: &G,
    given: &mut LentLists,
    viewers: &mut [Viewer<B>],
) -> Result<(), NoMemory>
    // the driver works in the shop, and all are at home
    requires works { WorksIn shop.now driver.old }
    requires parts { length driver.old.worker.view.parts ≡ 70 }
    requires drives { driver.old.tally.view.drives ≡ true }
    requires driving { IsDriving driver.old.worker procs.old.items driver.old }
    requires collecting { IsCollecting driver.old }
    requires quiet { (w : ℕ) → SaysNone (part_at driver.old.worker w).log }

    // the processors, with their queues and lists
    requires few { vec_len procs.old ≤ 64 }
    requires caching { caching ≡ true → vec_len procs.old ≤ driver.old.worker.view.procs }
    requires count { length queues.events ≡ vec_len procs.old }
    requires buckets { length queues.buckets ≡ vec_len procs.old }
    requires lists { (vec_len given.old.answers ≡ vec_len procs.old) × (vec_len given.old.sampled ≡ vec_len procs.old) }
    requires numbered { HaveBuckets shop.now.ring.now.buckets queues.events queues.buckets }
    requires sizes { (w : ℕ) → All (λ e. e.size ≤ 2 ^ 40) (slice_index_or queues.events w []) }

    // the helpers
    requires background { background ≤ 4 }

    // what the workers did
    ensures ran { OnOk result (HasWorked queues.entry.riding queues.entry.events (gains given.old.answers.items given.new.answers.items) driver.old procs.new.items driver.new) }
    ensures procs { OnOk result (vec_len procs.new ≡ vec_len procs.old) }

    // what the processors answered
    ensures size { OnOk result ((vec_len given.new.answers ≡ vec_len procs.old) × (vec_len given.new.sampled ≡ vec_len procs.old)) }
    ensures sampled { OnOk result (HaveSampled queues.entry.riding queues.entry.events (gains given.old.answers.items given.new.answers.items) (gains given.old.sampled.items given.new.sampled.items) procs.old.items procs.new.items) }
    ensures kept { OnOk result (HaveKept given.old.answers.items given.new.answers.items × HaveKept given.old.sampled.items given.new.sampled.items) }

    // what is counted
    ensures counts { OnOk result (Counts shop.now.marks.now (all_counts (vec_len procs.old) (gains given.old.sampled.items given.new.sampled.items) queues.entry.buckets) driver.old driver.new) }
{
    run_beside(
        rt, alloc, shop, driver, procs, &queues, background, caching, gate, given, viewers,
    )?;
    end_cycle(rt, alloc, shop, driver, procs)?;
    Ok(())
}
