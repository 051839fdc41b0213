//! The workers of a cycle while they are out: each does its task beside the others.

ghost use Rattle.std.specs.Prelude.{◌≡◌, ℕ, ◌^◌, ◌<◌, ◌≤◌, [], All, length, slice_index_or, OnOk};
ghost use Rattle.std.specs.Thread.{IsSync};
ghost use Rattle.span_laws.specs.Asks.{IsAtWork, IsIdle};
ghost use Rattle.span_set.specs.Asks.{WorksIn};
ghost use Rattle.proc_cache.specs.Cache.{Cache};
ghost use Rattle.span_laws.specs.CacheAnswers.{IsSettled};
ghost use Rattle.heap_run.specs.Turns.{HasActed, IsCaching, SaysNone};
ghost use Rattle.heap_run.specs.Lanes.{AnswersTurn, HasDone, Helps, IsReady, MayAnswer};

use crate::audience::watch_all;
use crate::events::answer_all;
use crate::queues::Queues;
use cycle_history::Answer;
use edge_io::{Gate, List, NoMemory};
use proc_cache::Proc;
use profile_readers::{Board, Viewer};
use scavenger::scavenge_to;
use span_set::{Hand, Shop};
use std::alloc::Global;
use std::sync::Wait;
use std::thread::{Threads, for_each_mut, join_mut};
use sweeper::finish;

/// The number of the scavenger's worker.
pub(crate) const SCAVENGER: u32 = 68;

/// A processor in a cycle, with the lists in which it puts what its events come to.
#[derive(Drop)]
pub(crate) struct Turn {
    pub(crate) proc: Proc,
    pub(crate) answers: List<Answer>,
    pub(crate) sampled: List<bool>,
}

/// What a worker does in a cycle.
#[derive(Drop)]
pub(crate) enum Task {
    /// A processor answers its events.
    Allocate(Turn),
    /// The background sweeper of this number sweeps until nothing is left.
    Sweep(u32),
    /// The scavenger scavenges to the goal.
    Scavenge,
}

/// A worker that is out with its task, and whether it found no memory for it.
#[derive(Drop)]
pub(crate) struct Lane {
    pub(crate) hand: Hand,
    pub(crate) task: Task,
    pub(crate) refused: bool,
}

/// Each worker does its task, beside the others, and the viewers look meanwhile. Where no thread can be made for one, it does it behind
/// another.
pub(crate) fn run_all<B: Board + Send + Sync, R: Threads + Wait + Sync, G: Gate>(
    rt: &R,
    alloc: Global,
    shop: &Shop,
    queues: &Queues,
    gate: &G,
    lanes: &mut [Lane],
    viewers: &mut [Viewer<B>],
)
    requires some { 0 < length lanes.old }
    requires ready { All (IsReady shop.now.shared.now shop.now.ring.now shop.now.marks.now queues.now.events queues.now.buckets) lanes.old }
    ensures ran { (i : ℕ) (d : _) → i < length lanes.old → HasDone queues.now.riding shop.now.marks.now queues.now.events queues.now.buckets (slice_index_or lanes.old i d) (slice_index_or lanes.new i d) }
{
    if viewers.is_empty() {
        run_lanes(rt, alloc, shop, queues, gate, lanes);
        return;
    }
    join_mut(
        rt,
        &mut ||
            requires { IsSync R.row × (0 < length lanes.now) × All (IsReady shop.now.shared.now shop.now.ring.now shop.now.marks.now queues.now.events queues.now.buckets) lanes.now }
            ensures { (i : ℕ) (d : _) → i < length lanes.entry.now → HasDone queues.entry.now.riding shop.entry.now.marks.now queues.entry.now.events queues.entry.now.buckets (slice_index_or lanes.entry.now i d) (slice_index_or lanes.exit.now i d) }
        { run_lanes(rt, alloc, shop, queues, gate, lanes) },
        &mut ||
            requires { IsSync R.row × (0 < length viewers.now) }
        { watch_all(rt, viewers) },
    );
}

// Each worker does its task, beside the others.
fn run_lanes<R: Threads + Wait + Sync, G: Gate>(
    rt: &R,
    alloc: Global,
    shop: &Shop,
    queues: &Queues,
    gate: &G,
    lanes: &mut [Lane],
)
    requires some { 0 < length lanes.old }
    requires ready { All (IsReady shop.now.shared.now shop.now.ring.now shop.now.marks.now queues.now.events queues.now.buckets) lanes.old }
    ensures ran { (i : ℕ) (d : _) → i < length lanes.old → HasDone queues.now.riding shop.now.marks.now queues.now.events queues.now.buckets (slice_index_or lanes.old i d) (slice_index_or lanes.new i d) }
{
    let run = |_: usize, lane: &mut Lane|
        requires { IsReady shop.now.shared.now shop.now.ring.now shop.now.marks.now queues.now.events queues.now.buckets lane.now }
        ensures { HasDone queues.entry.now.riding shop.entry.now.marks.now queues.entry.now.events queues.entry.now.buckets lane.entry.now lane.exit.now }
    { lane.run(rt, alloc, shop, queues, gate) };
    let threads = lanes.len();
    for_each_mut(rt, lanes, threads, &run);
}

impl Lane {
    // Does the task.
    fn run<R: Wait, G: Gate>(
        &mut self,
        rt: &R,
        alloc: Global,
        shop: &Shop,
        queues: &Queues,
        gate: &G,
    )
        requires ready { IsReady shop.now.shared.now shop.now.ring.now shop.now.marks.now queues.now.events queues.now.buckets self.old }
        ensures ran { HasDone queues.now.riding shop.now.marks.now queues.now.events queues.now.buckets self.old self.new }
    {
        let Lane {
            hand,
            task,
            refused,
        } = self;
        let ran = match task {
            Task::Allocate(turn) => turn.run(rt, alloc, shop, hand, queues, gate),
            Task::Sweep(number) => sweep(rt, shop, hand, *number, gate),
            Task::Scavenge => scavenge(rt, shop, hand, gate),
        };
        *refused = ran.is_err();
    }
}

impl Turn {
    // Answers the events, and settles the block behind the last of them.
    fn run<R: Wait, G: Gate>(
        &mut self,
        rt: &R,
        alloc: Global,
        shop: &Shop,
        hand: &mut Hand,
        queues: &Queues,
        gate: &G,
    ) -> Result<(), NoMemory>
        requires works { WorksIn shop.now hand.old }
        requires idle { IsIdle hand.old.worker.view.own }
        requires may { MayAnswer hand.old.worker.view.generation hand.old.worker.view.own shop.now.ring.now.buckets queues.now.events queues.now.buckets self.old }
        ensures { OnOk result (AnswersTurn queues.now.riding shop.now.marks.now (slice_index_or queues.now.events self.old.proc.number []) (slice_index_or queues.now.buckets self.old.proc.number []) hand.old hand.new self.old self.new) }
    {
        let number = self.proc.number() as usize;
        let events = queues.events.of(number);
        let buckets = queues.buckets.of(number);
        let Turn {
            proc,
            answers,
            sampled,
        } = self;
        answer_all(
            rt,
            alloc,
            shop,
            proc,
            hand,
            events,
            buckets,
            queues.riding,
            gate,
            answers,
            sampled,
        )?;
        settle(rt, shop, hand);
        Ok(())
    }
}

// A worker with a page cache settles its block.
fn settle<R: Wait>(rt: &R, shop: &Shop, hand: &mut Hand)
    requires table { hand.old.worker.table ≡ shop.now.shared.now }
    requires idle { IsIdle hand.old.worker.view.own }
    ensures acted { HasActed SaysNone hand.old hand.new }
    ensures caching { (g : ℕ) (c : Cache) → IsCaching g hand.old.worker.view.own c → IsCaching g hand.new.worker.view.own c }
    ensures settled { IsSettled hand.new.worker }
    ensures same { (hand.new.notes ≡ hand.old.notes) × (hand.new.tally ≡ hand.old.tally) }
{
    let Some(_) = hand.worker.cached_pages() else {
        return;
    };
    shop.shared.settle(rt, &mut hand.worker);
}

// A background sweeper sweeps until nothing is left, behind the gate.
fn sweep<R: Wait, G: Gate>(
    rt: &R,
    shop: &Shop,
    hand: &mut Hand,
    number: u32,
    gate: &G,
) -> Result<(), NoMemory>
    requires works { WorksIn shop.now hand.old }
    requires idle { IsIdle hand.old.worker.view.own }
    ensures { OnOk result (Helps shop.now.marks.now hand.old hand.new) }
{
    gate.before(number, 0);
    finish(rt, shop, hand)?;
    Ok(())
}

// The scavenger scavenges to the goal, behind the gate.
fn scavenge<R: Wait, G: Gate>(
    rt: &R,
    shop: &Shop,
    hand: &mut Hand,
    gate: &G,
) -> Result<(), NoMemory>
    requires works { IsAtWork shop.now.shared.now hand.old.worker }
    requires idle { IsIdle hand.old.worker.view.own }
    ensures { OnOk result (Helps shop.now.marks.now hand.old hand.new) }
{
    gate.before(SCAVENGER, 0);
    scavenge_to(rt, shop.shared, &mut hand.worker)?;
    Ok(())
}
