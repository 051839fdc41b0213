//! The events of a processor in a cycle, of which the tiny objects may ride in blocks (`docs/tiny-objects.md`).

ghost use Rattle.std.specs.Prelude.{◌≡◌, ◌-◌, ◌^◌, ◌<◌, ◌≤◌, [], ◌∷◌, All, length, reverse, false, IfOk, OnOk};
ghost use Rattle.span_laws.specs.Asks.{IsIdle};
ghost use Rattle.span_set.specs.Asks.{WorksIn};
ghost use Rattle.sample_laws.specs.Counted.{one_count, sampled_counts};
ghost use Rattle.sample_laws.specs.Countdowns.{flag, flags, spends, spent};
ghost use Rattle.heap_run.specs.Counts.{Counts};
ghost use Rattle.heap_run.specs.Firsts.{FlushesFor};
ghost use Rattle.heap_run.specs.Gains.{HasKept, behind};
ghost use Rattle.heap_run.specs.Riding.{RidersStandIn, StandsWith, asked_in, block_with, given_in, part_with};
ghost use Rattle.heap_run.specs.Turns.{HasActed, IsCaching, SaysAnswers};
ghost use Rattle.tiny_alloc.specs.Base.{based_answer, based_event};
ghost use Rattle.tiny_alloc.specs.Rides.{start_in};

use cycle_history::Answer;
use edge_io::{Gate, List, NoMemory};
use large_objects::{alloc_large, large_slot};
use proc_cache::{Proc, Refused, alloc, count_placed, flush};
use size_classes::{Kind, class_of, span_class};
use span_set::{Hand, Shop};
use std::alloc::Global;
use std::mem::replace;
use std::sync::Wait;
use tiny_alloc::{BLOCK, Tiny, is_tiny};
use trace_reader::Event;

/// Answers the events of a processor in a cycle, in their order, which have buckets with these numbers, and puts the answers, and
/// which of the objects are sampled, behind those before. Tiny objects ride in blocks, or not; the processor begins with no block.
/// What is said of the heap is said of what was asked of it: a whole block for a lead, and nothing for a rider. Before each event it
/// passes the gate, with the processor's number and the event's place among these. Without memory both lists may be lost.
// It stands alone, so that its loop has the registers.
#[inline(never)]
pub(crate) fn answer_all<R: Wait, G: Gate>(
    rt: &R,
    alloc: Global,
    shop: &Shop,
    proc: &mut Proc,
    hand: &mut Hand,
    events: &[Event],
    buckets: &[u32],
    riding: bool,
    gate: &G,
    answers: &mut List<Answer>,
    sampled: &mut List<bool>,
) -> Result<(), NoMemory>
    // the hand works in the shop
    requires works { WorksIn shop.now hand.old }
    requires idle { IsIdle hand.old.worker.view.own }

    // the processor serves its worker
    requires caching { IsCaching hand.old.worker.view.generation hand.old.worker.view.own proc.old }

    // the events, with their buckets
    requires sizes { All (λ e. e.size ≤ 2 ^ 40) events.now }
    requires buckets { length buckets.now ≡ length events.now }
    requires known { All (λ b. b < shop.now.ring.now.buckets) buckets.now }

    // what was answered
    ensures acted { OnOk result (HasActed (SaysAnswers (asked_in riding events.now answers.old answers.new) (given_in riding events.now answers.old answers.new)) hand.old hand.new) }
    ensures riders { OnOk result (RidersStandIn riding events.now answers.old answers.new) }
    ensures flushed { OnOk result (FlushesFor (asked_in riding events.now answers.old answers.new) proc.old proc.new hand.old hand.new) }
    ensures kept { OnOk result (HasKept answers.old answers.new × HasKept sampled.old sampled.new) }

    // what is counted
    ensures sampled { OnOk result (reverse (behind sampled.old sampled.new) ≡ flags proc.old.countdown (asked_in riding events.now answers.old answers.new) (given_in riding events.now answers.old answers.new)) }
    ensures spent { OnOk result (proc.new.countdown ≡ spent proc.old.countdown (asked_in riding events.now answers.old answers.new) (given_in riding events.now answers.old answers.new)) }
    ensures counts { OnOk result (Counts shop.now.marks.now (sampled_counts (behind sampled.old sampled.new) buckets.now) hand.old hand.new) }

    // the processor serves it still
    ensures caching { OnOk result (IsCaching hand.old.worker.view.generation hand.new.worker.view.own proc.new) }
    ensures number { OnOk result (proc.new.number ≡ proc.old.number) }
{
    let mut given = replace(answers, List::new(alloc)).into_vec();
    let mut flags = replace(sampled, List::new(alloc)).into_vec();
    given.reserve(events.len())?;
    flags.reserve(events.len())?;
    let mut tiny = Tiny::new();
    for (turn, event) in events.iter().enumerate() {
        gate.before(proc.number(), turn as u64);
        let (answer, flag) = answer(
            rt,
            shop,
            proc,
            hand,
            event,
            buckets[turn],
            riding,
            &mut tiny,
        )?;
        given.push_reserved(answer);
        flags.push_reserved(flag);
    }
    *answers = List::from_vec(given);
    *sampled = List::from_vec(flags);
    Ok(())
}

// Answers one event, which has a bucket of this number, and says whether its object is sampled. Where tiny objects ride, one takes
// its place in the block, or else a block is allocated for it, which may become the current one.
fn answer<R: Wait>(
    rt: &R,
    shop: &Shop,
    proc: &mut Proc,
    hand: &mut Hand,
    event: &Event,
    bucket: u32,
    riding: bool,
    tiny: &mut Tiny,
) -> Result<(Answer, bool), NoMemory>
    // the hand works in the shop
    requires works { WorksIn shop.now hand.old }
    requires idle { IsIdle hand.old.worker.view.own }

    // the processor serves its worker
    requires caching { IsCaching hand.old.worker.view.generation hand.old.worker.view.own proc.old }

    // the event, with its bucket
    requires size { event.now.size ≤ 2 ^ 40 }
    requires bucket { bucket < shop.now.ring.now.buckets }

    // what was answered
    ensures acted { IfOk result (λ o. HasActed (SaysAnswers (based_event (part_with riding tiny.old event.now o.0) event.now ∷ []) (based_answer (part_with riding tiny.old event.now o.0) o.0 ∷ [])) hand.old hand.new) }
    ensures rides { IfOk result (λ o. StandsWith riding tiny.old event.now o.0) }
    ensures block { IfOk result (λ o. tiny.new ≡ block_with riding tiny.old event.now o.0) }
    ensures flushed { IfOk result (λ o. FlushesFor (based_event (part_with riding tiny.old event.now o.0) event.now ∷ []) proc.old proc.new hand.old hand.new) }
    ensures sizeless { IfOk result (λ o. (based_event (part_with riding tiny.old event.now o.0) event.now).size ≡ 0 → (proc.new ≡ proc.old) × (hand.new ≡ hand.old)) }

    // what is counted
    ensures sampled { IfOk result (λ o. o.1 ≡ flag proc.old.countdown (based_event (part_with riding tiny.old event.now o.0) event.now) (based_answer (part_with riding tiny.old event.now o.0) o.0)) }
    ensures spent { IfOk result (λ o. proc.new.countdown ≡ spends proc.old.countdown (based_event (part_with riding tiny.old event.now o.0) event.now) (based_answer (part_with riding tiny.old event.now o.0) o.0)) }
    ensures counts { IfOk result (λ o. Counts shop.now.marks.now (one_count o.1 bucket) hand.old hand.new) }

    // the processor serves it still
    ensures caching { OnOk result (IsCaching hand.old.worker.view.generation hand.new.worker.view.own proc.new) }
    ensures number { OnOk result (proc.new.number ≡ proc.old.number) }
{
    if !riding || !is_tiny(*event) {
        return serve(rt, shop, proc, hand, event, bucket);
    }
    let size = event.size as u32;
    if let Some(addr) = tiny.ride(size) {
        return Ok((Answer::Placed(addr), false));
    }
    let whole = Event {
        size: u64::from(BLOCK),
        ..*event
    };
    let (answer, sampled) = serve(rt, shop, proc, hand, &whole, bucket)?;
    if let Answer::Placed(addr) = answer {
        tiny.lead(size, addr);
    }
    Ok((answer, sampled))
}

// Asks the heap for an event's object, which has a bucket of this number, and says whether it is sampled.
fn serve<R: Wait>(
    rt: &R,
    shop: &Shop,
    proc: &mut Proc,
    hand: &mut Hand,
    event: &Event,
    bucket: u32,
) -> Result<(Answer, bool), NoMemory>
    // the hand works in the shop
    requires works { WorksIn shop.now hand.old }
    requires idle { IsIdle hand.old.worker.view.own }

    // the processor serves its worker
    requires caching { IsCaching hand.old.worker.view.generation hand.old.worker.view.own proc.old }

    // the event, with its bucket
    requires size { event.now.size ≤ 2 ^ 40 }
    requires bucket { bucket < shop.now.ring.now.buckets }

    // what was answered
    ensures acted { IfOk result (λ o. HasActed (SaysAnswers (event.now ∷ []) (o.0 ∷ [])) hand.old hand.new) }
    ensures low { IfOk result (λ o. event.now.size ≤ 32768 → start_in o.0 ≤ 2 ^ 64 - 17) }
    ensures flushed { OnOk result (FlushesFor (event.now ∷ []) proc.old proc.new hand.old hand.new) }
    ensures sizeless { OnOk result (event.now.size ≡ 0 → (proc.new ≡ proc.old) × (hand.new ≡ hand.old)) }

    // what is counted
    ensures sampled { IfOk result (λ o. o.1 ≡ flag proc.old.countdown event.now o.0) }
    ensures spent { IfOk result (λ o. proc.new.countdown ≡ spends proc.old.countdown event.now o.0) }
    ensures counts { IfOk result (λ o. Counts shop.now.marks.now (one_count o.1 bucket) hand.old hand.new) }

    // the processor serves it still
    ensures caching { OnOk result (IsCaching hand.old.worker.view.generation hand.new.worker.view.own proc.new) }
    ensures number { OnOk result (proc.new.number ≡ proc.old.number) }
{
    match class_of(event.size) {
        Kind::Zero => Ok((Answer::Zero, false)),
        Kind::Small(_) => match alloc(rt, proc, shop, hand, *event, bucket) {
            Ok(placed) => Ok((Answer::Placed(placed.addr), placed.sampled)),
            Err(Refused::NoRun { line }) => Ok((Answer::Missed(line), false)),
            Err(Refused::NoMemory) => Err(NoMemory),
        },
        Kind::Large(pages) => {
            flush(rt, proc, shop, hand)?;
            match alloc_large(rt, shop, hand, pages, span_class(0, event.scan)) {
                Ok(addr) => {
                    let sampled = count_placed(proc, shop, hand, large_slot(pages), bucket);
                    Ok((Answer::Placed(addr), sampled))
                }
                Err(Refused::NoRun { line }) => Ok((Answer::Missed(line), false)),
                Err(Refused::NoMemory) => Err(NoMemory),
            }
        }
    }
}
