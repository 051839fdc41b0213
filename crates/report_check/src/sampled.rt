//! The samples among the objects of a report, and how many of each bucket there are as of a mark end.

ghost use Rattle.std.specs.Prelude.{◌≡◌, ◌≢◌, ℕ, ◌^◌, ◌<◌, ◌≤◌, true, false, [], ◌++◌, length, map, IfOk, OnOk, Some as Just};
ghost use Rattle.std.specs.List.{slice_get};
ghost use Rattle.page_alloc.specs.Lists.{count};
ghost use Rattle.profile_cycle.specs.Sampling.{Countdown, is_sample, behind};
ghost use Rattle.trace_reader.specs.declared.trace.Event.{Event as AnEvent};
ghost use Rattle.trace_reader.specs.Limits.{events_of};
ghost use Rattle.cycle_history.specs.Objects.{is_placed};
ghost use Rattle.report_check.specs.Items.{objects_of};
ghost use Rattle.report_check.specs.Known.{AreKnownItems};
ghost use Rattle.report_check.specs.Order as order;
ghost use Rattle.report_check.specs.Sampling.{AreCountdowns, AreFlags, FitTheirTypes, ArePlacesBy, AreSamples, is_before};

use crate::items::Item;
use crate::lasts::own_cycles;
use crate::objects::Objects;
use crate::sorted::Sorted;
use cycle_history::Answer;
use edge_io::NoMemory;
use profile_cycle::Sampler;
use std::alloc::Global;
use trace_reader::{Event, Header, Trace};

/// The samples among a report's objects.
#[derive(Drop)]
pub(crate) struct Sampled {
    /// Whether each object is a sample, by its number.
    pub flags: Vec<bool>,
    /// The stack of each object, by its number.
    pub stacks: Vec<u32>,
    /// The places of the samples' buckets by the cycles in which they were placed.
    pub starts: Sorted,
    /// The same by the last cycles in which they live.
    pub ends: Sorted,
}

impl Sampled {
    /// The samples by the trace's rate and seed. It takes time in the objects.
    pub(crate) fn of(alloc: Global, objects: &Objects<'_>) -> Result<Sampled, NoMemory>
        requires known { AreKnownItems objects.now.trace.now objects.now.report.now objects.now.items.now objects.now.lasts.now }
        ensures { IfOk result (λ sampled. AreSamples objects.now.trace.now objects.now.items.now sampled) }
    {
        let flags = flags_of(alloc, objects)?;
        let stacks = stacks_of(alloc, objects.trace)?;
        let cycles = own_cycles(alloc, objects.items)?;
        let starts = places_by(alloc, objects.items, &flags, &stacks, &cycles)?;
        let ends = places_by(alloc, objects.items, &flags, &stacks, objects.lasts)?;
        Ok(Sampled {
            flags,
            stacks,
            starts: Sorted::of(starts),
            ends: Sorted::of(ends),
        })
    }
}

/// The place of a bucket as of a mark end, as one number: places rise by stack, then by slot, then by mark end.
#[tactic(auto, unfolding(crate::specs::Order::place_of))]
pub(crate) fn place_of(stack: u32, slot: u64, mark: u32) -> u128
    ensures place { result ≡ order.place_of stack slot mark }
    ensures stack { stack < 2 ^ 32 }
    ensures slot { slot < 2 ^ 64 }
    ensures mark { mark < 2 ^ 32 }
{
    u128::from(stack) * STACKS + u128::from(slot) * SLOTS + u128::from(mark)
}

// How far the places of two stacks are apart, and those of two slots.
const STACKS: u128 = 79_228_162_514_264_337_593_543_950_336;

const SLOTS: u128 = 4_294_967_296;

/// How many of the places are of the bucket and before the mark end.
pub(crate) fn count_before(places: &Sorted, stack: u32, slot: u64, mark: u32) -> u64
    ensures { result ≡ count (is_before (record { stack = stack; slot = slot }) mark) places.now }
{
    places.below(place_of(stack, slot, mark)) - places.below(place_of(stack, slot, 0))
}

// Whether each object is a sample: the countdown of its processor says so.
fn flags_of(alloc: Global, objects: &Objects<'_>) -> Result<Vec<bool>, NoMemory>
    requires known { AreKnownItems objects.now.trace.now objects.now.report.now objects.now.items.now objects.now.lasts.now }
    ensures flags { IfOk result (λ flags. AreFlags objects.now.trace.now objects.now.items.now flags.items (objects_of objects.now.items.now)) }
    ensures size { IfOk result (λ flags. length flags.items ≡ length objects.now.items.now) }
{
    let mut samplers = samplers_of(alloc, &objects.trace.header)?;
    let mut flags = Vec::new(alloc);
    for item in objects.items {
        flags.push(take_sample(samplers.as_mut_slice(), item))?;
    }
    Ok(flags)
}

// The countdowns of all processors, before any object.
fn samplers_of(alloc: Global, header: &Header) -> Result<Vec<Sampler>, NoMemory>
    requires { header.now.rate ≤ 2 ^ 30 }
    ensures size { IfOk result (λ samplers. length samplers.items ≡ header.now.procs) }
    ensures countdowns { IfOk result (λ samplers. AreCountdowns header.now [] samplers.items) }
{
    let mut samplers = Vec::new(alloc);
    for proc in 0..header.procs {
        samplers.push(Sampler::new(header.rate, header.seed, proc))?;
    }
    Ok(samplers)
}

// Whether the item is a sample by the countdown of its processor, which goes on where the item is placed.
fn take_sample(samplers: &mut [Sampler], item: &Item) -> bool
    requires proc { is_placed item.now.answer ≡ true → item.now.proc < length samplers.old }
    ensures size { length samplers.new ≡ length samplers.old }
    ensures others { (p : ℕ) → p ≢ item.now.proc → slice_get samplers.new p ≡ slice_get samplers.old p }
    ensures placed { (c : Countdown) → is_placed item.now.answer ≡ true → slice_get samplers.old item.now.proc ≡ Just c
        → (result ≡ is_sample c item.now.slot) × (slice_get samplers.new item.now.proc ≡ Just (behind c item.now.slot)) }
    ensures other { is_placed item.now.answer ≡ false → (result ≡ false) × (samplers.new ≡ samplers.old) }
{
    match item.answer {
        Answer::Placed(_) => samplers[item.proc as usize].sample(item.slot),
        _ => false,
    }
}

// The stack of each event.
fn stacks_of(alloc: Global, trace: &Trace) -> Result<Vec<u32>, NoMemory>
    ensures { IfOk result (λ stacks. stacks.items ≡ map (λ (e : AnEvent). e.stack) (events_of trace.now)) }
{
    let mut stacks = Vec::new(alloc);
    for part in trace.cycles.as_slice() {
        add_stacks(&mut stacks, part.events.as_slice())?;
    }
    Ok(stacks)
}

// Adds the stacks of a cycle's events.
fn add_stacks(stacks: &mut Vec<u32>, events: &[Event]) -> Result<(), NoMemory>
    ensures { OnOk result (stacks.new.items ≡ stacks.old.items ++ map (λ (e : AnEvent). e.stack) events.now) }
{
    for event in events {
        stacks.push(event.stack)?;
    }
    Ok(())
}

// The places of the buckets of the items that the flags name, each by the cycle that it has in the list.
fn places_by(
    alloc: Global,
    items: &[Item],
    flags: &[bool],
    stacks: &[u32],
    cycles: &[u32],
) -> Result<Vec<u128>, NoMemory>
    requires flags { length flags.now ≡ length items.now }
    requires stacks { length stacks.now ≡ length items.now }
    requires cycles { length cycles.now ≡ length items.now }
    ensures places { IfOk result (λ places. ArePlacesBy flags.now stacks.now cycles.now (objects_of items.now) places.items) }
    ensures few { OnOk result (FitTheirTypes items.now stacks.now cycles.now (length items.now)) }
{
    let mut places = Vec::new(alloc);
    for number in 0..items.len() {
        let place = place_of(stacks[number], items[number].slot, cycles[number]);
        if flags[number] {
            places.push(place)?;
        }
    }
    Ok(places)
}
