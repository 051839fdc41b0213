//! What is published of each bucket as of the last mark end.

ghost use Rattle.std.specs.Prelude.{◌≡◌, ◌≢◌, ◌^◌, ◌<◌, ◌≤◌, ◌⊎◌, ℕ, true, false, length, replicate, sum_by, slice_index_or, IfOk, OnOk, Some as Just};
ghost use Rattle.std.specs.List.{AllByRecursion, list_any, slice_get};
ghost use Rattle.trace_reader.specs.Limits.{events_of};
ghost use Rattle.profile_cycle.specs.declared.counts.Count.{Count as ACount};
ghost use Rattle.profile_cycle.specs.Naming.{is_same, slot_for};
ghost use Rattle.profile_cycle.specs.Sampling.{Countdown, behind, is_sample};
ghost use Rattle.cycle_history.specs.Before.{IsLimited};
ghost use Rattle.cycle_history.specs.Counted.{AreZeros};
ghost use Rattle.cycle_history.specs.Requests.{is_within, last_cycle, marked_by};
ghost use Rattle.cycle_history.specs.Objects.{is_placed as is_placed_at};
ghost use Rattle.heap_text.specs.Counting.{AreCounted, AreDifferent, AreFirst, CountsOne, no_count};
ghost use Rattle.heap_text.specs.Published.{buckets_in};

use crate::asked::asked_of;
use cycle_history::Answer;
use edge_io::NoMemory;
use profile_cycle::{Buckets, Count, Sampler, a_pair_is_a_bucket_where_an_event_has_it};
use size_classes::{Kind, PAGE_SIZE, class_of, slot_size};
use std::alloc::Global;
use trace_reader::{Header, Span, Trace};

/// The published counts of the buckets of a trace as of its last mark end, by their numbers. It takes time in the objects and in the
/// objects that the mark end marks.
pub(crate) fn counts_of(
    alloc: Global,
    trace: &Trace,
    answers: &[Answer],
    buckets: &Buckets,
) -> Result<Vec<Count>, NoMemory>
    requires limited { IsLimited trace.now }
    requires answers { length answers.now ≡ length (events_of trace.now) }
    requires zeros { AreZeros trace.now answers.now }
    requires buckets { buckets.now ≡ buckets_in trace.now }
    ensures { IfOk result (λ counts. AreCounted trace.now answers.now (length answers.now) counts.items) }
{
    a_pair_is_a_bucket_where_an_event_has_it();
    let asked = asked_of(alloc, trace)?;
    let asked = asked.as_slice();
    let marked = marked_of(alloc, trace, answers.len())?;
    let last = trace.cycles.len() as u32 - 1;
    let mut samplers = samplers_of(alloc, &trace.header)?;
    let mut counts = zeros_of(alloc, buckets.len())?;
    for number in 0..asked.len() {
        let event = asked[number].event;
        if is_placed(answers[number]) {
            let slot = slot_of(event.size);
            let sampled = take_sample(samplers.as_mut_slice(), event.proc as usize, slot);
            if sampled && asked[number].cycle < last {
                count_one(
                    counts.as_mut_slice(),
                    buckets,
                    event.stack,
                    slot,
                    marked[number],
                );
            }
        }
    }
    Ok(counts)
}

// Whether the last mark end marks each object.
fn marked_of(alloc: Global, trace: &Trace, objects: usize) -> Result<Vec<bool>, NoMemory>
    requires limited { IsLimited trace.now }
    ensures size { IfOk result (λ marked. length marked.items ≡ objects) }
    ensures marked { IfOk result (λ marked. (i : ℕ) → i < objects → slice_index_or marked.items i false ≡ marked_by trace.now (last_cycle trace.now) i) }
{
    let mut marked = vec![in alloc; false; objects]?;
    mark_all(marked.as_mut_slice(), last_spans(trace));
    Ok(marked)
}

// The spans that the last mark end marks.
fn last_spans(trace: &Trace) -> &[Span]
    requires limited { IsLimited trace.now }
    ensures { (i : ℕ) → is_within result.now i ≡ marked_by trace.now (last_cycle trace.now) i }
{
    let cycles = trace.cycles.as_slice();
    if cycles.len() < 2 {
        return &[];
    }
    match &cycles[cycles.len() - 2].mark {
        Some(end) => end.marks.as_slice(),
        None => &[],
    }
}

// Marks the objects that the spans have.
fn mark_all(marked: &mut [bool], spans: &[Span])
    requires { (i : ℕ) → slice_index_or marked.old i false ≡ false }
    ensures size { length marked.new ≡ length marked.old }
    ensures marked { (i : ℕ) → i < length marked.old → slice_index_or marked.new i false ≡ is_within spans.now i }
{
    for span in spans {
        mark_span(marked, span.lo as usize, span.hi as usize);
    }
}

// Marks the objects from `low` up to `high`, as far as there are any.
fn mark_span(marked: &mut [bool], low: usize, high: usize)
    requires { high < 2 ^ 32 }
    ensures size { length marked.new ≡ length marked.old }
    ensures inside { (i : ℕ) → low ≤ i → i ≤ high → i < length marked.old → slice_index_or marked.new i false ≡ true }
    ensures outside { (i : ℕ) → (i < low) ⊎ (high < i) → slice_index_or marked.new i false ≡ slice_index_or marked.old i false }
{
    for object in low..high + 1 {
        if object < marked.len() {
            marked[object] = true;
        }
    }
}

// The countdowns of all processors, before any object.
fn samplers_of(alloc: Global, header: &Header) -> Result<Vec<Sampler>, NoMemory>
    requires { header.now.rate ≤ 2 ^ 30 }
    ensures size { IfOk result (λ samplers. length samplers.items ≡ header.now.procs) }
    ensures first { IfOk result (λ samplers. AreFirst header.now samplers.items) }
{
    let mut samplers = Vec::new(alloc);
    for proc in 0..header.procs {
        samplers.push(Sampler::new(header.rate, header.seed, proc))?;
    }
    Ok(samplers)
}

// Whether the processor's next placed object, which takes a slot of this many bytes, is a sample.
fn take_sample(samplers: &mut [Sampler], proc: usize, slot: u64) -> bool
    requires { proc < length samplers.old }
    ensures size { length samplers.new ≡ length samplers.old }
    ensures others { (p : ℕ) → p ≢ proc → slice_get samplers.new p ≡ slice_get samplers.old p }
    ensures own { (c : Countdown) → slice_get samplers.old proc ≡ Just c → (result ≡ is_sample c slot) × (slice_get samplers.new proc ≡ Just (behind c slot)) }
{
    samplers[proc].sample(slot)
}

// Nothing counted of so many buckets.
fn zeros_of(alloc: Global, buckets: u32) -> Result<Vec<Count>, NoMemory>
    ensures { IfOk result (λ counts. counts.items ≡ replicate buckets no_count) }
{
    let none = Count {
        allocs: 0,
        frees: 0,
    };
    Ok(vec![in alloc; none; buckets as usize]?)
}

// Counts an object of the bucket, which is freed unless it is marked.
fn count_one(counts: &mut [Count], buckets: &Buckets, stack: u32, slot: u64, marked: bool)
    requires different { AreDifferent buckets.now }
    requires known { list_any (is_same (record { stack = stack; slot = slot })) buckets.now ≡ true }
    requires size { length counts.old ≡ length buckets.now }
    requires few { sum_by (λ (c : ACount). c.allocs) counts.old < 2 ^ 63 }
    requires freed { AllByRecursion (λ (c : ACount). c.frees ≤ c.allocs) counts.old }
    ensures { CountsOne buckets.now (record { stack = stack; slot = slot }) marked counts.old counts.new }
{
    if let Some(bucket) = buckets.number(stack, slot) {
        let count = counts[bucket as usize];
        counts[bucket as usize] = Count {
            allocs: count.allocs + 1,
            frees: if marked { count.frees } else { count.frees + 1 },
        };
    }
}

fn is_placed(answer: Answer) -> bool
    ensures { result ≡ is_placed_at answer }
{
    matches!(answer, Answer::Placed(_))
}

// The bytes of the slot that an object of this size takes.
fn slot_of(size: u64) -> u64
    requires some { 1 ≤ size }
    requires limit { size ≤ 2 ^ 40 }
    ensures { result ≡ slot_for size }
{
    match class_of(size) {
        Kind::Zero => 0,
        Kind::Small(class) => u64::from(slot_size(class)),
        Kind::Large(pages) => PAGE_SIZE * u64::from(pages),
    }
}
