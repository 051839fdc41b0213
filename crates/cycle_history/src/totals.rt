//! The totals of a trace's size classes.

ghost use Rattle.std.specs.Prelude.{◌≡◌, ℕ, ◌+◌, ◌/◌, ◌^◌, ◌<◌, ◌≤◌, ◌==◌, ◌&&◌, ◌||◌, nat_le, not, Bool, List as Items, length, IfOk};
ghost use Rattle.page_alloc.specs.Lists.{one_if};
ghost use Rattle.trace_reader.specs.Rising.{AreSpans};
ghost use Rattle.trace_reader.specs.Limits.{events_of};
ghost use Rattle.cycle_history.specs.Needs.{Need, IsNeed};
ghost use Rattle.cycle_history.specs.Requests.{is_within, last_cycle, marked_by};
ghost use Rattle.cycle_history.specs.Objects.{Object, is_placed as is_placed_at};
ghost use Rattle.cycle_history.specs.Sweeps.{AreTotals};
ghost use Rattle.cycle_history.specs.Before.{IsLimited};
ghost use Rattle.cycle_history.specs.MarkedLoops.{IsBehind};
ghost use Rattle.cycle_history.specs.Counted.{AreAsked, AreCounts, AreLiving, AreObjectsOf, AreZeros, LiveAlike, of_class};

use crate::lookups::{Walk, spans_at};
use crate::{Answer, Total};
use edge_io::{List, NoMemory};
use size_classes::{Kind, class_of};
use std::alloc::Global;
use trace_reader::{Event, Trace};

/// The size classes, and class 0 for the sizes above 32768 bytes.
const CLASSES: usize = 68;

/// What was counted of a size class.
#[derive(Clone, Copy)]
struct Count {
    /// The placed objects.
    mallocs: u64,
    /// Those of them that don't live in the last cycle.
    frees: u64,
}

/// The totals of the size classes that have placed objects, by class: how many objects are placed, and how many of them
/// don't live in the last cycle.
///
/// There is one answer for each object, zero exactly where its size is 0. It takes time in the objects, the cycles and
/// the marks of the last mark end.
pub fn totals_of(
    alloc: Global,
    trace: &Trace,
    answers: &List<Answer>,
) -> Result<List<Total>, NoMemory>
    requires limited { IsLimited trace.now }
    requires answers { length answers.now ≡ length (events_of trace.now) }
    requires zeros { AreZeros trace.now answers.now }
    ensures totals { IfOk result (λ totals. (objects : Items Object) → AreObjectsOf trace.now answers.now objects
        → AreTotals (marked_by trace.now) (last_cycle trace.now) objects totals) }
{
    let counts = counts_of(trace, answers.as_slice());
    let mut totals = List::new(alloc);
    for class in 0..CLASSES {
        let count = counts.of(class);
        if count.mallocs != 0 {
            totals.push(Total {
                class: class as u8,
                mallocs: count.mallocs,
                frees: count.frees,
            })?;
        }
    }
    Ok(totals)
}

// What there is of each size class.
fn counts_of(trace: &Trace, answers: &[Answer]) -> Counts
    requires limited { IsLimited trace.now }
    requires answers { length answers.now ≡ length (events_of trace.now) }
    requires zeros { AreZeros trace.now answers.now }
    ensures { AreCounts trace.now answers.now (length answers.now) result }
{
    let cycles = trace.cycles.as_slice();
    let last = cycles.len() - 1;
    let mut living = Living {
        newest: answers.len() - cycles[last].events.len(),
        marked: Walk {
            spans: spans_at(trace, last as u32),
            next: 0,
        },
    };
    let mut counts = Counts::none();
    let mut first = 0;
    for cycle in 0..cycles.len() {
        let events = cycles[cycle].events.as_slice();
        let asked = Asked {
            trace,
            cycle,
            events,
            first,
            answers,
        };
        asked.count(&mut living, &mut counts);
        first += events.len();
    }
    counts
}

// The objects of a cycle.
#[derive(Drop)]
struct Asked<'a> {
    trace: &'a Trace,
    cycle: usize,
    // their events
    events: &'a [Event],
    // the first of them
    first: usize,
    // what all objects of the trace got
    answers: &'a [Answer],
}

impl Asked<'_> {
    // Counts them, in runs of objects that all live or all don't.
    fn count(&self, living: &mut Living, counts: &mut Counts)
        requires given { AreAsked self.now }
        requires living { AreLiving self.now.trace.now self.now.first living.old }
        requires counted { AreCounts self.now.trace.now self.now.answers.now self.now.first counts.old }
        ensures living { AreLiving self.now.trace.now (self.now.first + length self.now.events.now) living.new }
        ensures counted { AreCounts self.now.trace.now self.now.answers.now (self.now.first + length self.now.events.now) counts.new }
    {
        let end = self.first + self.events.len();
        let mut low = self.first;
        while low < end {
            let (lives, high) = living.run(low, end);
            if lives {
                self.count_run(low, high, true, counts);
            } else {
                self.count_run(low, high, false, counts);
            }
            low = high;
        }
    }

    // Counts those from low up to high, which all live in the last cycle or all don't. It is written out at each call,
    // so that its loop doesn't ask.
    #[inline(always)]
    fn count_run(&self, low: usize, high: usize, lives: bool, counts: &mut Counts)
        // the objects of the cycle
        requires given { AreAsked self.now }

        // those from low up to high
        requires low { self.now.first ≤ low }
        requires order { low ≤ high }
        requires high { high ≤ self.now.first + length self.now.events.now }
        requires lives { LiveAlike self.now.trace.now lives low high }

        // the counts
        requires counted { AreCounts self.now.trace.now self.now.answers.now low counts.old }

        // the counts behind it
        ensures { AreCounts self.now.trace.now self.now.answers.now high counts.new }
    {
        for object in low..high {
            if is_placed(self.answers[object]) {
                let class = size_class(self.events[object - self.first].size);
                counts.add(class, lives);
            }
        }
    }
}

// The placed objects of each size class.
#[derive(Clone, Copy)]
struct Counts {
    // those that live in the last cycle
    living: [u64; CLASSES],
    // and those that don't
    dead: [u64; CLASSES],
}

impl Counts {
    // Nothing counted.
    fn none() -> Self
        ensures { (k : ℕ) → ((of_class result k).mallocs ≡ 0) × ((of_class result k).frees ≡ 0) }
    {
        Counts {
            living: [0; CLASSES],
            dead: [0; CLASSES],
        }
    }

    // What was counted of a class.
    fn of(&self, class: usize) -> Count
        requires class { class < 68 }
        requires room { (of_class self.now class).mallocs < 2 ^ 64 }
        ensures { result ≡ of_class self.now class }
    {
        let frees = self.dead[class];
        Count {
            mallocs: self.living[class] + frees,
            frees,
        }
    }

    // Counts a placed object.
    #[inline(always)]
    fn add(&mut self, class: u8, lives: bool)
        requires class { class < 68 }
        requires room { (k : ℕ) → (of_class self.old k).mallocs < 2 ^ 63 }
        ensures mallocs { (k : ℕ) → (of_class self.new k).mallocs ≡ one_if (k == class) + (of_class self.old k).mallocs }
        ensures frees { (k : ℕ) → (of_class self.new k).frees ≡ one_if (k == class && not lives) + (of_class self.old k).frees }
    {
        if lives {
            self.living[class as usize] += 1;
        } else {
            self.dead[class as usize] += 1;
        }
    }
}

fn is_placed(answer: Answer) -> bool
    ensures { result ≡ is_placed_at answer }
{
    matches!(answer, Answer::Placed(_))
}

// The objects that live in the last cycle, asked for in rising order.
#[derive(Drop)]
struct Living<'a> {
    // the first object of that cycle
    newest: usize,
    // what the last mark end marks
    marked: Walk<'a>,
}

impl Living<'_> {
    // Whether an object is one of them, where it is placed, and up to which object, the end at most, the answer stays
    // the same.
    fn run(&mut self, object: usize, end: usize) -> (bool, usize)
        // the walk
        requires rise { AreSpans 0 self.old.marked.spans.now }
        requires behind { IsBehind self.old.marked object }

        // the objects
        requires order { object < end }

        // the answer
        ensures lives { (i : ℕ) → object ≤ i → i < result.1 → (nat_le self.old.newest i || is_within self.old.marked.spans.now i) ≡ result.0 }
        ensures order { (object < result.1) × (result.1 ≤ end) }

        // the walk behind it
        ensures same { (self.new.newest ≡ self.old.newest) × (self.new.marked.spans.now ≡ self.old.marked.spans.now) }
        ensures behind { IsBehind self.new.marked result.1 }
    {
        if object >= self.newest {
            return (true, end);
        }
        self.marked.run(object, end.min(self.newest))
    }
}

// The size class of an object of this size, which is above 0.
fn size_class(size: u64) -> u8
    requires some { 1 ≤ size }
    requires limit { size ≤ 2 ^ 40 }
    ensures class { (scan : Bool) (need : Need) → IsNeed size scan need → need.class / 2 ≡ result }
    ensures bound { result < 68 }
{
    match class_of(size) {
        Kind::Small(class) => class,
        _ => 0,
    }
}
