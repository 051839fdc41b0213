ghost use Rattle.std.specs.Prelude.{◌≡◌, ◌+◌, ◌*◌, ◌≤◌, ◌<◌, ◌^◌, IfOk, OnOk};
ghost use Rattle.rand_pcg.specs.Lcg.{Lcg};
ghost use Rattle.trace_gen.specs.Made.{event_by, events_from, generator_at, made_cycle, made_trace, marks_at, next_object, size_by};

use edge_io::{List, NoMemory};
use rand_core::utils::NextWord;
use rand_pcg::Pcg32;
use std::alloc::Global;
use trace_reader::{Cycle, Event, Header, MarkEnd, Span, Trace};

/// The objects between two mark ends.
const CYCLE: u32 = 10_000;

/// The stream of the generator, one more than the last processor's.
const STREAM: u64 = 64;

/// The trace that a seed makes, of so many objects: of version 1, with eight processors on 128 chunks at a rate of 524288 bytes, with a mark
/// end after each 10,000 objects. The words are those of `Pcg32` with the seed as its state. A trace of 1 to 1,000,000
/// objects is within the limits of traces ([`crate::a_made_trace_is_within_limits`]). The rules are this project's own.
pub fn make_trace(alloc: Global, seed: u64, objects: u32) -> Result<Trace, NoMemory>
    ensures { IfOk result (λ trace. trace ≡ made_trace seed objects) }
{
    let mut words = Pcg32::new(seed, STREAM);
    let mut cycles = List::new(alloc);
    let ends = objects / CYCLE;
    for end in 0..ends {
        cycles.push(full_cycle(alloc, &mut words, end)?)?;
    }
    let first = ends * CYCLE;
    let events = events(alloc, &mut words, first, objects - first)?;
    cycles.push(Cycle { events, mark: None })?;
    let header = Header {
        version: 1,
        chunks: 128,
        procs: 8,
        rate: 524_288,
        seed,
        goal: 65_536,
    };
    Ok(Trace { header, cycles })
}

// The cycle of this number, which a mark end ends.
fn full_cycle(alloc: Global, words: &mut Pcg32, number: u32) -> Result<Cycle, NoMemory>
    requires { 10000 * number + 10000 < 2 ^ 32 }
    ensures cycle { (g : Lcg) → words.old ≡ generator_at g (10000 * number) → IfOk result (λ cycle. cycle ≡ made_cycle g number) }
    ensures words { (g : Lcg) → words.old ≡ generator_at g (10000 * number) → OnOk result (words.new ≡ generator_at g (10000 * number + 10000)) }
{
    let first = CYCLE * number;
    let events = events(alloc, words, first, CYCLE)?;
    let marks = marks(alloc, first + CYCLE)?;
    let mark = Some(MarkEnd {
        distance: 4_194_304,
        marks,
    });
    Ok(Cycle { events, mark })
}

// So many events, from an object on.
fn events(alloc: Global, words: &mut Pcg32, first: u32, count: u32) -> Result<List<Event>, NoMemory>
    requires { first + count < 2 ^ 32 }
    ensures events { (g : Lcg) → words.old ≡ generator_at g first → IfOk result (λ events. events ≡ events_from g first count) }
    ensures words { (g : Lcg) → words.old ≡ generator_at g first → OnOk result (words.new ≡ generator_at g (first + count)) }
{
    let mut events = List::new(alloc);
    for i in 0..count {
        events.push(event(words, first + i))?;
    }
    Ok(events)
}

// The event of the object with this number, by the generator's next two words.
#[tactic(auto, unfolding(crate::specs::Made::event_by))]
fn event(words: &mut Pcg32, number: u32) -> Event
    ensures event { result ≡ event_by number words.old }
    ensures words { words.new ≡ next_object words.old }
{
    let first = words.next_word();
    let second = words.next_word();
    Event {
        proc: (first % 8) as u8,
        size: size(number, second),
        scan: first / 8 % 2 == 0,
        stack: first / 16 % 32,
    }
}

// The bytes of the object with this number, by a word.
fn size(number: u32, word: u32) -> u64
    ensures { result ≡ size_by number word }
{
    if number % 64 == 63 {
        32_769 + u64::from(word % 98_304)
    } else {
        1 + u64::from(word % 1024)
    }
}

// The marks of the mark end behind so many objects.
fn marks(alloc: Global, objects: u32) -> Result<List<Span>, NoMemory>
    requires { 8000 ≤ objects }
    ensures { IfOk result (λ marks. marks ≡ marks_at objects) }
{
    let first = (objects - 8000) / 8;
    let mut marks = List::new(alloc);
    marks.push(Span { lo: 0, hi: 999 })?;
    for i in 0..1000 {
        let lo = 8 * (first + i);
        marks.push(Span { lo, hi: lo + 3 })?;
    }
    Ok(marks)
}
