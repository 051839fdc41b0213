ghost use Rattle.std.specs.Prelude.{◌≡◌, ◌^◌, ◌<◌, ◌≤◌, [], ◌∷◌, ◌==◌, length, fold, position, is_some, Some, IfOk, OnOk};
ghost use Rattle.std.specs.List.{AllByRecursion, list_any, slice_get};
ghost use Rattle.trace_reader.specs.Limits.{EventFits, events_of};
ghost use Rattle.profile_cycle.specs.Naming.{HasSize, buckets_of, is_same, named, pairs_of, slot_for};

use edge_io::NoMemory;
use indexmap::IndexSet;
use size_classes::{Kind, PAGE_SIZE, class_of, slot_size};
use std::alloc::Global;
use std::marker::Model;
use trace_reader::{Event, Trace};

/// What sampled objects are counted by.
#[derive(Clone, Copy, Debug, PartialEq, Eq, Hash)]
pub struct Bucket {
    /// The number of the stack that allocates.
    pub stack: u32,
    /// The bytes of a slot.
    pub slot: u64,
}

/// The buckets of a trace, in the order in which its events first name them; a bucket's number is its place, from 0.
#[derive(Drop)]
pub struct Buckets {
    known: IndexSet<Bucket>,
}

impl Model for Buckets {
    ghost use Rattle.std.specs.Prelude.{List, ◌≤◌, length};
    ghost use Rattle.profile_cycle.specs.declared.buckets.Bucket.{Bucket};

    ghost Value = { List Bucket };

    ghost view = { λ b. b.known.keys };

    ghost invariant = { λ b. length b.known.keys ≤ 1000000 };
}

impl Buckets {
    /// The buckets of all events of a size above 0, of a trace within its limits.
    pub fn of_trace(alloc: Global, trace: &Trace) -> Result<Buckets, NoMemory>
        requires events { AllByRecursion (EventFits trace.now.header.procs) (events_of trace.now) }
        requires objects { length (events_of trace.now) ≤ 1000000 }
        ensures { IfOk result (λ b. b ≡ buckets_of (pairs_of (events_of trace.now))) }
    {
        let mut known = IndexSet::new(alloc);
        for cycle in trace.cycles.as_slice() {
            name_all(&mut known, cycle.events.as_slice())?;
        }
        Ok(Buckets { known })
    }

    /// The number of the bucket of a stack and a slot: None where no event has that pair.
    pub fn number(&self, stack: u32, slot: u64) -> Option<u32>
        ensures number { result ≡ position (is_same (record { stack = stack; slot = slot })) self.now }
        ensures found { is_some result ≡ list_any (is_same (record { stack = stack; slot = slot })) self.now }
    {
        let index = self.known.get_index_of(&Bucket { stack, slot })?;
        Some(index as u32)
    }

    /// The stack and the slot of a bucket.
    pub fn key(&self, bucket: u32) -> (u32, u64)
        requires { bucket < length self.now }
        ensures { slice_get self.now bucket ≡ Some (record { stack = result.0; slot = result.1 }) }
    {
        let Bucket { stack, slot } = self.known.as_slice()[bucket as usize];
        (stack, slot)
    }

    /// How many buckets there are, at most 1000000.
    pub fn len(&self) -> u32
        ensures buckets { result ≡ length self.now }
        ensures few { result ≤ 1000000 }
    {
        self.known.len() as u32
    }

    /// Whether no event has a size above 0.
    pub fn is_empty(&self) -> bool
        ensures { result ≡ (length self.now == 0) }
    {
        self.known.as_slice().is_empty()
    }
}

// Names the pairs of some events.
fn name_all(known: &mut IndexSet<Bucket>, events: &[Event]) -> Result<(), NoMemory>
    requires { AllByRecursion HasSize events.now }
    ensures { OnOk result (known.new.keys ≡ fold named known.old.keys (pairs_of events.now)) }
{
    for event in events {
        name_one(known, event)?;
    }
    Ok(())
}

// Names the pair of an event, if it has one.
fn name_one(known: &mut IndexSet<Bucket>, event: &Event) -> Result<(), NoMemory>
    requires { HasSize event.now }
    ensures { OnOk result (known.new.keys ≡ fold named known.old.keys (pairs_of (event.now ∷ []))) }
{
    if event.size == 0 {
        return Ok(());
    }
    known.insert_full(Bucket {
        stack: event.stack,
        slot: slot_of(event.size),
    })?;
    Ok(())
}

// The bytes of the slot that an object of this size takes.
fn slot_of(size: u64) -> u64
    requires some { 1 ≤ size }
    requires limit { size ≤ 2 ^ 40 }
    ensures { result ≡ slot_for size }
{
    match class_of(size) {
        Kind::Zero => 0,
        Kind::Small(class) => u64::from(slot_size(class)),
        Kind::Large(pages) => PAGE_SIZE * u64::from(pages),
    }
}
