//! The events of a cycle, processor by processor, with the numbers of their buckets.

ghost use Rattle.std.specs.Prelude.{◌≡◌, ℕ, ◌^◌, ◌<◌, ◌≤◌, ◌++◌, ◌∷◌, [], All, length, map, vec_len, slice_index_or, IfOk, OnOk};
ghost use Rattle.sample_laws.specs.By.{answers_by, events_by};
ghost use Rattle.std.specs.List.{AllByRecursion};
ghost use Rattle.profile_cycle.specs.Naming.{HasSize};
ghost use Rattle.sample_laws.specs.Numbers.{number_of};

use crate::lists::{append_zeros, empty_lists};
use edge_io::{List, NoMemory};
use profile_cycle::Buckets;
use size_classes::{Kind, PAGE_SIZE, class_of, slot_size};
use std::alloc::Global;
use std::marker::Model;
use trace_reader::Event;

/// What each processor has of what belongs to a cycle's events, an item for each event. A single processor's is lent as it stands.
#[derive(Drop)]
pub(crate) struct Shares<'a, T> {
    lent: bool,
    whole: &'a [T],
    lists: Vec<List<T>>,
}

impl<'a, T> Model for Shares<'a, T> {
    ghost use Rattle.std.specs.Prelude.{List as Items, [], ◌∷◌, if◌then◌else◌};

    ghost Value = { Items (Items T) };

    ghost view = { λ shares. if shares.lent then shares.whole.now ∷ [] else shares.lists.items };
}

impl<T> Shares<'_, T> {
    /// The share of a processor.
    pub(crate) fn of(&self, proc: usize) -> &[T]
        requires { proc < length self.now }
        ensures { result.now ≡ slice_index_or self.now proc [] }
    {
        if self.lent {
            self.whole
        } else {
            self.lists[proc].as_slice()
        }
    }
}

/// The events of each processor, in their order, and the numbers of their buckets.
#[derive(Drop)]
pub(crate) struct Queues<'a> {
    /// Whether tiny objects ride in blocks.
    pub riding: bool,
    pub events: Shares<'a, Event>,
    pub buckets: Shares<'a, u32>,
}

/// The queues of a cycle's events, whose buckets have these numbers, and of which the tiny ones ride in blocks or not.
pub(crate) fn queues_of<'a>(
    alloc: Global,
    procs: u32,
    events: &'a [Event],
    numbers: &'a [u32],
    riding: bool,
) -> Result<Queues<'a>, NoMemory>
    requires below { All (λ e. e.proc < procs) events.now }
    requires sizes { length numbers.now ≡ length events.now }
    ensures length { IfOk result (λ queues. (length queues.events ≡ procs) × (length queues.buckets ≡ procs)) }
    ensures riding { IfOk result (λ queues. queues.riding ≡ riding) }
    ensures queues { IfOk result (λ queues. (w : ℕ) → slice_index_or queues.events w [] ≡ events_by w events.now) }
    ensures buckets { IfOk result (λ queues. (w : ℕ) → slice_index_or queues.buckets w [] ≡ answers_by w events.now numbers.now) }
{
    Ok(Queues {
        riding,
        events: shares_of(alloc, procs, events, events)?,
        buckets: shares_of(alloc, procs, events, numbers)?,
    })
}

/// Puts the numbers of the buckets of events behind those in `numbers`. Where no bucket is known, they are 0.
pub(crate) fn number_all(
    alloc: Global,
    events: &[Event],
    known: &Buckets,
    numbers: &mut List<u32>,
) -> Result<(), NoMemory>
    requires sizes { AllByRecursion HasSize events.now }
    ensures { OnOk result (numbers.new ≡ numbers.old ++ map (number_of known.now) events.now) }
{
    if known.is_empty() {
        return append_zeros(alloc, numbers, events.len());
    }
    for event in events {
        numbers.push(bucket_of(known, event))?;
    }
    Ok(())
}

// The number of an event's bucket. An object of size 0 has none, and gets 0.
fn bucket_of(known: &Buckets, event: &Event) -> u32
    requires { event.now.size ≤ 2 ^ 40 }
    ensures { result ≡ number_of known.now event.now }
{
    let slot = match class_of(event.size) {
        Kind::Zero => return 0,
        Kind::Small(class) => u64::from(slot_size(class)),
        Kind::Large(pages) => PAGE_SIZE * u64::from(pages),
    };
    known.number(event.stack, slot).unwrap_or(0)
}

// The shares of each processor in what belongs to a cycle's events, an item for each event. A single processor's are all of them.
fn shares_of<'a, T: Copy + Drop>(
    alloc: Global,
    procs: u32,
    events: &[Event],
    items: &'a [T],
) -> Result<Shares<'a, T>, NoMemory>
    requires below { All (λ e. e.proc < procs) events.now }
    requires sizes { length items.now ≡ length events.now }
    ensures length { IfOk result (λ shares. length shares ≡ procs) }
    ensures shares { IfOk result (λ shares. (w : ℕ) → slice_index_or shares w [] ≡ answers_by w events.now items.now) }
{
    if procs == 1 {
        return Ok(Shares {
            lent: true,
            whole: items,
            lists: Vec::new(alloc),
        });
    }
    let lists = parts_of(alloc, procs, events, items)?;
    Ok(Shares {
        lent: false,
        whole: items,
        lists,
    })
}

// The lists of what each processor has of items, of which there is one for each event.
fn parts_of<T: Copy + Drop>(
    alloc: Global,
    procs: u32,
    events: &[Event],
    items: &[T],
) -> Result<Vec<List<T>>, NoMemory>
    requires below { All (λ e. e.proc < procs) events.now }
    requires sizes { length items.now ≡ length events.now }
    ensures length { IfOk result (λ lists. vec_len lists ≡ procs) }
    ensures parts { IfOk result (λ lists. (w : ℕ) → slice_index_or lists.items w [] ≡ answers_by w events.now items.now) }
{
    let share = events.len() / (procs as usize).max(1);
    let mut lists = empty_lists(alloc, procs, share)?;
    for (at, event) in events.iter().enumerate() {
        lists[event.proc as usize].push(items[at])?;
    }
    Ok(lists)
}
