//! Where an object lies, found from its size and its address.

ghost use Rattle.std.specs.Prelude.{◌≡◌, ◌≢◌, ℕ, ◌+◌, ◌*◌, ◌^◌, ◌<◌, ◌≤◌, length, slice_index_or, vec_capacity, vec_len, None, IfSome, OnOk};
ghost use Rattle.size_classes.specs.Classes.{IsClass, slot_of, objects_of};
ghost use Rattle.trace_reader.specs.declared.trace.Cycle.{Cycle};
ghost use Rattle.cycle_history.specs.declared.Answer.TheVariants.{Placed};
ghost use Rattle.cycle_history.specs.Places.{HasPlace, IsPlace};
ghost use Rattle.cycle_history.specs.Before.{ArePlaces, IsLimited, objects_before};
ghost use Rattle.cycle_history.specs.Found.{AreFound, IsPlaceOf};
ghost use Rattle.cycle_history.specs.Packed.{HasRoom};

use crate::Answer;
use edge_io::{List, NoMemory};
use size_classes::{Kind, MAX_PAGES, PAGE_SIZE, REGION_START, class_of, slot_size, span_objects};
use std::alloc::Global;
use std::marker::Model;
use std::mem::replace;
use trace_reader::{Event, Trace};

// An index is below this, since no span has more objects.
const INDICES: u32 = 1024;

// The code that stands for no place.
const NO_PLACE: u32 = u32::MAX;

/// Where an object lies.
#[derive(Clone, Copy, Debug, PartialEq, Eq)]
pub struct Place {
    /// The first page of its span.
    pub page: u32,
    /// Its index in the span.
    pub index: u32,
}

/// A place or none, in four bytes. Contracts see the place or none.
#[derive(Clone, Copy, Debug)]
pub struct PackedPlace {
    code: u32,
}

impl Model for PackedPlace {
    ghost use Rattle.std.specs.Prelude.{Option};
    ghost use Rattle.cycle_history.specs.declared.places.Place.{Place};

    ghost Value = { Option Place };

    ghost use Rattle.cycle_history.specs.Packed.{packed, unpacked};
    ghost use Rattle.cycle_history.specs.PackedLaws.{packed-of};

    ghost view = { λ p. unpacked p.code };

    ghost inverse = { λ place. record { code = packed place } };

    ghost inverse_ok = { λ p h i. record { code = packed-of p.code i } };
}

impl PackedPlace {
    /// Packs a place that has room, or none.
    pub(crate) fn new(place: Option<Place>) -> Self
        requires room { IfSome place HasRoom }
        ensures { result ≡ place }
    {
        match place {
            Some(place) => PackedPlace {
                code: place.page * INDICES + place.index,
            },
            None => PackedPlace { code: NO_PLACE },
        }
    }

    /// The place or none.
    #[inline]
    pub fn place(self) -> Option<Place>
        ensures { result ≡ self }
    {
        if self.code == NO_PLACE {
            return None;
        }
        Some(Place {
            page: self.code / INDICES,
            index: self.code % INDICES,
        })
    }
}

/// Finds the places of a cycle's objects, which have these events, and puts them behind those of the objects before. Without memory
/// the list may be lost.
#[inline(never)]
pub(crate) fn find_places(
    alloc: Global,
    trace: &Trace,
    cycle: u32,
    events: &[Event],
    answers: &[Answer],
    places: &mut List<PackedPlace>,
) -> Result<(), NoMemory>
    // the trace, and the cycle
    requires limited { IsLimited trace.now }
    requires inside { cycle < length trace.now.cycles }
    requires events { (d : Cycle) → events.now ≡ (slice_index_or trace.now.cycles cycle d).events }

    // the answers
    requires answers { length answers.now ≡ objects_before trace.now (cycle + 1) }
    requires placed { ArePlaces trace.now answers.now }

    // the places
    requires kept { length places.old ≡ objects_before trace.now cycle }
    requires found { AreFound trace.now answers.now places.old }

    // the places behind it
    ensures kept { OnOk result (length places.new ≡ objects_before trace.now (cycle + 1)) }
    ensures found { OnOk result (AreFound trace.now answers.now places.new) }
{
    let mut items = replace(places, List::new(alloc)).into_vec();
    items.reserve(events.len())?;
    push_places(trace, cycle, events, answers, &mut items);
    *places = List::from_vec(items);
    Ok(())
}

// Does so in a list that has room for them.
#[inline(always)]
fn push_places(
    trace: &Trace,
    cycle: u32,
    events: &[Event],
    answers: &[Answer],
    places: &mut Vec<PackedPlace>,
)
    // the trace, and the cycle
    requires limited { IsLimited trace.now }
    requires inside { cycle < length trace.now.cycles }
    requires events { (d : Cycle) → events.now ≡ (slice_index_or trace.now.cycles cycle d).events }

    // the answers
    requires answers { length answers.now ≡ objects_before trace.now (cycle + 1) }
    requires placed { ArePlaces trace.now answers.now }

    // the places, and the room for more
    requires kept { length places.old.items ≡ objects_before trace.now cycle }
    requires found { AreFound trace.now answers.now places.old.items }
    requires room { vec_len places.old + length events.now ≤ vec_capacity places.old }

    // the places behind it
    ensures kept { length places.new.items ≡ objects_before trace.now (cycle + 1) }
    ensures found { AreFound trace.now answers.now places.new.items }
{
    let first = places.len();
    for number in 0..events.len() {
        let place = find_place(events[number].size, answers[first + number]);
        places.push_reserved(PackedPlace::new(place));
    }
}

// The place of an object of this size with this answer, if it is placed.
fn find_place(size: u64, answer: Answer) -> Option<Place>
    requires size { size ≤ 2 ^ 40 }
    requires place { (address : ℕ) → answer ≡ Placed address → HasPlace size address }
    ensures place { IsPlaceOf size answer result }
    ensures room { IfSome result HasRoom }
{
    match answer {
        Answer::Placed(address) => Some(place_of(size, address)),
        Answer::Zero | Answer::Missed(_) => None,
    }
}

// The place of an object of this size at this address, which has one.
fn place_of(size: u64, address: u64) -> Place
    requires size { size ≤ 2 ^ 40 }
    requires place { HasPlace size address }
    ensures { IsPlace size address result.page result.index }
{
    let behind = address - REGION_START;
    match class_of(size) {
        Kind::Small(class) => small_place(class, behind),
        _ => Place {
            page: (behind / PAGE_SIZE) as u32,
            index: 0,
        },
    }
}

// The place of a small object that begins so many bytes behind the start of the region. Most spans have a single page, so
// that the object's own is tried before any is searched for.
fn small_place(class: u8, behind: u64) -> Place
    requires is_class { IsClass class }
    requires place { (page : ℕ) × (k : ℕ) × (page < MAX_PAGES) × (k < objects_of class) × (behind ≡ 8192 * page + slot_of class * k) }
    ensures index { result.index < objects_of class }
    ensures start { behind ≡ 8192 * result.page + slot_of class * result.index }
{
    let slot = u64::from(slot_size(class));
    let count = u64::from(span_objects(class));
    match slot_at(behind % PAGE_SIZE, slot, count) {
        Some(index) => Place {
            page: (behind / PAGE_SIZE) as u32,
            index: index as u32,
        },
        None => search_place(behind, slot, count),
    }
}

// The place of an object whose span has so many slots of this size. Its span begins at the object's page or at one of the few
// before it: the last from which the object is a slot. It stands alone, since it is seldom needed.
#[inline(never)]
fn search_place(behind: u64, slot: u64, count: u64) -> Place
    requires near { behind < 2 ^ 35 }
    requires slot { 1 ≤ slot }
    requires few { count < 2 ^ 32 }
    requires place { (page : ℕ) × (k : ℕ) × (k < count) × (behind ≡ 8192 * page + slot * k) }
    ensures index { result.index < count }
    ensures start { behind ≡ 8192 * result.page + slot * result.index }
{
    let mut page = behind / PAGE_SIZE;
    loop {
        match slot_at(behind - page * PAGE_SIZE, slot, count) {
            Some(index) => {
                return Place {
                    page: page as u32,
                    index: index as u32,
                };
            }
            None => page -= 1,
        }
    }
}

// Which of so many slots begins so many bytes behind the start of their span, if one does.
fn slot_at(behind: u64, slot: u64, count: u64) -> Option<u64>
    requires slot { 1 ≤ slot }
    ensures some { IfSome result (λ index. (index < count) × (behind ≡ slot * index)) }
    ensures none { result ≡ None → (k : ℕ) → k < count → behind ≢ slot * k }
{
    let index = behind / slot;
    if index < count && behind % slot == 0 {
        Some(index)
    } else {
        None
    }
}
