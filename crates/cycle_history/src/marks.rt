//! The marks of a mark end.

ghost use Rattle.std.specs.Prelude.{◌≡◌, ℕ, ◌+◌, ◌-◌, ◌<◌, ◌≤◌, true, false, length, slice_get, slice_index_or, Some, OnOk};
ghost use Rattle.cycle_history.specs.Requests.{last_cycle, marked_by};
ghost use Rattle.cycle_history.specs.Found.{AreFound};
ghost use Rattle.cycle_history.specs.Marked.{AreMarksBelow, AreMarksOf, ArePlacesOf, LieApart, LivedBefore};
ghost use Rattle.cycle_history.specs.Before.{AreClear, ArePlaces, IsLimited, marks_at, objects_before};
ghost use Rattle.cycle_history.specs.MarkedLoops.{AreKept, AreOf, IsBehind};

use crate::Answer;
use crate::lookups::{Walk, spans_at};
use crate::places::{PackedPlace, find_places};
use edge_io::{List, NoMemory};
use span_state::Marks;
use std::alloc::Global;
use trace_reader::Trace;

// So many objects are looked at at once for one that is sampled.
const STRIDE: usize = 8;

/// Makes the marks of mark end `mark`, from 1 to the trace's last: the places of the objects that it marks, and for each page
/// the buckets of the sampled objects that lay there, lived in the cycle before and are not marked.
///
/// Each list has one entry for each object before the mark end, and a placed answer is a place of its object's size in
/// the region. No two objects that lived in the cycle before lie at one place.
///
/// `marks` are lent: they come with the places that the mark end before marks, none before mark end 1, and go with those of
/// this one. Without memory nothing is known of them. `places` is kept from mark end to mark end: it has the places of the
/// objects before the mark end before, and gets those of the cycle behind it, so that each object's place is found once.
/// `clear` is kept, too: none of so many first objects is sampled.
///
/// It takes time in the objects of that cycle, in the spans of the mark end and of the one before it, and in the objects that
/// only the one before marks, and in nothing else.
pub fn marks_of(
    alloc: Global,
    trace: &Trace,
    mark: u32,
    answers: &List<Answer>,
    sampled: &List<bool>,
    buckets: &List<u32>,
    places: &mut List<PackedPlace>,
    clear: &mut usize,
    marks: &mut Marks,
) -> Result<(), NoMemory>
    // the trace, and the mark end
    requires limited { IsLimited trace.now }
    requires first { 1 ≤ mark }
    requires last { mark ≤ last_cycle trace.now }

    // the lists of the objects
    requires answers { length answers.now ≡ objects_before trace.now mark }
    requires sampled { length sampled.now ≡ objects_before trace.now mark }
    requires buckets { length buckets.now ≡ objects_before trace.now mark }

    // where the objects lie
    requires places { ArePlaces trace.now answers.now }
    requires apart { LieApart trace.now mark answers.now }

    // what was kept from the mark end before
    requires kept { length places.old ≡ objects_before trace.now (mark - 1) }
    requires found { AreFound trace.now answers.now places.old }
    requires clear { AreClear sampled.now clear.old }
    requires before { ArePlacesOf trace.now (mark - 1) answers.now marks.old }

    // the marks of this one
    ensures marks { OnOk result (AreMarksOf trace.now mark answers.now sampled.now buckets.now marks.new) }

    // what is kept for the next
    ensures kept { OnOk result (length places.new ≡ objects_before trace.now mark) }
    ensures found { OnOk result (AreFound trace.now answers.now places.new) }
    ensures clear { OnOk result (AreClear sampled.now clear.new) }
{
    let first = places.len();
    let events = trace.cycles.as_slice()[mark as usize - 1].events.as_slice();
    find_places(alloc, trace, mark - 1, events, answers.as_slice(), places)?;
    let objects = Objects {
        trace,
        mark,
        answers: answers.as_slice(),
        sampled: sampled.as_slice(),
        buckets: buckets.as_slice(),
        places: places.as_slice(),
    };
    marks.forget_dead();
    objects.mark_all(marks, first)?;
    *clear = clear_end(sampled.as_slice(), *clear);
    if *clear < sampled.len() {
        objects.bury_all(marks, first)?;
    }
    Ok(())
}

// What is known of the objects before a mark end.
#[derive(Drop)]
struct Objects<'a> {
    trace: &'a Trace,
    mark: u32,
    answers: &'a [Answer],
    sampled: &'a [bool],
    buckets: &'a [u32],
    // where each placed object lies
    places: &'a [PackedPlace],
}

impl Objects<'_> {
    // Makes the marks of this mark end from those of the one before, but for the dead: unmarks what only the one before
    // marked, and marks what this one marks of the cycle before, which has this first object. It stands alone, so that its
    // loops have the registers.
    #[inline(never)]
    fn mark_all(&self, marks: &mut Marks, first: usize) -> Result<(), NoMemory>
        requires given { AreOf self.now }
        requires first { first ≡ objects_before self.now.trace.now (self.now.mark - 1) }
        requires kept { AreKept self.now.trace.now self.now.mark self.now.answers.now 0 marks.old }
        ensures { OnOk result (AreMarksBelow self.now.trace.now self.now.mark self.now.answers.now self.now.sampled.now self.now.buckets.now (length self.now.answers.now) 0 marks.new) }
    {
        let spans = spans_at(self.trace, self.mark);
        let mut marked = Walk { spans, next: 0 };
        for span in spans_at(self.trace, self.mark - 1) {
            self.unmark(marks, &mut marked, span.lo as usize, span.hi as usize + 1);
        }
        self.mark_from(marks, &mut marked, first)
    }

    // Unmarks the places of the objects from low up to high that this mark end doesn't mark. The mark end before marked them all.
    #[inline(always)]
    fn unmark(&self, marks: &mut Marks, marked: &mut Walk, low: usize, high: usize)
        // what is known of the objects
        requires given { AreOf self.now }

        // those from low up to high
        requires order { low ≤ high }
        requires high { high ≤ length self.now.answers.now }
        requires old { (i : ℕ) → low ≤ i → i < high → marked_by self.now.trace.now (self.now.mark - 1) i ≡ true }

        // the walk
        requires spans { marked.old.spans.now ≡ marks_at self.now.trace.now self.now.mark }
        requires behind { IsBehind marked.old low }

        // the marks
        requires kept { AreKept self.now.trace.now self.now.mark self.now.answers.now low marks.old }

        // the walk behind it
        ensures spans { marked.new.spans.now ≡ marked.old.spans.now }
        ensures behind { IsBehind marked.new high }

        // the marks behind it
        ensures kept { AreKept self.now.trace.now self.now.mark self.now.answers.now high marks.new }
    {
        let mut next = low;
        while next < high {
            let (stay, end) = marked.run(next, high);
            if !stay {
                self.unmark_run(marks, next, end);
            }
            next = end;
        }
    }

    // Unmarks the places of the objects from low up to high, all of which only the mark end before marked.
    #[inline(always)]
    fn unmark_run(&self, marks: &mut Marks, low: usize, high: usize)
        // what is known of the objects
        requires given { AreOf self.now }

        // those from low up to high
        requires order { low ≤ high }
        requires high { high ≤ length self.now.answers.now }
        requires old { (i : ℕ) → low ≤ i → i < high → marked_by self.now.trace.now (self.now.mark - 1) i ≡ true }
        requires unmarked { (i : ℕ) → low ≤ i → i < high → marked_by self.now.trace.now self.now.mark i ≡ false }

        // the marks
        requires kept { AreKept self.now.trace.now self.now.mark self.now.answers.now low marks.old }

        // the marks behind it
        ensures { AreKept self.now.trace.now self.now.mark self.now.answers.now high marks.new }
    {
        let places = self.places;
        for object in low..high {
            if let Some(place) = places[object].place() {
                marks.remove(place.page, place.index);
            }
        }
    }

    // Marks the places of the objects from the first on that the mark end marks.
    #[inline(always)]
    fn mark_from(&self, marks: &mut Marks, marked: &mut Walk, first: usize) -> Result<(), NoMemory>
        requires given { AreOf self.now }
        requires order { first ≤ length self.now.answers.now }
        requires spans { marked.old.spans.now ≡ marks_at self.now.trace.now self.now.mark }
        requires behind { IsBehind marked.old first }
        requires below { AreMarksBelow self.now.trace.now self.now.mark self.now.answers.now self.now.sampled.now self.now.buckets.now first 0 marks.old }
        ensures { OnOk result (AreMarksBelow self.now.trace.now self.now.mark self.now.answers.now self.now.sampled.now self.now.buckets.now (length self.now.answers.now) 0 marks.new) }
    {
        let all = self.answers.len();
        let mut next = first;
        while next < all {
            let (has, end) = marked.run(next, all);
            if has {
                self.mark_span(marks, next, end)?;
            }
            next = end;
        }
        Ok(())
    }

    // Marks the places of the objects from low up to high, all of which the mark end marks.
    fn mark_span(&self, marks: &mut Marks, low: usize, high: usize) -> Result<(), NoMemory>
        requires given { AreOf self.now }
        requires order { low ≤ high }
        requires high { high ≤ length self.now.answers.now }
        requires marked { (i : ℕ) → low ≤ i → i < high → marked_by self.now.trace.now self.now.mark i ≡ true }
        requires below { AreMarksBelow self.now.trace.now self.now.mark self.now.answers.now self.now.sampled.now self.now.buckets.now low 0 marks.old }
        ensures { OnOk result (AreMarksBelow self.now.trace.now self.now.mark self.now.answers.now self.now.sampled.now self.now.buckets.now high 0 marks.new) }
    {
        let places = self.places;
        for object in low..high {
            if let Some(place) = places[object].place() {
                marks.add(place.page, place.index)?;
            }
        }
        Ok(())
    }

    // Counts the sampled objects that died among the dead of their pages: those that lived in the cycle before, which
    // has this first object, and that the mark end doesn't mark.
    #[inline(never)]
    fn bury_all(&self, marks: &mut Marks, first: usize) -> Result<(), NoMemory>
        requires given { AreOf self.now }
        requires first { first ≡ objects_before self.now.trace.now (self.now.mark - 1) }
        requires below { AreMarksBelow self.now.trace.now self.now.mark self.now.answers.now self.now.sampled.now self.now.buckets.now (length self.now.answers.now) 0 marks.old }
        ensures { OnOk result (AreMarksBelow self.now.trace.now self.now.mark self.now.answers.now self.now.sampled.now self.now.buckets.now (length self.now.answers.now) (length self.now.answers.now) marks.new) }
    {
        let mut marked = Walk {
            spans: spans_at(self.trace, self.mark),
            next: 0,
        };
        for span in spans_at(self.trace, self.mark - 1) {
            self.bury(marks, &mut marked, span.lo as usize, span.hi as usize + 1)?;
        }
        self.bury(marks, &mut marked, first, self.answers.len())
    }

    // Does so for the objects from low up to high, all of which lived. Those that the mark end marks are passed over in runs.
    #[inline(always)]
    fn bury(
        &self,
        marks: &mut Marks,
        marked: &mut Walk,
        low: usize,
        high: usize,
    ) -> Result<(), NoMemory>
        // what is known of the objects
        requires given { AreOf self.now }

        // those from low up to high
        requires order { low ≤ high }
        requires high { high ≤ length self.now.answers.now }
        requires lived { (i : ℕ) → low ≤ i → i < high → LivedBefore self.now.trace.now self.now.mark i }

        // the walk
        requires spans { marked.old.spans.now ≡ marks_at self.now.trace.now self.now.mark }
        requires behind { IsBehind marked.old low }

        // the marks
        requires below { AreMarksBelow self.now.trace.now self.now.mark self.now.answers.now self.now.sampled.now self.now.buckets.now (length self.now.answers.now) low marks.old }

        // the walk behind it
        ensures spans { marked.new.spans.now ≡ marked.old.spans.now }
        ensures behind { OnOk result (IsBehind marked.new high) }

        // the marks behind it
        ensures below { OnOk result (AreMarksBelow self.now.trace.now self.now.mark self.now.answers.now self.now.sampled.now self.now.buckets.now (length self.now.answers.now) high marks.new) }
    {
        let mut next = low;
        while next < high {
            let (lives, end) = marked.run(next, high);
            if !lives {
                self.bury_run(marks, next, end)?;
            }
            next = end;
        }
        Ok(())
    }

    // Does so for the objects from low up to high, all of which died.
    fn bury_run(&self, marks: &mut Marks, low: usize, high: usize) -> Result<(), NoMemory>
        // what is known of the objects
        requires given { AreOf self.now }

        // those from low up to high
        requires order { low ≤ high }
        requires high { high ≤ length self.now.answers.now }
        requires lived { (i : ℕ) → low ≤ i → i < high → LivedBefore self.now.trace.now self.now.mark i }
        requires unmarked { (i : ℕ) → low ≤ i → i < high → marked_by self.now.trace.now self.now.mark i ≡ false }

        // the marks
        requires below { AreMarksBelow self.now.trace.now self.now.mark self.now.answers.now self.now.sampled.now self.now.buckets.now (length self.now.answers.now) low marks.old }

        // the marks behind it
        ensures { OnOk result (AreMarksBelow self.now.trace.now self.now.mark self.now.answers.now self.now.sampled.now self.now.buckets.now (length self.now.answers.now) high marks.new) }
    {
        let sampled = self.sampled;
        for object in low..high {
            if sampled[object] {
                self.bury_one(marks, object)?;
            }
        }
        Ok(())
    }

    // Counts an object that died, if it is placed, among the dead of its page.
    fn bury_one(&self, marks: &mut Marks, object: usize) -> Result<(), NoMemory>
        // what is known of the objects
        requires given { AreOf self.now }

        // the object
        requires inside { object < length self.now.answers.now }
        requires sampled { slice_get self.now.sampled.now object ≡ Some true }
        requires lived { LivedBefore self.now.trace.now self.now.mark object }
        requires unmarked { marked_by self.now.trace.now self.now.mark object ≡ false }

        // the marks
        requires below { AreMarksBelow self.now.trace.now self.now.mark self.now.answers.now self.now.sampled.now self.now.buckets.now (length self.now.answers.now) object marks.old }

        // the marks behind it
        ensures { OnOk result (AreMarksBelow self.now.trace.now self.now.mark self.now.answers.now self.now.sampled.now self.now.buckets.now (length self.now.answers.now) (object + 1) marks.new) }
    {
        match self.places[object].place() {
            Some(place) => marks.add_dead(place.page, self.buckets[object]),
            None => Ok(()),
        }
    }
}

// How many first flags are not set, where so many are known not to be.
fn clear_end(flags: &[bool], known: usize) -> usize
    requires { AreClear flags.now known }
    ensures clear { AreClear flags.now result }
{
    let mut end = pass_unset(flags, known);
    while end < flags.len() && !flags[end] {
        end += 1;
    }
    end
}

// How far whole strides of flags from low on have none that is set.
fn pass_unset(flags: &[bool], low: usize) -> usize
    requires { low ≤ length flags.now }
    ensures order { low ≤ result }
    ensures inside { result ≤ length flags.now }
    ensures unset { (i : ℕ) → low ≤ i → i < result → slice_index_or flags.now i false ≡ false }
{
    let mut end = low;
    while STRIDE <= flags.len() - end && !is_any_set(flags, end) {
        end += STRIDE;
    }
    end
}

// Whether any flag of the stride that begins at the start is set. All are looked at, so that one compare does.
fn is_any_set(flags: &[bool], start: usize) -> bool
    requires { start + 8 ≤ length flags.now }
    ensures { result ≡ false → (i : ℕ) → start ≤ i → i < start + 8 → slice_index_or flags.now i false ≡ false }
{
    flags[start]
        | flags[start + 1]
        | flags[start + 2]
        | flags[start + 3]
        | flags[start + 4]
        | flags[start + 5]
        | flags[start + 6]
        | flags[start + 7]
}
