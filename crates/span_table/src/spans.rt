//! Runs for new spans, and those that are given back, under the heap lock.
ghost use Rattle.std.specs.Prelude.{◌≡◌, ◌*◌, ◌/◌, ◌<◌, ◌≤◌, true, None};
ghost use Rattle.page_alloc.specs.FreeRuns.{IsSpanSize};
ghost use Rattle.size_classes.specs.Classes.{IsClass, objects_of, slot_of};
ghost use Rattle.span_laws.specs.TakeAnswers.{IsNew, TakesSpan, TriesSpan};
ghost use Rattle.sweep_laws.specs.Lists.{has};
ghost use Rattle.span_laws.specs.Asks.{HasBody};
ghost use Rattle.span_laws.specs.BodyAsks.{IsEmptyBody};
ghost use Rattle.span_laws.specs.Logs.{EndsSweptEmpty};
ghost use Rattle.span_laws.specs.OwnSteps.{after_said};
ghost use Rattle.worker_log.specs.SweptLast.{is_swept_last};

use crate::locks::{give, lock, take, unlock, unlock_missed};
use crate::shared::{Shared, Worker};
use fallible_list::NoMemory;
use size_classes::{PAGE_SIZE, slot_size, span_objects};
use span_laws::{Refused, Said};
use span_state::Body;
use std::sync::Wait;

// The objects of a span.
fn objects(class: u8) -> u32
    requires { 2 ≤ class → IsClass (class / 2) }
    ensures large { class < 2 → result ≡ 1 }
    ensures small { 2 ≤ class → result ≡ objects_of (class / 2) }
    ensures bounds { (1 ≤ result) × (result ≤ 1024) }
{
    if class < 2 {
        1
    } else {
        span_objects(class / 2)
    }
}

// The bytes of an object of a span of n pages.
fn slot(class: u8, n: u32) -> u64
    requires { 2 ≤ class → IsClass (class / 2) }
    ensures large { class < 2 → result ≡ 8192 * n }
    ensures small { 2 ≤ class → result ≡ slot_of (class / 2) }
{
    if class < 2 {
        PAGE_SIZE * u64::from(n)
    } else {
        u64::from(slot_size(class / 2))
    }
}

// The body of a new span.
pub(crate) fn new_body(page: u32, n: u32, class: u8, life: u64) -> Body
    requires { 2 ≤ class → IsClass (class / 2) }
    ensures is_new { IsNew n class result }
    ensures page { result.page ≡ page }
    ensures life { result.life ≡ life }
{
    Body::new(page, n, slot(class, n), objects(class), class, life)
}

impl Shared {
    /// Takes a run of n pages at first fit under the heap lock, for a span of this span class: the worker holds it at G. None where
    /// no run of n pages is free, and then nothing changes.
    pub fn try_span<R: Wait>(
        &self,
        rt: &R,
        w: &mut Worker,
        n: u32,
        class: u8,
    ) -> Result<Option<Body>, NoMemory>
        requires table { w.old.table ≡ self.now }
        requires size { IsSpanSize class n }
        requires class { class < 136 }
        ensures { TriesSpan n class w.old w.new result }
    {
        let mut heap = lock(rt, self, &mut w.seat, w.number);
        let mut steps = 0;
        if heap.find(n, &mut steps).is_none() {
            unlock(self, &mut w.seat, heap);
            return Ok(None);
        }
        let Ok(()) = heap.reserve_line() else {
            unlock(self, &mut w.seat, heap);
            return Err(NoMemory);
        };
        let cycle = ((w.generation - 4) / 2) as u32;
        let line = heap.journal().len() as u64;
        let Ok(page) = heap.take(cycle, n, class) else {
            unreachable!()
        };
        let body = new_body(page, n, class, line);
        take(self, &mut w.seat, &body, &heap, w.generation);
        unlock(self, &mut w.seat, heap);
        Ok(Some(body))
    }

    /// The same, but NoRun where no run of n pages is free, with the Miss line that says so.
    pub fn take_span<R: Wait>(
        &self,
        rt: &R,
        w: &mut Worker,
        n: u32,
        class: u8,
    ) -> Result<Body, Refused>
        requires table { w.old.table ≡ self.now }
        requires size { IsSpanSize class n }
        requires class { class < 136 }
        ensures { TakesSpan n class w.old w.new result }
    {
        let mut heap = lock(rt, self, &mut w.seat, w.number);
        let Ok(()) = heap.reserve_line() else {
            unlock(self, &mut w.seat, heap);
            return Err(Refused::NoMemory);
        };
        let cycle = ((w.generation - 4) / 2) as u32;
        let line = heap.journal().len() as u64;
        match heap.take(cycle, n, class) {
            Ok(page) => {
                let body = new_body(page, n, class, line);
                take(self, &mut w.seat, &body, &heap, w.generation);
                unlock(self, &mut w.seat, heap);
                Ok(body)
            }
            Err(none) => {
                unlock_missed(self, &mut w.seat, heap, none.line, n, class);
                Err(Refused::NoRun { line: none.line })
            }
        }
    }

    /// Gives a span back to the heap (`mheap.go`, `freeSpan`): the worker holds it at G, has claimed nothing, and nothing is
    /// allocated in it; the last sweep of its log is of this span with nothing kept, it took no run behind that, and it has not given
    /// back the span since. Takes no memory, and waits for the heap lock.
    pub fn give_span<R: Wait>(&self, rt: &R, w: &mut Worker, body: Body)
        // the worker, and the span that it holds
        requires table { w.old.table ≡ self.now }
        requires held { has body.page w.old.view.own.held ≡ true }
        requires unclaimed { w.old.view.own.claimed ≡ None }
        requires lent { HasBody w.old.view.own body }

        // the span is empty, and was swept last
        requires empty { IsEmptyBody body }
        requires swept { EndsSweptEmpty body.page w.old.view.own.log }
        requires last { is_swept_last body.page w.old.view.own.log ≡ true }

        // what was done
        ensures { w.new ≡ after_said (Said.Gives body.page body.pages) w.old }
    {
        let mut heap = lock(rt, self, &mut w.seat, w.number);
        let cycle = ((w.generation - 4) / 2) as u32;
        heap.give(cycle, body.page);
        give(self, &mut w.seat, &body, &heap);
        unlock(self, &mut w.seat, heap);
    }
}
