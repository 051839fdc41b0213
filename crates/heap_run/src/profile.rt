//! The sampled profile of a run.

ghost use Rattle.std.specs.Prelude.{◌≡◌, ◌≤◌, ◌++◌, [], length, map, true, false, IfOk, OnOk};
ghost use Rattle.std.specs.List.{AllByRecursion};
ghost use Rattle.trace_reader.specs.Limits.{EventFits, events_of};
ghost use Rattle.profile_cycle.specs.declared.calls.What.TheVariants.{AfterSweep, NextCycle};
ghost use Rattle.profile_cycle.specs.History.{calls, first_view};
ghost use Rattle.heap_run.specs.Naming.{KnowsBuckets};
ghost use Rattle.heap_run.specs.Published.{counts_from};
ghost use Rattle.profile_lines.specs.Read.{AreDifferent, AreFew, IsOrder, all_lines, changed_lines, count_of};

use cycle_history::Prof;
use edge_io::{List, NoMemory};
use profile_cycle::{Buckets, Count, Ring, Tally, a_pair_is_a_bucket_where_an_event_has_it};
use profile_lines::{add_all, add_changed, buckets_differ, order_of};
use std::alloc::Global;
use trace_reader::Trace;

/// What is counted, and the lines that were read of it so far.
#[derive(Drop)]
pub(crate) struct Profile {
    /// Whether each mark end is told, and not the last one alone.
    pub each: bool,
    /// What is counted.
    pub ring: Ring,
    /// The buckets of the trace; at rate 0, where nothing is sampled, there are none.
    pub known: Buckets,
    /// Their numbers, in the order of the lines.
    pub order: List<u32>,
    /// The numbers of each bucket as they were read last, in the same order.
    pub before: Vec<Count>,
    /// The lines that were read.
    pub lines: List<Prof>,
}

impl Profile {
    /// Nothing is counted yet. The second of the pair is the driver's tally. The ring has a bucket also where the trace has none.
    pub(crate) fn new(
        alloc: Global,
        trace: &Trace,
        each: bool,
    ) -> Result<(Profile, Tally), NoMemory>
        // the trace
        requires events { AllByRecursion (EventFits trace.now.header.procs) (events_of trace.now) }
        requires objects { length (events_of trace.now) ≤ 1000000 }

        // when it is read
        ensures each { IfOk result (λ p. p.0.each ≡ each) }

        // the known buckets
        ensures different { IfOk result (λ p. AreDifferent p.0.known) }
        ensures named { IfOk result (λ p. KnowsBuckets trace.now p.0.known) }

        // the ring, where nothing is counted yet
        ensures some { IfOk result (λ p. 1 ≤ p.0.ring.buckets) }
        ensures room { IfOk result (λ p. length p.0.known ≤ p.0.ring.buckets) }
        ensures tally { IfOk result (λ p. p.1 ≡ record { ring = p.0.ring; view = first_view }) }

        // what is read, nothing yet
        ensures order { IfOk result (λ p. IsOrder p.0.known p.0.order) }
        ensures before { IfOk result (λ p. p.0.before.items ≡ map (λ _. record { allocs = 0; frees = 0 }) p.0.order) }
        ensures lines { IfOk result (λ p. p.0.lines ≡ []) }
    {
        let known = buckets_of_samples(alloc, trace)?;
        let (ring, tally) = Ring::new(alloc, known.len().max(1))?;
        let order = order_of(alloc, &known)?;
        let none = Count {
            allocs: 0,
            frees: 0,
        };
        let before = order.as_slice().iter().map(|_| none).collect(alloc)?;
        let profile = Profile {
            each,
            ring,
            known,
            order,
            before,
            lines: List::new(alloc),
        };
        Ok((profile, tally))
    }

    /// Publishes behind the full sweep of a cycle. Behind cycle 0, before which nothing was marked, nothing is published.
    pub(crate) fn end_sweep(&mut self, tally: &mut Tally, cycle: u32)
        requires ring { tally.old.ring ≡ self.old.ring }
        requires drives { tally.old.view.drives ≡ true }
        requires alone { tally.old.view.out ≡ 0 }
        ensures profile { self.new ≡ self.old }
        ensures first { cycle ≡ 0 → tally.new ≡ tally.old }
        ensures later { 1 ≤ cycle → tally.new ≡ calls tally.old AfterSweep }
    {
        if 0 < cycle {
            self.ring.after_sweep(tally);
        }
    }

    /// Begins the next cycle, behind a mark end. Where each mark end is told, the lines of the mark end before are read, which has
    /// this number: of the buckets whose numbers changed.
    pub(crate) fn next_cycle(&mut self, tally: &mut Tally, mark: u32) -> Result<(), NoMemory>
        // the driver's tally
        requires ring { tally.old.ring ≡ self.old.ring }
        requires drives { tally.old.view.drives ≡ true }
        requires alone { tally.old.view.out ≡ 0 }

        // the known buckets and their counts
        requires room { length self.old.known ≤ self.old.ring.buckets }
        requires order { IsOrder self.old.known self.old.order }
        requires before { length self.old.before.items ≡ length self.old.order }
        requires few { AreFew (length self.old.known) (calls tally.old NextCycle).view.calls }

        // the tally behind it
        ensures tally { OnOk result (tally.new ≡ calls tally.old NextCycle) }

        // what stays
        ensures ring { OnOk result (self.new.ring ≡ self.old.ring) }
        ensures each { OnOk result (self.new.each ≡ self.old.each) }
        ensures known { OnOk result (self.new.known ≡ self.old.known) }
        ensures order { OnOk result (self.new.order ≡ self.old.order) }

        // what is read
        ensures unread { OnOk result (self.old.each ≡ false → (self.new.lines ≡ self.old.lines) × (self.new.before.items ≡ self.old.before.items)) }
        ensures read { OnOk result (self.old.each ≡ true → (self.new.lines ≡ self.old.lines ++ changed_lines self.old.known (calls tally.old NextCycle).view.calls mark self.old.order self.old.before.items)
            × (self.new.before.items ≡ map (count_of (calls tally.old NextCycle).view.calls) self.old.order)) }
    {
        self.ring.next_cycle(tally);
        if !self.each {
            return Ok(());
        }
        add_changed(
            &self.ring,
            tally,
            &self.known,
            self.order.as_slice(),
            mark,
            self.before.as_mut_slice(),
            &mut self.lines,
        )
    }

    /// Reads the lines of the last mark end, of all buckets with allocations. Nothing else changes.
    pub(crate) fn read_last(&mut self, tally: &mut Tally, mark: u32) -> Result<(), NoMemory>
        // the driver's tally
        requires ring { tally.old.ring ≡ self.old.ring }
        requires drives { tally.old.view.drives ≡ true }
        requires alone { tally.old.view.out ≡ 0 }

        // the known buckets and their counts
        requires room { length self.old.known ≤ self.old.ring.buckets }
        requires order { IsOrder self.old.known self.old.order }
        requires few { AreFew (length self.old.known) tally.old.view.calls }

        // what stays
        ensures tally { tally.new ≡ tally.old }
        ensures ring { self.new.ring ≡ self.old.ring }
        ensures each { self.new.each ≡ self.old.each }
        ensures known { self.new.known ≡ self.old.known }
        ensures order { self.new.order ≡ self.old.order }
        ensures before { self.new.before ≡ self.old.before }

        // what is read
        ensures lines { OnOk result (self.new.lines ≡ self.old.lines ++ all_lines self.old.known tally.old.view.calls mark self.old.order) }
    {
        add_all(
            &self.ring,
            tally,
            &self.known,
            self.order.as_slice(),
            mark,
            &mut self.lines,
        )
    }

    /// What is published of each bucket, by its number. Nothing changes.
    pub(crate) fn counts(&self, alloc: Global, tally: &mut Tally) -> Result<List<Count>, NoMemory>
        // the driver's tally
        requires ring { tally.old.ring ≡ self.now.ring }
        requires drives { tally.old.view.drives ≡ true }
        requires alone { tally.old.view.out ≡ 0 }

        // the known buckets and their counts
        requires room { length self.now.known ≤ self.now.ring.buckets }
        requires few { AreFew (length self.now.known) tally.old.view.calls }

        // what stays
        ensures tally { tally.new ≡ tally.old }

        // what is answered
        ensures counts { IfOk result (λ counts. counts ≡ counts_from tally.old.view.calls 0 self.now.known) }
    {
        let buckets = self.known.len();
        let mut counts = List::with_room(alloc, buckets as usize)?;
        for bucket in 0..buckets {
            counts.push(self.ring.published(tally, bucket))?;
        }
        Ok(counts)
    }
}

// The buckets of the trace, or none at rate 0, so that no object's bucket is looked for where nothing is sampled.
fn buckets_of_samples(alloc: Global, trace: &Trace) -> Result<Buckets, NoMemory>
    requires events { AllByRecursion (EventFits trace.now.header.procs) (events_of trace.now) }
    requires objects { length (events_of trace.now) ≤ 1000000 }
    ensures different { IfOk result (λ known. AreDifferent known) }
    ensures named { IfOk result (λ known. KnowsBuckets trace.now known) }
{
    buckets_differ();
    a_pair_is_a_bucket_where_an_event_has_it();
    if trace.header.rate == 0 {
        let empty = Trace {
            header: trace.header,
            cycles: List::new(alloc),
        };
        return Buckets::of_trace(alloc, &empty);
    }
    Buckets::of_trace(alloc, trace)
}
