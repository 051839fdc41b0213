//! The run of a whole trace.

ghost use Rattle.std.specs.Prelude.{◌≡◌, ℕ, suc, ◌+◌, ◌-◌, ◌^◌, ◌<◌, ◌≤◌, if◌then◌else◌, [], length, slice_index_or, vec_len, is_some, None, Some, IfOk, OnOk};
ghost use Rattle.trace_reader.specs.Limits.{WithinLimits, events_of};
ghost use Rattle.cycle_history.specs.Before.{AreAlike, IsLimited};
ghost use Rattle.cycle_history.specs.Requests.{caching_procs, last_cycle};
ghost use Rattle.tiny_alloc.specs.Versions.{HasFormByVersion, IsSoundByVersion};
ghost use Rattle.heap_run.specs.Versions.{IsLeftByVersion};
ghost use Rattle.heap_run.specs.Paces.{pace};
ghost use Rattle.heap_run.specs.Turns.{no_cache};
ghost use Rattle.sweep_laws.specs.Start.{copies};
ghost use Rattle.profile_cycle.specs.Sampling.{countdown};

use crate::audience::Audience;
use crate::course::{Course, Rides};
use crate::cycle::{LentLists, run_workers};
use crate::merge::{lend, take_back};
use crate::profile::Profile;
use crate::queues::{number_all, queues_of};
use crate::rest::read_rest;
use crate::sorting::file_notes;
use cycle_history::{Answer, CACHING_VERSION, PackedPlace, Report, caching_procs, marks_of};
use edge_io::{Gate, List, NoMemory};
use proc_cache::Proc;
use profile_readers::{Board, Publisher, Viewer};
use size_classes::PAGE_SIZE;
use span_set::{Distance, Hand, Shop, reset};
use span_state::{Marks, SweepNote};
use span_table::{Shared, Worker};
use std::alloc::Global;
use std::marker::Brand;
use std::mem::replace;
use std::sync::Wait;
use std::thread::Threads;
use tiny_alloc::all_leads;
use trace_reader::{Event, Header, Trace};

// The bytes of a mark end's distance that are left for the marking itself (`mgcpacer.go`, the heap's least trigger distance); what
// is left paces the sweeping.
const MARKING: u64 = 1048576;

// The least distance by which sweeping is paced, a page.
const LEAST: u64 = PAGE_SIZE;

/// What is asked of a run besides its trace.
#[derive(Clone, Copy, Debug, PartialEq, Eq)]
pub struct Options {
    /// How many background sweepers there are, from 0 to 4.
    pub background: u32,
    /// Whether the profile of each mark end is told, and not that of the last one alone.
    pub each: bool,
}

/// What the workers of a cycle are asked: its events, with the numbers of their buckets, and whether tiny objects ride.
#[derive(Drop)]
pub(crate) struct Asked<'a> {
    pub(crate) events: &'a [Event],
    pub(crate) numbers: &'a [u32],
    pub(crate) riding: bool,
}

/// What a run leaves.
#[derive(Drop)]
pub struct Ran {
    /// The report.
    pub report: Report,
    /// The shared spans.
    pub shared: Shared,
    /// The driver's worker; no other is out.
    pub driver: Worker,
}

/// Runs a trace within its limits: each processor's events by its own worker, in the order of the trace. Before
/// each event a processor passes the gate with its number and the event's place among its own of the cycle, and before their
/// first steps in a cycle the background sweepers (64 to 67) and the scavenger (68) pass it with turn 0. In a trace of version 2 or more
/// each processor has a page cache, and settles its block behind its last event of a cycle. In one of version 3 tiny objects ride in
/// blocks of 16 bytes.
pub fn run_trace<R: Threads + Wait + Sync, G: Gate>(
    rt: &R,
    alloc: Global,
    trace: &Trace,
    options: Options,
    gate: &G,
) -> Result<Ran, NoMemory>
    requires limits { WithinLimits trace.now }
    requires background { options.background ≤ 4 }
    ensures sound { IfOk result (λ ran. IsSoundByVersion trace.now ran.report) }
    ensures form { IfOk result (λ ran. HasFormByVersion trace.now ran.report options.each) }
    ensures left { IfOk result (λ ran. IsLeftByVersion trace.now ran) }
{
    let mut course = Course::new(alloc, trace)?;
    let mut run = Run::start(alloc, &course, options.each)?;
    let mut nobody: Audience<Brand> = Audience::nobody(alloc);
    let ran = run.run_cycles(
        rt,
        alloc,
        &mut course,
        options.background,
        gate,
        &mut nobody,
    );
    nobody.close(rt);
    ran?;
    run.into_ran(alloc, course)
}

/// The shared spans with their driver and processors, and what was answered and swept so far.
#[derive(Drop)]
pub(crate) struct Run {
    pub(crate) shared: Shared,
    // The driver, with the notes of the cycle's sweeps.
    pub(crate) driver: Hand,
    pub(crate) procs: Vec<Proc>,
    // The marks of the last mark end, which the next one changes.
    pub(crate) marks: Marks,
    pub(crate) answers: List<Answer>,
    pub(crate) sweeps: List<SweepNote>,
    // Whether each object is sampled, and the number of its bucket.
    pub(crate) sampled: List<bool>,
    pub(crate) buckets: List<u32>,
    pub(crate) profile: Profile,
    // Where each object before the last mark end lies, and so many first ones of which none is sampled.
    pub(crate) places: List<PackedPlace>,
    pub(crate) clear: usize,
}

impl Run {
    ghost use Rattle.trace_reader.specs.declared.trace.Trace.{Trace as ATrace};
    ghost use Rattle.heap_run.specs.Allocated.{HasAllocated, MayAllocate, MayAsk};
    ghost use Rattle.heap_run.specs.Courses.{HasBegunAll, HasRidden, HasCompletedAll, HasShownAll, HasShownEnd, IsFresh, IsOnCourse, IsPlain, base_of, printed_of, trace_of};
    ghost use Rattle.heap_run.specs.Naming.{KnowsBuckets};
    ghost use Rattle.heap_run.specs.Runs.{HasBegun, HasCompleted};
    ghost use Rattle.heap_run.specs.Watching.{GoesOn, HasShown};

    /// Nothing is asked yet of the course's trace.
    pub(crate) fn start(alloc: Global, course: &Course, each: bool) -> Result<Run, NoMemory>
        requires limits { IsLimited (trace_of course.now) }
        requires fresh { IsFresh (trace_of course.now) course.now }
        ensures on { IfOk result (λ run. IsOnCourse 0 0 course.now run) }
        ensures begun { IfOk result (λ run. HasBegunAll 0 (base_of course.now) run) }
        ensures each { IfOk result (λ run. run.profile.each ≡ each) }
    {
        match course {
            Course::Plain(trace) => Run::new(alloc, trace, each),
            Course::Tiny(rides) => {
                let leads = all_leads(alloc, rides.trace)?;
                Run::new(alloc, &leads, each)
            }
        }
    }

    // Nothing is asked yet of a trace with this header whose buckets are those of the trace.
    fn new(alloc: Global, trace: &Trace, each: bool) -> Result<Run, NoMemory>
        requires limits { IsLimited trace.now }
        ensures begun { IfOk result (λ run. (t : ATrace) → t.header ≡ trace.now.header → KnowsBuckets t run.profile.known → HasBegun t 0 run) }
        ensures named { IfOk result (λ run. KnowsBuckets trace.now run.profile.known) }
        ensures answers { IfOk result (λ run. run.answers ≡ []) }
        ensures each { IfOk result (λ run. run.profile.each ≡ each) }
    {
        let objects = objects_of(trace);
        let answers = List::with_room(alloc, objects)?;
        let sampled = List::with_room(alloc, objects)?;
        let buckets = List::with_room(alloc, objects)?;
        let places = List::with_room(alloc, objects)?;
        let procs = processors(alloc, &trace.header)?;
        let Header { chunks, goal, .. } = trace.header;
        let (shared, driver) = Shared::new(alloc, chunks, goal, caching_procs(trace))?;
        let (profile, tally) = Profile::new(alloc, trace, each)?;
        Ok(Run {
            shared,
            driver: Hand::new(alloc, driver, tally),
            procs,
            marks: Marks::empty(alloc),
            answers,
            sweeps: List::new(alloc),
            sampled,
            buckets,
            profile,
            places,
            clear: 0,
        })
    }

    /// Runs all cycles before an audience, with a mark end behind each but the last. If there is a publisher, it publishes the profile of
    /// each mark end.
    pub(crate) fn run_cycles<B: Board + Send + Sync, R: Threads + Wait + Sync, G: Gate>(
        &mut self,
        rt: &R,
        alloc: Global,
        course: &mut Course,
        background: u32,
        gate: &G,
        audience: &mut Audience<B>,
    ) -> Result<(), NoMemory>
        // the trace
        requires limits { IsLimited (trace_of course.old) }

        // the helpers
        requires background { background ≤ 4 }

        // the run as it begins
        requires on { IsOnCourse 0 0 course.old self.old }
        requires begun { HasBegunAll 0 (base_of course.old) self.old }
        requires unshown { HasShownAll B.buckets 0 (base_of course.old) self.old audience.old.publisher }

        // the run at its end
        ensures trace { trace_of course.new ≡ trace_of course.old }
        ensures on { OnOk result (IsOnCourse (last_cycle (trace_of course.old)) (last_cycle (trace_of course.old) + 1) course.new self.new) }
        ensures ran { OnOk result (HasCompletedAll (last_cycle (trace_of course.old)) (base_of course.new) self.new) }
        ensures each { OnOk result (self.new.profile.each ≡ self.old.profile.each) }

        // the audience
        ensures publisher { is_some audience.new.publisher ≡ is_some audience.old.publisher }
        ensures viewers { vec_len audience.new.viewers ≡ vec_len audience.old.viewers }
        ensures shown { OnOk result (HasShownEnd B.buckets (last_cycle (trace_of course.old)) (base_of course.new) self.new audience.new.publisher) }
    {
        let last = course.last();
        for cycle in 0..last {
            self.run_and_show(rt, alloc, course, cycle, background, gate, audience)?;
            course.next_cycle(alloc, cycle)?;
            self.mark_end(alloc, course.base(), cycle)?;
        }
        self.run_and_show(rt, alloc, course, last, background, gate, audience)
    }

    // Runs a cycle to its end, and shows the profile of the mark end before it.
    fn run_and_show<B: Board + Send + Sync, R: Threads + Wait + Sync, G: Gate>(
        &mut self,
        rt: &R,
        alloc: Global,
        course: &mut Course,
        cycle: u32,
        background: u32,
        gate: &G,
        audience: &mut Audience<B>,
    ) -> Result<(), NoMemory>
        // the helpers
        requires background { background ≤ 4 }

        // the run as the cycle begins
        requires on { IsOnCourse cycle cycle course.old self.old }
        requires begun { HasBegunAll cycle (base_of course.old) self.old }

        // what was shown before
        requires before { HasShownAll B.buckets cycle (base_of course.old) self.old audience.old.publisher }

        // the run as the cycle ends
        ensures trace { trace_of course.new ≡ trace_of course.old }
        ensures on { OnOk result (IsOnCourse cycle (cycle + 1) course.new self.new) }
        ensures ran { OnOk result (HasCompletedAll cycle (base_of course.new) self.new) }
        ensures each { OnOk result (self.new.profile.each ≡ self.old.profile.each) }

        // the audience
        ensures publisher { is_some audience.new.publisher ≡ is_some audience.old.publisher }
        ensures viewers { vec_len audience.new.viewers ≡ vec_len audience.old.viewers }
        ensures shown { OnOk result (HasShownEnd B.buckets cycle (base_of course.new) self.new audience.new.publisher) }
    {
        let viewers = audience.viewers.as_mut_slice();
        self.run_cycle(rt, alloc, course, cycle, background, gate, viewers)?;
        self.show(rt, alloc, course.base(), cycle, &mut audience.publisher)
    }

    // Publishes the profile behind the full sweep of a cycle, if there is a publisher. Before the first mark end there is none.
    fn show<B: Board, R: Wait>(
        &mut self,
        rt: &R,
        alloc: Global,
        _trace: &Trace,
        cycle: u32,
        publisher: &mut Option<Publisher<B>>,
    ) -> Result<(), NoMemory>
        // the trace and the cycle
        requires limits { IsLimited _trace.now }
        requires inside { cycle ≤ last_cycle _trace.now }

        // the run, and what was shown before
        requires ran { HasCompleted _trace.now cycle self.old }
        requires before { HasShown B.buckets _trace.now (suc cycle) (cycle - 1) self.old publisher.old }

        // what stays
        ensures same { self.new ≡ self.old }
        ensures publisher { is_some publisher.new ≡ is_some publisher.old }

        // what is shown
        ensures shown { OnOk result ((t : ATrace) → HasCompleted t cycle self.old → HasShown B.buckets t (suc cycle) (cycle - 1) self.old publisher.old
            → HasShown B.buckets t (suc cycle) cycle self.old publisher.new) }
    {
        let Some(publisher) = publisher else {
            return Ok(());
        };
        if cycle == 0 {
            return Ok(());
        }
        let counts = self.profile.counts(alloc, &mut self.driver.tally)?;
        publisher.publish(rt, &counts)
    }

    // Runs a cycle to its end.
    fn run_cycle<B: Board + Send + Sync, R: Threads + Wait + Sync, G: Gate>(
        &mut self,
        rt: &R,
        alloc: Global,
        course: &mut Course,
        cycle: u32,
        background: u32,
        gate: &G,
        viewers: &mut [Viewer<B>],
    ) -> Result<(), NoMemory>
        // the helpers
        requires background { background ≤ 4 }

        // the run as the cycle begins
        requires on { IsOnCourse cycle cycle course.old self.old }
        requires begun { HasBegunAll cycle (base_of course.old) self.old }

        // the course goes on
        ensures trace { trace_of course.new ≡ trace_of course.old }
        ensures on { OnOk result (IsOnCourse cycle (cycle + 1) course.new self.new) }
        ensures alike { OnOk result (AreAlike cycle (base_of course.old) (base_of course.new)) }

        // the run as the cycle ends
        ensures ran { OnOk result (HasCompletedAll cycle (base_of course.new) self.new) }
        ensures each { OnOk result (self.new.profile.each ≡ self.old.profile.each) }
        ensures follows { OnOk result (GoesOn self.old self.new) }
    {
        match course {
            Course::Plain(trace) => {
                self.run_plain(rt, alloc, trace, cycle, background, gate, viewers)
            }
            Course::Tiny(rides) => {
                self.run_tiny(rt, alloc, rides, cycle, background, gate, viewers)
            }
        }
    }

    // Runs a cycle of a trace without tiny objects.
    fn run_plain<B: Board + Send + Sync, R: Threads + Wait + Sync, G: Gate>(
        &mut self,
        rt: &R,
        alloc: Global,
        trace: &Trace,
        cycle: u32,
        background: u32,
        gate: &G,
        viewers: &mut [Viewer<B>],
    ) -> Result<(), NoMemory>
        requires background { background ≤ 4 }
        requires on { IsPlain cycle trace.now self.old }
        requires begun { HasBegunAll cycle trace.now self.old }
        ensures ran { OnOk result (HasCompletedAll cycle trace.now self.new) }
        ensures each { OnOk result (self.new.profile.each ≡ self.old.profile.each) }
        ensures follows { OnOk result (GoesOn self.old self.new) }
    {
        let events = trace.cycles.as_slice()[cycle as usize].events.as_slice();
        let before = self.buckets.len();
        let mut buckets = replace(&mut self.buckets, List::new(alloc));
        number_all(alloc, events, &self.profile.known, &mut buckets)?;
        let asked = Asked {
            events,
            numbers: &buckets.as_slice()[before..],
            riding: false,
        };
        let mut answers = replace(&mut self.answers, List::new(alloc));
        self.allocate(
            rt,
            alloc,
            trace,
            cycle,
            &asked,
            background,
            gate,
            viewers,
            &mut answers,
        )?;
        self.answers = answers;
        self.buckets = buckets;
        Ok(())
    }

    // Runs a cycle in which tiny objects ride. Each tiny object has the bucket that it would have as a lead; those that ride have none.
    fn run_tiny<B: Board + Send + Sync, R: Threads + Wait + Sync, G: Gate>(
        &mut self,
        rt: &R,
        alloc: Global,
        rides: &mut Rides,
        cycle: u32,
        background: u32,
        gate: &G,
        viewers: &mut [Viewer<B>],
    ) -> Result<(), NoMemory>
        // the helpers
        requires background { background ≤ 4 }

        // the run as the cycle begins
        requires on { HasRidden cycle cycle rides.old self.old }
        requires begun { HasBegunAll cycle rides.old.growing.trace self.old }

        // the rides go on
        ensures trace { rides.new.trace ≡ rides.old.trace }
        ensures on { OnOk result (HasRidden cycle (cycle + 1) rides.new self.new) }
        ensures alike { OnOk result (AreAlike cycle rides.old.growing.trace rides.new.growing.trace) }

        // the run as the cycle ends
        ensures ran { OnOk result (HasCompletedAll cycle rides.new.growing.trace self.new) }
        ensures each { OnOk result (self.new.profile.each ≡ self.old.profile.each) }
        ensures follows { OnOk result (GoesOn self.old self.new) }
    {
        let Rides {
            trace,
            growing,
            printed,
        } = rides;
        let leads = growing.trace.cycles.as_slice()[cycle as usize]
            .events
            .as_slice();
        let mut numbers = List::new(alloc);
        number_all(alloc, leads, &self.profile.known, &mut numbers)?;
        let asked = Asked {
            events: trace.cycles.as_slice()[cycle as usize].events.as_slice(),
            numbers: numbers.as_slice(),
            riding: true,
        };
        self.allocate(
            rt,
            alloc,
            &growing.trace,
            cycle,
            &asked,
            background,
            gate,
            viewers,
            printed,
        )?;
        growing.answer_cycle(alloc, trace, printed.as_slice(), &mut self.answers)?;
        let events = growing.trace.cycles.as_slice()[cycle as usize]
            .events
            .as_slice();
        number_all(alloc, events, &self.profile.known, &mut self.buckets)
    }

    /// The workers of a cycle answer its events, behind the answers that are given, and the cycle ends.
    pub(crate) fn allocate<B: Board + Send + Sync, R: Threads + Wait + Sync, G: Gate>(
        &mut self,
        rt: &R,
        alloc: Global,
        trace: &Trace,
        cycle: u32,
        asked: &Asked,
        background: u32,
        gate: &G,
        viewers: &mut [Viewer<B>],
        given: &mut List<Answer>,
    ) -> Result<(), NoMemory>
        requires background { background ≤ 4 }
        requires inside { cycle < length trace.now.cycles }
        requires asked { MayAsk trace.now.header.procs self.old.profile.ring.buckets asked.now.events.now asked.now.numbers.now }
        requires may { MayAllocate trace.now self.old }
        ensures allocated { OnOk result (HasAllocated cycle asked.now.riding asked.now.events.now asked.now.numbers.now given.old given.new self.old self.new) }
    {
        let procs = trace.header.procs;
        let queues = queues_of(alloc, procs, asked.events, asked.numbers, asked.riding)?;
        let pages = self.shared.pages_taken(rt, &mut self.driver.worker);
        let shop = Shop {
            shared: &self.shared,
            marks: &self.marks,
            ring: &self.profile.ring,
            distance: distance_before(trace, cycle),
            pages,
        };
        let answers = lend(alloc, procs, given)?;
        let sampled = lend(alloc, procs, &mut self.sampled)?;
        let mut lists = LentLists { answers, sampled };
        run_workers(
            rt,
            alloc,
            &shop,
            &mut self.driver,
            &mut self.procs,
            queues,
            background,
            is_caching(trace),
            gate,
            &mut lists,
            viewers,
        )?;
        self.profile.end_sweep(&mut self.driver.tally, cycle);
        let LentLists { answers, sampled } = lists;
        take_back(alloc, asked.events, answers, given)?;
        take_back(alloc, asked.events, sampled, &mut self.sampled)?;
        file_notes(alloc, &mut self.driver.notes, &mut self.sweeps)?;
        Ok(())
    }

    // The mark end behind a cycle comes, and the next cycle begins. Where each mark end is told, the profile of the one before is read.
    fn mark_end(&mut self, alloc: Global, trace: &Trace, cycle: u32) -> Result<(), NoMemory>
        // the trace and the cycle
        requires limits { IsLimited trace.now }
        requires before { cycle < last_cycle trace.now }

        // the run as the cycle ended
        requires ran { HasCompleted trace.now cycle self.old }

        // the next cycle
        ensures begun { OnOk result ((t : ATrace) → IsLimited t → cycle + 1 < length t.cycles → AreAlike (cycle + 1) trace.now t
            → HasCompleted t cycle self.old → HasBegun t (cycle + 1) self.new) }

        // what stays
        ensures each { OnOk result (self.new.profile.each ≡ self.old.profile.each) }
        ensures kept { OnOk result ((self.new.answers ≡ self.old.answers) × (self.new.sampled ≡ self.old.sampled)) }
        ensures known { OnOk result (self.new.profile.known ≡ self.old.profile.known) }
    {
        marks_of(
            alloc,
            trace,
            cycle + 1,
            &self.answers,
            &self.sampled,
            &self.buckets,
            &mut self.places,
            &mut self.clear,
            &mut self.marks,
        )?;
        reset(&self.shared, &mut self.driver.worker);
        self.shared
            .next_generation(&mut self.driver.worker, &self.marks);
        self.profile.next_cycle(&mut self.driver.tally, cycle)?;
        Ok(())
    }

    /// The report, where all is answered.
    pub(crate) fn into_ran(self, alloc: Global, course: Course) -> Result<Ran, NoMemory>
        requires on { IsOnCourse (last_cycle (trace_of course)) (last_cycle (trace_of course) + 1) course self }
        requires ran { HasCompletedAll (last_cycle (trace_of course)) (base_of course) self }
        ensures sound { IfOk result (λ ran. IsSoundByVersion (trace_of course.entry) ran.report) }
        ensures form { IfOk result (λ ran. HasFormByVersion (trace_of course.entry) ran.report self.profile.each) }
        ensures left { IfOk result (λ ran. IsLeftByVersion (trace_of course.entry) ran) }
        ensures answers { IfOk result (λ ran. ran.report.answers ≡ printed_of course.entry self) }
    {
        let Run {
            shared,
            driver,
            answers,
            sweeps,
            mut profile,
            ..
        } = self;
        let Hand {
            worker,
            mut tally,
            ..
        } = driver;
        let mut driver = worker;
        let (journal, totals) = read_rest(
            alloc,
            course.base(),
            &answers,
            &shared,
            &mut driver,
            &mut tally,
            &mut profile,
        )?;
        let report = Report {
            journal,
            totals,
            sweeps,
            answers: course.printed(answers),
            profile: profile.lines,
        };
        Ok(Ran {
            report,
            shared,
            driver,
        })
    }
}

// Whether processors have page caches.
fn is_caching(trace: &Trace) -> bool
    ensures procs { caching_procs trace.now ≡ (if result then trace.now.header.procs else 0) }
{
    trace.header.version >= CACHING_VERSION
}

// The processors, with empty caches.
fn processors(alloc: Global, header: &Header) -> Result<Vec<Proc>, NoMemory>
    requires rate { header.now.rate ≤ 2 ^ 30 }
    ensures length { IfOk result (λ procs. vec_len procs ≡ header.now.procs) }
    ensures empty { IfOk result (λ procs. (i : ℕ) → i < header.now.procs → slice_index_or procs.items i no_cache ≡ record { number = i; flushed = 0; slots = copies 136 None; countdown = countdown header.now.rate header.now.seed i [] }) }
{
    let mut procs = Vec::new(alloc);
    for number in 0..header.procs {
        procs.push(Proc::new(alloc, number, header)?)?;
    }
    Ok(procs)
}

// How many objects a trace has: the lists of all objects get so much room at once, and need not move as they grow.
fn objects_of(trace: &Trace) -> usize
    requires { length (events_of trace.now) ≤ 1000000 }
    ensures { result ≡ length (events_of trace.now) }
{
    let mut objects = 0;
    for cycle in 0..trace.cycles.len() {
        objects += trace.cycles.as_slice()[cycle].events.len();
    }
    objects
}

// By how many bytes sweeping is paced in a cycle: by the distance of the mark end before it.
fn distance_before(trace: &Trace, cycle: u32) -> Distance
    requires { cycle < length trace.now.cycles }
    ensures pace { result ≡ pace trace.now cycle }
{
    if cycle == 0 {
        return Distance::of(LEAST);
    }
    match &trace.cycles.as_slice()[cycle as usize - 1].mark {
        Some(end) => Distance::of(end.distance.saturating_sub(MARKING)),
        None => Distance::of(LEAST),
    }
}
