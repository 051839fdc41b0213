//! The run of a whole trace before watchers, which see its profile while it goes on.

ghost use Rattle.std.specs.Prelude.{◌≡◌, ◌≤◌, [], false, length, vec_len, Some, IfOk};
ghost use Rattle.trace_reader.specs.Limits.{WithinLimits};
ghost use Rattle.cycle_history.specs.Before.{IsLimited};
ghost use Rattle.tiny_alloc.specs.Versions.{HasFormByVersion, IsSoundByVersion};
ghost use Rattle.heap_run.specs.Courses.{HasBegunAll, IsOnCourse, base_of, trace_of};
ghost use Rattle.heap_run.specs.Versions.{IsLeftByVersion, IsWatchedByVersion};

use crate::audience::Audience;
use crate::course::Course;
use crate::run::{Ran, Run};
use edge_io::{Gate, List, NoMemory};
use profile_readers::{Board, Opened, Sight, Watcher, board};
use std::alloc::Global;
use std::marker::Brand;
use std::sync::Wait;
use std::thread::Threads;
use trace_reader::Trace;

// How many background sweepers a watched run has.
const SWEEPERS: u32 = 1;

/// What a watched run leaves.
#[derive(Drop)]
pub struct Watched {
    /// What the run leaves.
    pub ran: Ran,
    /// What each watcher saw.
    pub seen: List<List<Sight>>,
}

/// Runs a trace as [`crate::run_trace`] does, with one background sweeper and for the profile of the last mark end alone, and 1 to 4
/// watchers beside the other workers, each of which looks 100 times in a cycle. Behind the full sweep of each cycle but the first its
/// profile is published, as of the mark end before it. At the end each watcher is told what was published, and looks once more.
pub fn run_watched<R: Threads + Wait + Sync, G: Gate>(
    rt: &R,
    alloc: Global,
    trace: &Trace,
    readers: u32,
    gate: &G,
) -> Result<Watched, NoMemory>
    requires limits { WithinLimits trace.now }
    requires readers { (1 ≤ readers) × (readers ≤ 4) }
    ensures sound { IfOk result (λ w. IsSoundByVersion trace.now w.ran.report) }
    ensures form { IfOk result (λ w. HasFormByVersion trace.now w.ran.report false) }
    ensures left { IfOk result (λ w. IsLeftByVersion trace.now w.ran) }
    ensures seen { IfOk result (λ w. IsWatchedByVersion trace.now readers w.ran.report w.seen) }
{
    let course = Course::new(alloc, trace)?;
    let run = Run::start(alloc, &course, false)?;
    run_before::<Brand, R, G>(rt, alloc, course, run, Opened::new(), readers, gate)
}

// Runs it before the watchers of a board that was just opened.
fn run_before<B: Board + Send + Sync, R: Threads + Wait + Sync, G: Gate>(
    rt: &R,
    alloc: Global,
    course: Course,
    run: Run,
    opened: Opened,
    readers: u32,
    gate: &G,
) -> Result<Watched, NoMemory>
    // the trace
    requires limits { IsLimited (trace_of course) }

    // the readers and their board
    requires readers { (1 ≤ readers) × (readers ≤ 4) }
    requires name { opened ≡ B.book }
    requires buckets { length run.profile.known ≡ B.buckets }

    // the run as it begins
    requires on { IsOnCourse 0 0 course run }
    requires begun { HasBegunAll 0 (base_of course) run }
    requires each { run.profile.each ≡ false }

    // what the run came to
    ensures sound { IfOk result (λ w. IsSoundByVersion (trace_of course.entry) w.ran.report) }
    ensures form { IfOk result (λ w. HasFormByVersion (trace_of course.entry) w.ran.report false) }
    ensures left { IfOk result (λ w. IsLeftByVersion (trace_of course.entry) w.ran) }

    // what the readers saw
    ensures seen { IfOk result (λ w. IsWatchedByVersion (trace_of course.entry) readers w.ran.report w.seen) }
{
    let buckets = run.profile.known.len();
    let (publisher, watchers) = board::<B, R>(alloc, rt, opened, buckets, readers)?;
    let mut audience = Audience::of(alloc, publisher);
    let watched = run_with(rt, alloc, course, run, watchers, gate, &mut audience);
    audience.close(rt);
    watched
}

// Runs it before the watchers of this publisher's board, to whom nothing was shown yet.
fn run_with<B: Board + Send + Sync, R: Threads + Wait + Sync, G: Gate>(
    rt: &R,
    alloc: Global,
    mut course: Course,
    mut run: Run,
    watchers: List<Watcher<B>>,
    gate: &G,
    audience: &mut Audience<B>,
) -> Result<Watched, NoMemory>
    // the trace
    requires limits { IsLimited (trace_of course) }

    // the run as it begins
    requires on { IsOnCourse 0 0 course run }
    requires begun { HasBegunAll 0 (base_of course) run }
    requires each { run.profile.each ≡ false }

    // the audience, to whom nothing was shown yet
    requires buckets { length run.profile.known ≡ B.buckets }
    requires none { vec_len audience.old.viewers ≡ 0 }
    requires unshown { audience.old.publisher ≡ Some [] }

    // what the run came to
    ensures sound { IfOk result (λ w. IsSoundByVersion (trace_of course.entry) w.ran.report) }
    ensures form { IfOk result (λ w. HasFormByVersion (trace_of course.entry) w.ran.report false) }
    ensures left { IfOk result (λ w. IsLeftByVersion (trace_of course.entry) w.ran) }

    // what the watchers saw
    ensures seen { IfOk result (λ w. IsWatchedByVersion (trace_of course.entry) (length watchers) w.ran.report w.seen) }
{
    let buckets = run.profile.known.len();
    let cycles = course.last() as usize + 1;
    audience.seat(alloc, watchers, buckets, cycles)?;
    run.run_cycles(rt, alloc, &mut course, SWEEPERS, gate, audience)?;
    let seen = audience.finish(alloc)?;
    let ran = run.into_ran(alloc, course)?;
    Ok(Watched { ran, seen })
}
