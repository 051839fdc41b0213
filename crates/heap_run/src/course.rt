//! The course of a run: the trace that it runs, with the base of it so far where its tiny objects ride.

ghost use Rattle.std.specs.Prelude.{◌≡◌, ◌+◌, ◌<◌, ◌≤◌, length, IfOk, OnOk};
ghost use Rattle.cycle_history.specs.Before.{IsLimited};

use cycle_history::{Answer, TINY_VERSION};
use edge_io::{List, NoMemory};
use std::alloc::Global;
use tiny_alloc::Growing;
use trace_reader::Trace;

/// What a run has of a trace whose tiny objects ride.
#[derive(Drop)]
pub(crate) struct Rides<'a> {
    /// The trace.
    pub(crate) trace: &'a Trace,
    /// Its base so far.
    pub(crate) growing: Growing,
    /// The answers that are printed, in which a rider has its address; those of the base are the run's own.
    pub(crate) printed: List<Answer>,
}

/// A trace as it is run.
#[derive(Drop)]
pub(crate) enum Course<'a> {
    /// One of a version without tiny objects.
    Plain(&'a Trace),
    /// One whose tiny objects ride.
    Tiny(Rides<'a>),
}

impl<'a> Course<'a> {
    ghost use Rattle.heap_run.specs.Courses.{HasGoneOn, IsFresh, MayGoOn, base_of, printed_by, trace_of};

    /// The course of a trace as its run begins.
    pub(crate) fn new(alloc: Global, trace: &'a Trace) -> Result<Course<'a>, NoMemory>
        requires limits { IsLimited trace.now }
        ensures fresh { IfOk result (IsFresh trace.now) }
    {
        if trace.header.version < TINY_VERSION {
            return Ok(Course::Plain(trace));
        }
        Ok(Course::Tiny(Rides {
            trace,
            growing: Growing::new(alloc, trace)?,
            printed: List::new(alloc),
        }))
    }

    /// The number of its last cycle.
    pub(crate) fn last(&self) -> u32
        requires few { length (trace_of self.now).cycles ≤ 10001 }
        requires some { 1 ≤ length (trace_of self.now).cycles }
        ensures { result + 1 ≡ length (trace_of self.now).cycles }
    {
        let trace = match self {
            Course::Plain(trace) => *trace,
            Course::Tiny(rides) => rides.trace,
        };
        trace.cycles.len() as u32 - 1
    }

    /// The trace that the heap is asked for: the trace itself, or its base so far.
    pub(crate) fn base(&self) -> &Trace
        ensures { result.now ≡ base_of self.now }
    {
        match self {
            Course::Plain(trace) => trace,
            Course::Tiny(rides) => &rides.growing.trace,
        }
    }

    /// The answers that are printed where these are those of the base.
    pub(crate) fn printed(self, answers: List<Answer>) -> List<Answer>
        ensures { result ≡ printed_by self.entry answers }
    {
        match self {
            Course::Plain(_) => answers,
            Course::Tiny(rides) => rides.printed,
        }
    }

    /// Behind the answers of a cycle its mark end comes, and the next one is under way.
    pub(crate) fn next_cycle(&mut self, alloc: Global, _cycle: u32) -> Result<(), NoMemory>
        requires may { MayGoOn _cycle self.old }
        ensures trace { trace_of self.new ≡ trace_of self.old }
        ensures gone { OnOk result (HasGoneOn _cycle self.old self.new) }
    {
        match self {
            Course::Plain(_) => Ok(()),
            Course::Tiny(rides) => rides.growing.next_cycle(alloc, rides.trace),
        }
    }
}
