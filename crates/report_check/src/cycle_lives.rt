//! The lives that are open, cycle by cycle.

ghost use Rattle.std.specs.Prelude.{◌≤◌, ℕ, IfOk};
ghost use Rattle.page_alloc.specs.Journal.{at_end};
ghost use Rattle.cycle_history.specs.declared.Report.{Report as AReport};
ghost use Rattle.cycle_history.specs.Requests.{region_of};
ghost use Rattle.cycle_history.specs.Sound.{HasJournal, past_in};
ghost use Rattle.report_check.specs.Lives.{AreLives};

use crate::lives::{OpenLife, no_lives};
use crate::places::take_up_to;
use crate::view::ReportView;
use edge_io::NoMemory;
use size_classes::{CHUNK_PAGES, MAX_CHUNKS};
use std::alloc::Global;
use trace_reader::Trace;

/// The lives that are open, by their first pages, once so many lines of the journal are taken up.
#[derive(Drop)]
pub struct Opened {
    /// The lives, by their first pages.
    pub lives: Vec<Option<OpenLife>>,
    /// How many lines are taken up.
    pub read: usize,
}

impl Opened {
    ghost use Rattle.report_check.specs.Ledgers.{IsOpenTo};

    /// No line is taken up.
    pub fn new(alloc: Global, trace: &Trace) -> Result<Opened, NoMemory>
        requires { trace.now.header.chunks ≤ MAX_CHUNKS }
        ensures { IfOk result (λ opened. (report : AReport) (c : ℕ) → IsOpenTo trace.now report c opened) }
    {
        let lives = no_lives(alloc, CHUNK_PAGES as usize * trace.header.chunks as usize)?;
        Ok(Opened { lives, read: 0 })
    }

    /// Takes up the lines up to the end of a cycle.
    pub fn take_up(&mut self, trace: &Trace, report: &ReportView, cycle: u32)
        requires journal { HasJournal trace.now report.now }
        requires open { IsOpenTo trace.now report.now cycle self.old }
        ensures open { IsOpenTo trace.now report.now cycle self.new }
        ensures lives { AreLives (region_of trace.now) (at_end cycle (past_in report.now)) self.new.lives.items }
    {
        self.read = take_up_to(&mut self.lives, trace, report, self.read, cycle);
    }
}
