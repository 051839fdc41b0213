//! The journal and the counts of pages, under the heap lock.
ghost use Rattle.std.specs.Prelude.{◌≡◌, true, [], Some, List, IfOk};
ghost use Rattle.page_alloc.specs.Journal.{LegalFor, past_of};
ghost use Rattle.page_alloc.specs.Owners.{taken};
ghost use Rattle.page_bitmap.specs.declared.line.Line.{Line};
ghost use Rattle.span_laws.specs.Asks.{IsAtWork, KnowsJournal};
ghost use Rattle.span_laws.specs.Handed.{knows};
ghost use Rattle.span_laws.specs.MarkEndAsks.{MaySettle};
ghost use Rattle.span_laws.specs.ScavengeAnswers.{StepsOnce};
ghost use Rattle.span_laws.specs.Settles.{SettlesCycle};
ghost use Rattle.span_laws.specs.TakeAnswers.{IsToldOf};
ghost use Rattle.span_laws.specs.Views.{drives};

use crate::locks::{lock, lock_alone, unlock, unlock_settled, unlock_told};
use crate::shared::{Shared, Worker};
use fallible_list::{List, NoMemory};
use page_alloc::Pages;
use page_bitmap::Line;
use span_laws::Step;
use std::alloc::Global;
use std::sync::Wait;

// A copy of the lines.
fn copy_lines(alloc: Global, lines: &[Line]) -> Result<List<Line>, NoMemory>
    ensures { IfOk result (λ copy. copy ≡ lines.now) }
{
    let mut copy = Vec::new(alloc);
    copy.extend_from_slice(lines)?;
    Ok(List::from_vec(copy))
}

impl Shared {
    /// The number of pages that spans and page caches have. Takes no memory, and waits for the heap lock.
    pub fn pages_taken<R: Wait>(&self, rt: &R, w: &mut Worker) -> u32
        requires table { w.old.table ≡ self.now }
        ensures same { w.new ≡ w.old }
        ensures taken { (past : List Line) × LegalFor w.old.view.procs w.old.view.region w.old.view.goal past × IsToldOf w.old past × (result ≡ taken w.old.view.region past) }
    {
        let heap = lock(rt, self, &mut w.seat, w.number);
        let taken = heap.taken();
        unlock(self, &mut w.seat, heap);
        taken
    }

    /// One scavenging step under the heap lock. Its run is None where backed pages were at most the goal, or no free page was
    /// backed; `backed` is the number of backed pages after the step. The driver knows the whole journal then.
    pub fn scavenge_step<R: Wait>(&self, rt: &R, w: &mut Worker) -> Result<Step, NoMemory>
        requires works { IsAtWork self.now w.old }
        ensures { StepsOnce w.old w.new result }
    {
        let cycle = ((w.generation - 4) / 2) as u32;
        let mut heap = lock(rt, self, &mut w.seat, w.number);
        let Ok(()) = heap.reserve_line() else {
            unlock(self, &mut w.seat, heap);
            return Err(NoMemory);
        };
        let run = heap.scavenge(cycle);
        let backed = heap.backed();
        unlock_told(self, &mut w.seat, heap, run);
        Ok(Step { run, backed })
    }

    /// The driver is told the whole journal, while no worker is out. It knows it until something is written or a worker is handed out.
    /// Takes no memory, and waits for nobody.
    pub fn learn_journal(&self, driver: &mut Worker)
        requires works { IsAtWork self.now driver.old }
        requires drives { drives driver.old ≡ true }
        ensures { (past : List Line) × LegalFor driver.old.view.procs driver.old.view.region driver.old.view.goal past × IsToldOf driver.old past × (driver.new ≡ knows past driver.old) }
    {
        let heap = lock_alone(self, &mut driver.seat, driver.number);
        unlock_told(self, &mut driver.seat, heap, None);
    }

    /// Ends the sweeping of a cycle before its mark end: no worker is out, none sweeps or holds a span, each cached span was cached
    /// in this cycle and has an object of it, and the driver saw each unswept set empty. The driver is told the whole journal, and
    /// what is so of the cycle. Takes no memory, and waits for nobody.
    pub fn end_cycle(&self, driver: &mut Worker)
        requires works { IsAtWork self.now driver.old }
        requires may { MaySettle driver.old }
        ensures { SettlesCycle driver.old driver.new }
    {
        let heap = lock_alone(self, &mut driver.seat, driver.number);
        unlock_settled(self, &mut driver.seat, heap);
    }

    /// A copy of the whole journal, which is legal. No worker is out, and nothing was written since the driver was told of it.
    pub fn journal_copy(&self, alloc: Global, driver: &mut Worker) -> Result<List<Line>, NoMemory>
        requires works { IsAtWork self.now driver.old }
        requires drives { drives driver.old ≡ true }
        requires told { KnowsJournal driver.old }
        ensures same { driver.new ≡ driver.old }
        ensures legal { IfOk result (λ lines. LegalFor driver.old.view.procs driver.old.view.region driver.old.view.goal (past_of lines)) }
        ensures journal { IfOk result (λ lines. driver.old.journal ≡ Some (past_of lines)) }
    {
        let heap = lock_alone(self, &mut driver.seat, driver.number);
        let lines = copy_lines(alloc, heap.journal());
        unlock(self, &mut driver.seat, heap);
        lines
    }

    /// The pages with their journal, as all workers left them. No worker is out, and nothing was written since the driver was
    /// told of the journal. Takes no memory, and waits for nobody.
    pub fn close(self, driver: Worker) -> Pages
        requires works { IsAtWork self driver }
        requires drives { drives driver ≡ true }
        requires told { KnowsJournal driver }
        ensures region { result.region ≡ driver.view.region }
        ensures goal { result.goal ≡ driver.view.goal }
        ensures journal { driver.journal ≡ Some result.past }
    {
        let Worker {
            number,
            mut seat,
            ..
        } = driver;
        lock_alone(&self, &mut seat, number)
    }
}
