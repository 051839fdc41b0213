//! What is counted of the lives from mark end to mark end.

ghost use Rattle.std.specs.Prelude.{◌≡◌, ℕ, ◌+◌, ◌-◌, ◌^◌, ◌<◌, ◌≤◌, ◌&&◌, not, nat_le, Bool, length, IfOk, OnOk};
ghost use Rattle.page_alloc.specs.Lists.{count, one_if};
ghost use Rattle.cycle_history.specs.Before.{objects_before};
ghost use Rattle.cycle_history.specs.Requests.{last_cycle};
ghost use Rattle.report_check.specs.Items.{objects_of};
ghost use Rattle.report_check.specs.Known.{AreKnownItems};
ghost use Rattle.report_check.specs.declared.ledger.Alive.{Alive as AnAlive};
ghost use Rattle.report_check.specs.Tallies.{AreBefore, AreTallied, freed_in, kept_in};
ghost use Rattle.report_check.specs.Ledgers.{AddsItems};

use crate::cycle_lives::Opened;
use crate::objects::Objects;
use cycle_history::Answer;
use edge_io::NoMemory;
use std::alloc::Global;

/// A placed object, as far as it is counted.
#[derive(Clone, Copy, Debug)]
pub(crate) struct Alive {
    pub life: u64,
    pub last: u32,
}

/// How many objects of a life the mark end of the cycle marks, and how many of those that lived before it doesn't.
#[derive(Clone, Copy, Debug)]
pub(crate) struct Tally {
    pub cycle: u32,
    pub kept: u64,
    pub freed: u64,
}

/// The lives and their objects around the mark end of a cycle.
#[derive(Drop)]
pub(crate) struct Ledger {
    // the lives that are open as the cycle before it ends, and as it ends
    pub before: Opened,
    pub after: Opened,
    // how many objects have come, and those of them that live in the cycle
    pub seen: usize,
    pub alive: Vec<Alive>,
    // by the number of the life
    pub tallies: Vec<Tally>,
    // the newest cycle in which an object was placed in a life, by its number
    pub used: Vec<u32>,
}

impl Ledger {
    ghost use Rattle.report_check.specs.Ledgers.{IsLedger, TellsMarkEnd};

    /// Cycle 0 has passed.
    pub(crate) fn new(alloc: Global, objects: &Objects<'_>) -> Result<Ledger, NoMemory>
        requires known { AreKnownItems objects.now.trace.now objects.now.report.now objects.now.items.now objects.now.lasts.now }
        ensures { IfOk result (λ ledger. IsLedger objects.now.trace.now objects.now.report.now objects.now.items.now objects.now.lasts.now 0 (objects_before objects.now.trace.now 1) ledger) }
    {
        let lives = objects.report.journal().len();
        let mut alive = Vec::new(alloc);
        let mut used = vec![in alloc; 0; lives]?;
        let seen = objects.trace.cycles.as_slice()[0].events.len();
        add_all(objects, 0, seen, &mut alive, &mut used)?;
        Ok(Ledger {
            before: Opened::new(alloc, objects.trace)?,
            after: Opened::new(alloc, objects.trace)?,
            seen,
            alive,
            tallies: no_tallies(alloc, lives)?,
            used,
        })
    }

    /// The mark end of the cycle and its objects come.
    pub(crate) fn go_on(
        &mut self,
        alloc: Global,
        objects: &Objects<'_>,
        cycle: u32,
    ) -> Result<(), NoMemory>
        requires known { AreKnownItems objects.now.trace.now objects.now.report.now objects.now.items.now objects.now.lasts.now }
        requires some { 1 ≤ cycle }
        requires inside { cycle ≤ last_cycle objects.now.trace.now }
        requires ledger { IsLedger objects.now.trace.now objects.now.report.now objects.now.items.now objects.now.lasts.now (cycle - 1) (objects_before objects.now.trace.now cycle) self.old }
        ensures ledger { OnOk result (IsLedger objects.now.trace.now objects.now.report.now objects.now.items.now objects.now.lasts.now cycle (objects_before objects.now.trace.now (cycle + 1)) self.new) }
        ensures tells { OnOk result (TellsMarkEnd objects.now.trace.now objects.now.report.now (objects_of objects.now.items.now) cycle self.new) }
    {
        self.before
            .take_up(objects.trace, objects.report, cycle - 1);
        self.after.take_up(objects.trace, objects.report, cycle);
        tally_all(&self.alive, &mut self.tallies, cycle);
        self.alive = survivors(alloc, &self.alive, cycle)?;
        let events = objects.trace.cycles.as_slice()[cycle as usize]
            .events
            .as_slice();
        let last = self.seen + events.len();
        add_all(objects, self.seen, last, &mut self.alive, &mut self.used)?;
        self.seen = last;
        Ok(())
    }
}

// Nothing is counted of so many lives.
fn no_tallies(alloc: Global, lives: usize) -> Result<Vec<Tally>, NoMemory>
    ensures length { IfOk result (λ tallies. length tallies.items ≡ lives) }
    ensures before { IfOk result (λ tallies. (cycle : ℕ) → 1 ≤ cycle → AreBefore cycle tallies.items) }
{
    let none = Tally {
        cycle: 0,
        kept: 0,
        freed: 0,
    };
    Ok(vec![in alloc; none; lives]?)
}

// Counts the objects of the list for the mark end of the cycle.
fn tally_all(alive: &[Alive], tallies: &mut [Tally], cycle: u32)
    requires before { AreBefore cycle tallies.old }
    requires room { length alive.now < 2 ^ 63 }
    ensures { AreTallied cycle alive.now tallies.new }
{
    for object in alive {
        if object.life < tallies.len() as u64 {
            add(
                &mut tallies[object.life as usize],
                cycle,
                cycle <= object.last,
            );
        }
    }
}

// Counts one object more for the mark end of the cycle.
fn add(tally: &mut Tally, cycle: u32, is_kept: bool)
    requires kept { kept_in tally.old cycle < 2 ^ 63 }
    requires freed { freed_in tally.old cycle < 2 ^ 63 }
    ensures cycle { tally.new.cycle ≡ cycle }
    ensures kept { tally.new.kept ≡ one_if is_kept + kept_in tally.old cycle }
    ensures freed { tally.new.freed ≡ one_if (not is_kept) + freed_in tally.old cycle }
{
    if tally.cycle != cycle {
        *tally = Tally {
            cycle,
            kept: 0,
            freed: 0,
        };
    }
    if is_kept {
        tally.kept += 1;
    } else {
        tally.freed += 1;
    }
}

// The objects of the list that the mark end of the cycle marks.
fn survivors(alloc: Global, alive: &[Alive], cycle: u32) -> Result<Vec<Alive>, NoMemory>
    ensures { IfOk result (λ kept. (test : AnAlive → Bool) → count test kept.items ≡ count (λ a. nat_le cycle a.last && test a) alive.now) }
{
    let mut kept = Vec::new(alloc);
    for object in alive {
        if cycle <= object.last {
            kept.push(*object)?;
        }
    }
    Ok(kept)
}

// Adds the placed objects from first up to last.
fn add_all(
    objects: &Objects<'_>,
    first: usize,
    last: usize,
    alive: &mut Vec<Alive>,
    used: &mut [u32],
) -> Result<(), NoMemory>
    requires order { first ≤ last }
    requires last { last ≤ length objects.now.items.now }
    requires lasts { length objects.now.lasts.now ≡ length objects.now.items.now }
    ensures { OnOk result (AddsItems objects.now.items.now objects.now.lasts.now first last alive.old.items alive.new.items used.old used.new) }
{
    for number in first..last {
        let item = objects.items[number];
        if let Answer::Placed(_) = item.answer {
            alive.push(Alive {
                life: item.life,
                last: objects.lasts[number],
            })?;
            if item.life < used.len() as u64 {
                used[item.life as usize] = item.cycle;
            }
        }
    }
    Ok(())
}
