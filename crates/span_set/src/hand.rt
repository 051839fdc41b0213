ghost use Rattle.std.specs.Prelude.{◌≡◌, ◌<◌, ◌≤◌, [], length, OnOk, OnErr};

use crate::pace::Distance;
use fallible_list::NoMemory;
use profile_cycle::{Ring, Tally};
use span_state::{Marks, SweepNote};
use span_table::{Shared, Worker};
use std::alloc::Global;
use sweep_lists::Entries;

/// What workers sweep by.
#[derive(Drop)]
pub struct Shop<'a> {
    /// The shared spans.
    pub shared: &'a Shared,
    /// The marks of the last mark end.
    pub marks: &'a Marks,
    /// The ring of the profile, whose tallies count the sampled objects that sweeps free.
    pub ring: &'a Ring,
    /// By how many allocated bytes sweeping is paced.
    pub distance: Distance,
    /// The pages that were to be swept at the last mark end.
    pub pages: u32,
}

/// A worker, the notes of its sweeps with room for more, and its tally of the profile.
#[derive(Drop)]
pub struct Hand {
    /// The worker.
    pub worker: Worker,
    /// Its sweeps of this cycle, the oldest first.
    pub notes: Entries<SweepNote>,
    /// What it counted of the sampled objects.
    pub tally: Tally,
}

impl Hand {
    /// A worker's hand with its tally, without notes, and without room for one.
    pub fn new(alloc: Global, worker: Worker, tally: Tally) -> Hand
        ensures worker { result.worker ≡ worker }
        ensures notes { result.notes ≡ record { items = []; space = 0 } }
        ensures tally { result.tally ≡ tally }
    {
        Hand {
            worker,
            notes: Entries::new(alloc),
            tally,
        }
    }

    /// Makes room for a note, which a sweep takes. It fails only where memory runs out, and then changes nothing.
    pub fn reserve_note(&mut self) -> Result<(), NoMemory>
        ensures room { OnOk result (length self.new.notes.items < self.new.notes.space) }
        ensures notes { self.new.notes.items ≡ self.old.notes.items }
        ensures grows { self.old.notes.space ≤ self.new.notes.space }
        ensures worker { self.new.worker ≡ self.old.worker }
        ensures tally { self.new.tally ≡ self.old.tally }
        ensures err { OnErr result (self.new ≡ self.old) }
    {
        self.notes.reserve_one()
    }
}
