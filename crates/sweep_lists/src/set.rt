//! A queue of spans. Any worker pushes and pops: the tail rises as an index is given away, the head as an entry is taken, and a
//! cell is written once, by the worker that has its index. A mark end empties the sets that are to be filled next.

ghost use Rattle.std.specs.Prelude.{◌≡◌, ◌≤◌, ◌<◌, ◌+◌, ℕ, map, OnOk, OnErr, slice_set, slice_index_or};
ghost use Rattle.std.specs.List.{All};
ghost use Rattle.sweep_laws.specs.Reading.{no_set};
ghost use Rattle.sweep_laws.specs.ChangesOfSets.{name_page as page_named, raise_head as head_raised, raise_tail as tail_raised};
ghost use Rattle.sweep_lists.specs.Bare.{bare_set};
ghost use Rattle.sweep_lists.specs.Views.{set_view};
ghost use Rattle.sweep_lists.specs.Loops.{emptied_unless};

use crate::entries::Entries;
use fallible_list::NoMemory;
use std::alloc::Global;
use sweep_laws::Claimed;

/// A queue of spans of one span class, by first pages.
#[derive(Debug, Drop)]
pub struct CoreSet {
    /// The index of the first cell that is not popped.
    pub head: u32,
    /// The index of the first cell that nobody claimed.
    pub tail: u32,
    /// The cells from index 0 on: a first page plus 1, or 0. An index beyond the list is 0.
    pub cells: Entries<u64>,
}

impl CoreSet {
    /// A set without entries.
    pub fn new(alloc: Global) -> Self
        ensures { result ≡ bare_set }
    {
        CoreSet {
            head: 0,
            tail: 0,
            cells: Entries::new(alloc),
        }
    }

    /// The head rises by 1.
    pub fn raise_head(&mut self)
        requires { self.old.head < self.old.tail }
        ensures view { set_view self.new ≡ head_raised (set_view self.old) }
        ensures room { self.new.cells ≡ self.old.cells }
    {
        self.head += 1;
    }

    /// The tail rises by 1. Answers the index that it was.
    pub fn raise_tail(&mut self) -> u32
        requires { self.old.tail < 4294967295 }
        ensures index { result ≡ self.old.tail }
        ensures view { set_view self.new ≡ tail_raised (set_view self.old) }
        ensures room { self.new.cells ≡ self.old.cells }
    {
        let index = self.tail;
        self.tail = index + 1;
        index
    }

    /// All entries are gone, unless the set stays.
    pub fn empty_unless(&mut self, stays: bool)
        ensures { self.new ≡ emptied_unless stays self.old }
    {
        if !stays {
            self.head = 0;
            self.tail = 0;
            self.cells.clear();
        }
    }
}

/// The cell of a claim names its page. It fails only where the set has no room for that cell.
pub fn name_page(sets: &mut [CoreSet], claim: Claimed) -> Result<(), NoMemory>
    ensures ok { OnOk result (map set_view sets.new ≡ slice_set (map set_view sets.old) claim.set (page_named claim.index claim.page (slice_index_or (map set_view sets.old) claim.set no_set))) }
    ensures err { OnErr result (sets.new ≡ sets.old) }
    ensures full { OnErr result ((n : ℕ) → All (λ set. n ≤ set.cells.space) sets.old → n ≤ claim.index) }
    ensures room { (n : ℕ) → All (λ set. n ≤ set.cells.space) sets.old → All (λ set. n ≤ set.cells.space) sets.new }
{
    let number = claim.set as usize;
    if number < sets.len() {
        let cells = &mut sets[number].cells;
        cells.put_cell(claim.index as usize, u64::from(claim.page) + 1)
    } else {
        Ok(())
    }
}
