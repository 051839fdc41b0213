//! Watchers that keep what they saw.

ghost use Rattle.std.specs.Prelude.{◌≡◌, ◌<◌, ◌^◌, ◌⊎◌, ◌++◌, ◌∷◌, [], true, false, length, IfOk, IsTrue, IsFalse};
ghost use Rattle.std.specs.List.{sum_by};
ghost use mathlib.Core.List.{IsPrefix};
ghost use Rattle.profile_readers.specs.Sights.{AreSights, HasReached, IsNewer, IsNewest, RiseTo, allocs_of, frees_of};

use crate::history::Board;
use crate::publisher::Told;
use crate::watcher::Watcher;
use edge_io::{List, NoMemory};
use profile_cycle::Count;
use std::alloc::Global;
use std::marker::Model;

/// What a watcher saw at one time.
#[derive(Clone, Copy, Debug, PartialEq, Eq)]
pub struct Sight {
    /// How many publishes led to the profile.
    pub k: u32,
    /// The allocations of all its buckets, modulo 2^64.
    pub allocs: u64,
    /// Their frees, modulo 2^64.
    pub frees: u64,
}

/// A watcher that keeps a sight each time that it sees a newer profile, its first included. Contracts see it as the publishes that it
/// knows of, the sights that it kept, and whether one of them found no memory.
#[derive(Drop)]
pub struct Viewer<B: Board> {
    watcher: Watcher<B>,
    // What it saw last, with a count for each bucket.
    counts: List<Count>,
    kept: Kept,
}

// The sights that were kept.
#[derive(Drop)]
struct Kept {
    sights: List<Sight>,
    // The number of the last of them.
    newest: Option<u32>,
    // Whether a sight found no memory.
    refused: bool,
}

impl<B: Board> Model for Viewer<B> {
    ghost use Rattle.std.specs.Prelude.{◌≡◌, length};
    ghost use Rattle.profile_readers.specs.Sights.{AreSights, IsNewest, Viewing};

    ghost Value = { Viewing };

    ghost view = { λ v. record { publishes = v.watcher; sights = v.kept.sights; refused = v.kept.refused } };

    ghost invariant = { λ v. (length v.counts ≡ B.buckets) × AreSights B.buckets v.watcher v.kept.sights × IsNewest v.kept.newest v.kept.sights };
}

impl<B: Board> Viewer<B> {
    /// A watcher that has kept nothing yet, with room for so many sights. The board has so many buckets.
    pub fn new(
        alloc: Global,
        watcher: Watcher<B>,
        buckets: u32,
        sights: usize,
    ) -> Result<Viewer<B>, NoMemory>
        requires buckets { buckets ≡ B.buckets }
        ensures { IfOk result (λ v. v ≡ record { publishes = watcher; sights = []; refused = false }) }
    {
        let none = Count {
            allocs: 0,
            frees: 0,
        };
        let counts = Vec::from_elem(alloc, none, buckets as usize)?;
        Ok(Viewer {
            watcher,
            counts: List::from_vec(counts),
            kept: Kept {
                sights: List::with_room(alloc, sights)?,
                newest: None,
                refused: false,
            },
        })
    }

    /// Sees so many times. Of the newest profile that it saw it has a sight then, or it found no memory for one. It waits for nobody,
    /// and where it was made with room for all sights takes no memory.
    pub fn watch(&mut self, times: u32)
        ensures seen { IsPrefix self.old.publishes self.new.publishes }
        ensures kept { IsPrefix self.old.sights self.new.sights }
        ensures newest { 0 < times → (self.new.refused ≡ true) ⊎ RiseTo (length self.new.publishes) self.new.sights }
        ensures refused { self.old.refused ≡ true → self.new.refused ≡ true }
    {
        for _looks in 0..times {
            self.look();
        }
    }

    // Sees once, and keeps the sight if it is the first, or newer than the last.
    fn look(&mut self)
        ensures seen { IsPrefix self.old.publishes self.new.publishes }
        ensures kept { IsPrefix self.old.sights self.new.sights }
        ensures newest { (self.new.refused ≡ true) ⊎ RiseTo (length self.new.publishes) self.new.sights }
        ensures refused { self.old.refused ≡ true → self.new.refused ≡ true }
    {
        let k = self.watcher.see(&mut self.counts);
        let sums = sums_of(self.counts.as_slice());
        self.kept.keep(Sight {
            k,
            allocs: sums.allocs,
            frees: sums.frees,
        });
    }

    /// Learns what the board's publisher told at its end, sees once more, and hands out the sights. Their numbers strictly rise and end
    /// with the number of publishes, and each has the sums of the profile after so many of them. Those that it kept before come first.
    /// Without memory, also of an earlier sight, there is none.
    pub fn finish(mut self, told: Told<B>) -> Result<List<Sight>, NoMemory>
        ensures rise { IfOk result (λ sights. RiseTo (length told) sights) }
        ensures right { IfOk result (λ sights. AreSights B.buckets told sights) }
        ensures kept { IfOk result (λ sights. IsPrefix self.sights sights) }
        ensures refused { IfOk result (λ sights. self.refused ≡ false) }
    {
        let number = told.number();
        self.learn(told);
        self.into_sights(number)
    }

    // The sights, if the last has this number.
    fn into_sights(self, number: u32) -> Result<List<Sight>, NoMemory>
        ensures rise { IfOk result (λ sights. RiseTo number sights) }
        ensures right { IfOk result (λ sights. AreSights B.buckets self.publishes sights) }
        ensures same { IfOk result (λ sights. sights ≡ self.sights) }
        ensures refused { IfOk result (λ sights. self.refused ≡ false) }
    {
        let Viewer {
            watcher: _,
            counts: _,
            kept,
        } = self;
        kept.up_to(number)
    }

    // Takes in what was told, and sees once more.
    fn learn(&mut self, told: Told<B>)
        ensures learnt { IsPrefix told self.new.publishes }
        ensures kept { IsPrefix self.old.sights self.new.sights }
        ensures refused { self.old.refused ≡ true → self.new.refused ≡ true }
    {
        self.watcher.learn(told);
        self.look();
    }
}

impl Kept {
    // Keeps a sight if it is the first, or newer than the last.
    fn keep(&mut self, sight: Sight)
        requires newest { IsNewest self.old.newest self.old.sights }
        ensures newest { IsNewest self.new.newest self.new.sights }
        ensures kept { (self.new.sights ≡ self.old.sights) ⊎ (self.new.sights ≡ self.old.sights ++ sight ∷ []) }
        ensures reached { (self.new.refused ≡ true) ⊎ HasReached sight.k self.new.newest }
        ensures refused { self.old.refused ≡ true → self.new.refused ≡ true }
    {
        if !self.is_before(sight.k) {
            return;
        }
        match self.sights.push(sight) {
            Ok(()) => self.newest = Some(sight.k),
            Err(NoMemory) => self.refused = true,
        }
    }

    // Whether a sight of this number is the first, or newer than the last.
    fn is_before(&self, k: u32) -> bool
        ensures before { IsTrue result → IsNewer self.now.newest k }
        ensures reached { IsFalse result → HasReached k self.now.newest }
    {
        match self.newest {
            Some(newest) => newest < k,
            None => true,
        }
    }

    // The sights, if the last has this number, and none found no memory.
    fn up_to(self, number: u32) -> Result<List<Sight>, NoMemory>
        requires newest { IsNewest self.newest self.sights }
        ensures rise { IfOk result (λ sights. RiseTo number sights) }
        ensures same { IfOk result (λ sights. sights ≡ self.sights) }
        ensures refused { IfOk result (λ sights. self.refused ≡ false) }
    {
        let Kept {
            sights,
            newest,
            refused,
        } = self;
        match newest {
            Some(newest) if newest == number && !refused => Ok(sights),
            _ => Err(NoMemory),
        }
    }
}

// The allocations and the frees of all buckets, both modulo 2^64.
fn sums_of(counts: &[Count]) -> Count
    ensures allocs { sum_by allocs_of counts.now < 2 ^ 64 → result.allocs ≡ sum_by allocs_of counts.now }
    ensures frees { sum_by frees_of counts.now < 2 ^ 64 → result.frees ≡ sum_by frees_of counts.now }
{
    let mut allocs: u64 = 0;
    let mut frees: u64 = 0;
    for count in counts {
        allocs = allocs.wrapping_add(count.allocs);
        frees = frees.wrapping_add(count.frees);
    }
    Count { allocs, frees }
}
