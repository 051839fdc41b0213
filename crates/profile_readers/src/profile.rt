//! A profile with the publishes that led to it, and how the board takes in a new one.

ghost use Rattle.std.specs.Prelude.{◌≡◌, ◌<◌, ◌++◌, ◌∷◌, ◌⊎◌, [], length, IfOk, IfSome};
ghost use mathlib.Core.List.{IsPrefix};
ghost use Rattle.profile_readers.specs.History.{profile_after};

use crate::history::{Board, Front, Head};
use edge_io::NoMemory;
use left_right::Absorb;
use profile_cycle::Count;
use std::alloc::{AllocError, Global};
use std::marker::Model;
use std::sync::{Arc, OnceLock};

/// The profile after some publishes. Contracts see it as the list of these.
#[derive(Drop)]
pub(crate) struct Profile<B: Board> {
    front: Front<B>,
    counts: Vec<Count>,
}

impl<B: Board> Model for Profile<B> {
    ghost use Rattle.std.specs.Prelude.{◌≡◌, List, length};
    ghost use Rattle.profile_cycle.specs.declared.counts.Count.{Count};
    ghost use Rattle.profile_readers.specs.History.{profile_after};

    ghost Value = { List (List Count) };

    ghost view = { λ p. p.front };

    ghost invariant = { λ p. (p.counts.items ≡ profile_after B.buckets p.front) × (length p.counts.items ≡ B.buckets) };
}

impl<B: Board> Profile<B> {
    /// The profile before the first publish, with a 0 for each bucket.
    pub(crate) fn first(
        alloc: Global,
        front: Front<B>,
        buckets: u32,
    ) -> Result<Profile<B>, NoMemory>
        requires front { front ≡ [] }
        requires buckets { buckets ≡ B.buckets }
        ensures { IfOk result (λ p. p ≡ []) }
    {
        let none = Count {
            allocs: 0,
            frees: 0,
        };
        let counts = Vec::from_elem(alloc, none, buckets as usize)?;
        Ok(Profile { front, counts })
    }

    /// How many publishes led to it.
    pub(crate) fn number(&self) -> u32
        ensures { result ≡ length self.now }
    {
        self.front.len()
    }

    /// A count for each bucket.
    pub(crate) fn counts(&self) -> &[Count]
        ensures counts { result.now ≡ profile_after B.buckets self.now }
        ensures buckets { length result.now ≡ B.buckets }
    {
        self.counts.as_slice()
    }

    /// A copy.
    pub(crate) fn copy(&self, alloc: Global) -> Result<Profile<B>, NoMemory>
        ensures { IfOk result (λ p. p ≡ self.now) }
    {
        let counts = Vec::from_slice(alloc, self.counts.as_slice())?;
        Ok(Profile {
            front: self.front.again(),
            counts,
        })
    }

    /// The profile that these counts make by one publish more. `None` only where another publish stands there, which no second
    /// head could add.
    pub(crate) fn followed_by(&self, head: &Head<B>, counts: Vec<Count>) -> Option<Profile<B>>
        requires buckets { length counts.items ≡ B.buckets }
        requires room { length self.now < 4294967295 }
        ensures { IfSome result (λ p. p ≡ self.now ++ counts.items ∷ []) }
    {
        let front = self.front.with(head, &counts)?;
        Some(Profile { front, counts })
    }

    /// Becomes a copy of another, without taking memory.
    pub(crate) fn become_like(&mut self, other: &Profile<B>)
        ensures { self.new ≡ other.now }
    {
        self.counts.copy_from_slice(other.counts.as_slice());
        self.front = other.front.again();
    }

    /// Becomes a copy of another that is newer, without taking memory.
    pub(crate) fn catch_up(&mut self, other: &Profile<B>)
        ensures later { IsPrefix self.old self.new }
        ensures caught_up { IsPrefix other.now self.new }
    {
        if self.front.is_behind(&other.front) {
            self.become_like(other);
        }
    }
}

/// Where a profile will stand that is to be shown. It is filled once memory can no longer fail.
pub(crate) type Slot<B> = Arc<OnceLock<Profile<B>>>;

impl<B: Board> Absorb<Slot<B>> for Profile<B> {
    // That a board shows what was published is not said here: a profile carries the publishes that led to it.
    type State = ();

    ghost state = { λ _. tt };

    ghost applied = { λ s _. s };

    ghost never_fails = { Unit {0} };

    fn absorb_first(&mut self, slot: &Slot<B>, _other: &Profile<B>) -> Result<(), AllocError> {
        if let Some(profile) = slot.get() {
            self.become_like(profile);
        }
        Ok(())
    }
}
