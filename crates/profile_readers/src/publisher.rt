//! A board, and its one publisher.

ghost use Rattle.std.specs.Prelude.{◌≡◌, ℕ, ◌<◌, ◌≤◌, ◌++◌, ◌∷◌, [], length, replicate, IfOk, OnOk, OnErr};
ghost use Rattle.profile_readers.specs.History.{profile_after};

use crate::history::{Board, Head, Opened};
use crate::profile::{Profile, Slot};
use crate::watcher::Watcher;
use core::mem::replace_with;
use crossbeam_utils::rule::Unruled;
use edge_io::{List, NoMemory};
use left_right::Absorb;
use left_right::writer::Writer;
use profile_cycle::Count;
use std::alloc::Global;
use std::marker::Model;
use std::sync::{Arc, OnceLock, Wait};

/// Shows profiles on a board. Contracts see it as the list of its publishes that answered `Ok`, the oldest first: the counts
/// of each. End it by [`Publisher::close`].
pub struct Publisher<B: Board>
where
    Profile<B>: Absorb<Slot<B>, State = ()>,
{
    writer: Writer<Profile<B>, Slot<B>, (), Unruled>,
    head: Head<B>,
    latest: Profile<B>,
    alloc: Global,
}

impl<B: Board> Model for Publisher<B>
where
    Profile<B>: Absorb<Slot<B>, State = ()>,
{
    ghost use Rattle.std.specs.Prelude.{List};
    ghost use Rattle.profile_cycle.specs.declared.counts.Count.{Count};

    ghost Value = { List (List Count) };

    ghost view = { λ p. p.latest };
}

/// What a publisher tells a watcher. Contracts see it as the publisher's publishes when it told.
#[derive(Drop)]
pub struct Told<B: Board> {
    pub(crate) latest: Profile<B>,
}

impl<B: Board> Model for Told<B> {
    ghost use Rattle.std.specs.Prelude.{List};
    ghost use Rattle.profile_cycle.specs.declared.counts.Count.{Count};

    ghost Value = { List (List Count) };

    ghost view = { λ t. t.latest };
}

impl<B: Board> Told<B> {
    /// How many publishes there were.
    pub fn number(&self) -> u32
        ensures { result ≡ length self.now }
    {
        self.latest.number()
    }

    /// The counts of the last of them, one for each bucket.
    pub fn counts(&self) -> &[Count]
        ensures counts { result.now ≡ profile_after B.buckets self.now }
        ensures buckets { length result.now ≡ B.buckets }
    {
        self.latest.counts()
    }
}

/// A board of so many buckets with its publisher and 1 to 4 watchers. All counts are 0 until the first publish.
pub fn board<B: Board, R: Wait>(
    alloc: Global,
    rt: &R,
    opened: Opened,
    buckets: u32,
    readers: u32,
) -> Result<(Publisher<B>, List<Watcher<B>>), NoMemory>
    requires name { opened ≡ B.book }
    requires buckets { buckets ≡ B.buckets }
    requires readers { (1 ≤ readers) × (readers ≤ 4) }
    ensures publisher { IfOk result (λ r. r.0 ≡ []) }
    ensures watchers { IfOk result (λ r. r.1 ≡ replicate readers []) }
{
    let (head, front) = opened.named::<B>();
    let latest = Profile::first(alloc, front, buckets)?;
    let first = latest.copy(alloc)?;
    let second = latest.copy(alloc)?;
    let writer = Writer::new(alloc, first, second, readers as usize)?;
    let publisher = Publisher {
        writer,
        head,
        latest,
        alloc,
    };
    match seats(&publisher, readers) {
        Ok(watchers) => Ok((publisher, watchers)),
        Err(none) => {
            publisher.close(rt);
            Err(none)
        }
    }
}

// So many watchers, which know what was published.
fn seats<B: Board>(publisher: &Publisher<B>, readers: u32) -> Result<List<Watcher<B>>, NoMemory>
    ensures { IfOk result (λ l. l ≡ replicate readers publisher.now) }
{
    let mut watchers = List::new(publisher.alloc);
    for _ in 0..readers {
        watchers.push(publisher.seat()?)?;
    }
    Ok(watchers)
}

impl<B: Board> Publisher<B>
where
    Profile<B>: Absorb<Slot<B>, State = ()>,
{
    // A watcher that knows what was published.
    fn seat(&self) -> Result<Watcher<B>, NoMemory>
        ensures { IfOk result (λ w. w ≡ self.now) }
    {
        let latest = self.latest.copy(self.alloc)?;
        let reader = self.writer.factory().reader()?;
        Ok(Watcher::new(reader, latest, self.alloc))
    }

    /// Shows these counts, one for each bucket, to the watchers. It waits for those that still read what was shown before
    /// the last publish. Without memory what is shown stays as it was.
    pub fn publish<R: Wait>(&mut self, rt: &R, counts: &List<Count>) -> Result<(), NoMemory>
        requires buckets { length counts.now ≡ B.buckets }
        requires room { length self.old < 4294967295 }
        ensures ok { OnOk result (self.new ≡ self.old ++ counts.now ∷ []) }
        ensures err { OnErr result (self.new ≡ self.old) }
    {
        let counts = Vec::from_slice(self.alloc, counts.as_slice())?;
        let slot = Arc::new(self.alloc, OnceLock::new())?;
        if self.writer.append(Arc::try_clone(&slot)?).is_err() {
            return Err(NoMemory);
        }
        let Some(next) = self.latest.followed_by(&self.head, counts) else {
            return Err(NoMemory);
        };
        self.latest.become_like(&next);
        let _token = slot.set(rt, next);
        let _shown = replace_with(&mut self.writer, rt, |writer, rt| {
            writer.publish_as::<Unruled, R>(rt)
        });
        Ok(())
    }

    /// What a watcher may learn: the number of publishes and a copy of the last one's counts.
    pub fn tell(&mut self) -> Result<Told<B>, NoMemory>
        ensures told { IfOk result (λ t. t ≡ self.old) }
        ensures same { self.new ≡ self.old }
    {
        let latest = self.latest.copy(self.alloc)?;
        Ok(Told { latest })
    }

    /// Ends the publisher, once no watcher reads from the board any more. Watchers go on with what they saw and learnt.
    pub fn close<R: Wait>(self, rt: &R) {
        let Publisher {
            writer,
            head: _,
            latest: _,
            alloc: _,
        } = self;
        drop(writer.take(rt));
    }
}
