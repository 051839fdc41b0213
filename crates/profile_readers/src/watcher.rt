//! The watchers of a board.

ghost use Rattle.std.specs.Prelude.{◌≡◌, length};
ghost use mathlib.Core.List.{IsPrefix};
ghost use Rattle.profile_readers.specs.History.{profile_after};

use crate::history::Board;
use crate::profile::Profile;
use crate::publisher::Told;
use crossbeam_utils::rule::Unruled;
use edge_io::List;
use left_right::reader::Reader;
use profile_cycle::Count;
use std::alloc::Global;
use std::marker::Model;
use std::mem::replace;

/// Reads a board. Contracts see it as the publishes that it knows of, the oldest first: the counts of each.
#[derive(Drop)]
pub struct Watcher<B: Board> {
    // It is there between calls.
    reader: Option<Reader<Profile<B>, (), Unruled>>,
    latest: Profile<B>,
    alloc: Global,
}

impl<B: Board> Model for Watcher<B> {
    ghost use Rattle.std.specs.Prelude.{List};
    ghost use Rattle.profile_cycle.specs.declared.counts.Count.{Count};

    ghost Value = { List (List Count) };

    ghost view = { λ w. w.latest };
}

impl<B: Board> Watcher<B> {
    pub(crate) fn new(
        reader: Reader<Profile<B>, (), Unruled>,
        latest: Profile<B>,
        alloc: Global,
    ) -> Watcher<B>
        ensures { result ≡ latest }
    {
        Watcher {
            reader: Some(reader),
            latest,
            alloc,
        }
    }

    /// Takes in what the board's publisher told. From now on it sees no less.
    pub fn learn(&mut self, told: Told<B>)
        ensures seen { IsPrefix self.old self.new }
        ensures learnt { IsPrefix told self.new }
    {
        self.latest.catch_up(&told.latest);
    }

    /// Writes the profile after some publishes, which begin with all that it saw and learnt before, and answers how many these
    /// are. It takes no memory and waits for nobody. Where the publisher was closed it shows what it saw or learnt last.
    pub fn see(&mut self, into: &mut List<Count>) -> u32
        requires buckets { length into.old ≡ B.buckets }
        ensures profile { into.new ≡ profile_after B.buckets self.new }
        ensures buckets { length into.new ≡ B.buckets }
        ensures number { result ≡ length self.new }
        ensures seen { IsPrefix self.old self.new }
    {
        self.look();
        let mut counts = replace(into, List::new(self.alloc)).into_vec();
        counts.copy_from_slice(self.latest.counts());
        *into = List::from_vec(counts);
        self.latest.number()
    }

    // Takes in what the board shows, if it can be entered.
    fn look(&mut self)
        ensures { IsPrefix self.old self.new }
    {
        let Some(reader) = self.reader.take() else {
            return;
        };
        let reader = match reader.enter_as::<Unruled>() {
            Ok(reading) => {
                self.latest.catch_up(reading.get());
                reading.leave()
            }
            Err(reader) => reader,
        };
        self.reader = Some(reader);
    }
}
