//! Those that watch the profile of a run, and the publisher that shows it to them.

ghost use Rattle.std.specs.Prelude.{◌≡◌, ◌<◌, length, vec_len, is_some, true, None, Some, IfOk, OnOk};
ghost use Rattle.heap_run.specs.Watching.{AreSeen};

use edge_io::{List, NoMemory};
use profile_readers::{Board, Publisher, Sight, Viewer, Watcher};
use std::alloc::Global;
use std::sync::Wait;
use std::thread::{Threads, for_each_mut};

// How often each viewer looks in a cycle.
const LOOKS: u32 = 100;

/// The publisher of a run's profile and its viewers; or nobody. End it by [`Audience::close`].
pub(crate) struct Audience<B: Board> {
    pub(crate) publisher: Option<Publisher<B>>,
    pub(crate) viewers: Vec<Viewer<B>>,
}

impl<B: Board> Audience<B> {
    /// Nobody, to whom nothing is shown.
    pub(crate) fn nobody(alloc: Global) -> Audience<B>
        ensures { result.publisher ≡ None }
    {
        Audience {
            publisher: None,
            viewers: Vec::new(alloc),
        }
    }

    /// The publisher, before a viewer has come.
    pub(crate) fn of(alloc: Global, publisher: Publisher<B>) -> Audience<B>
        ensures publisher { result.publisher ≡ Some publisher }
        ensures none { vec_len result.viewers ≡ 0 }
    {
        Audience {
            publisher: Some(publisher),
            viewers: Vec::new(alloc),
        }
    }

    /// The watchers of the board, which has so many buckets, become viewers with room for so many sights.
    pub(crate) fn seat(
        &mut self,
        alloc: Global,
        watchers: List<Watcher<B>>,
        buckets: u32,
        sights: usize,
    ) -> Result<(), NoMemory>
        requires buckets { buckets ≡ B.buckets }
        requires none { vec_len self.old.viewers ≡ 0 }
        ensures publisher { self.new.publisher ≡ self.old.publisher }
        ensures viewers { OnOk result (vec_len self.new.viewers ≡ length watchers) }
    {
        let mut watchers = watchers.into_vec();
        for _seated in 0..watchers.len() {
            let Some(watcher) = watchers.pop() else {
                unreachable!()
            };
            let viewer = Viewer::new(alloc, watcher, buckets, sights)?;
            self.viewers.push(viewer)?;
        }
        Ok(())
    }

    /// The viewers are told what was published, see it, and hand out their sights.
    pub(crate) fn finish(&mut self, alloc: Global) -> Result<List<List<Sight>>, NoMemory>
        requires publisher { is_some self.old.publisher ≡ true }
        ensures publisher { self.new.publisher ≡ self.old.publisher }
        ensures count { IfOk result (λ seen. length seen ≡ vec_len self.old.viewers) }
        ensures seen { IfOk result (λ seen. AreSeen B.buckets self.old.publisher seen) }
    {
        let Audience { publisher, viewers } = self;
        let Some(publisher) = publisher else {
            unreachable!()
        };
        let mut seen = List::with_room(alloc, viewers.len())?;
        for _done in 0..viewers.len() {
            let Some(viewer) = viewers.pop() else {
                unreachable!()
            };
            let told = publisher.tell()?;
            seen.push(viewer.finish(told)?)?;
        }
        Ok(seen)
    }

    /// Ends the publisher.
    pub(crate) fn close<R: Wait>(self, rt: &R) {
        let Audience {
            publisher,
            viewers: _,
        } = self;
        if let Some(publisher) = publisher {
            publisher.close(rt);
        }
    }
}

/// Each viewer looks, beside the others.
pub(crate) fn watch_all<B: Board + Send + Sync, R: Threads + Sync>(
    rt: &R,
    viewers: &mut [Viewer<B>],
)
    requires some { 0 < length viewers.old }
{
    let watch = |_: usize, viewer: &mut Viewer<B>| { viewer.watch(LOOKS) };
    let threads = viewers.len();
    for_each_mut(rt, viewers, threads, &watch);
}
