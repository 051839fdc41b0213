//! The needs of moves, tried in their order: the first that fails is told, with what was found. They read, and write nothing.
//! Here are the parts that all moves share, and the needs of the lock, of sweeps and of caches.

ghost use Rattle.std.specs.Prelude.{◌≡◌, ◌<◌, ◌^◌, OnOk, IfSome, length, option_map, IsTrue, [], ◌∷◌};
ghost use Rattle.sweep_laws.specs.Reading.{lister, life_at};
ghost use Rattle.sweep_laws.specs.NeedsOfRange.{need, worker_in_range, page_in_range};
ghost use Rattle.sweep_laws.specs.NeedsOfPages.{lock_is_own, lists};
ghost use Rattle.sweep_laws.specs.NeedsOfSets.{claims_nothing};
ghost use Rattle.sweep_laws.specs.Needs.{lock_needs, unlock_needs, acquire_needs, release_needs, cache_needs, uncache_needs, stale_uncache_needs, drop_popped_needs};
ghost use Rattle.sweep_laws.specs.Tries.{Tried};
ghost use Rattle.sweep_lists.specs.Views.{life_view};

use crate::scan::first_lister;
use crate::state::Core;
use sweep_laws::{Found, Kind, StepFault};
use sweep_lists::Life;
use sweep_reads::waits;

// Tries a need: `found` is what it finds where it is not met.
pub(crate) fn demand(met: bool, found: Found) -> Result<(), StepFault>
    ensures ok { OnOk result (IsTrue met) }
    ensures tried { Tried (need met found ∷ []) result }
{
    if met {
        Ok(())
    } else {
        Err(StepFault::NotAllowed { found })
    }
}

// An index of a hand as the number of its worker.
pub(crate) fn narrow(index: Option<usize>) -> Option<u32>
    requires { IfSome index (λ i. i < 2 ^ 32) }
    ensures { result ≡ index }
{
    index.map(|i| i as u32)
}

impl Core {
    pub(crate) fn try_worker(&self, worker: u32) -> Result<(), StepFault>
        ensures ok { OnOk result (worker < length self.now.hands) }
        ensures tried { Tried (worker_in_range self.now worker ∷ []) result }
    {
        demand((worker as usize) < self.hands.len(), Found::Range)
    }

    pub(crate) fn try_page(&self, page: u32) -> Result<(), StepFault>
        ensures ok { OnOk result (page < length self.now.words) }
        ensures tried { Tried (page_in_range self.now page ∷ []) result }
    {
        demand((page as usize) < self.words.len(), Found::Range)
    }

    pub(crate) fn try_lock_is_own(&self, worker: u32) -> Result<(), StepFault>
        ensures { Tried (lock_is_own self.now worker ∷ []) result }
    {
        demand(self.lock == Some(worker), Found::Holder(self.lock))
    }

    // The first worker whose list of that kind has the page.
    pub(crate) fn lister(&self, kind: Kind, page: u32) -> Option<u32>
        ensures { result ≡ lister kind self.now page }
    {
        narrow(first_lister(&self.hands, kind, page))
    }

    pub(crate) fn try_list(&self, kind: Kind, worker: u32, page: u32) -> Result<(), StepFault>
        requires { worker < length self.now.hands }
        ensures { Tried (lists kind self.now worker page ∷ []) result }
    {
        if self.hands[worker as usize].list(kind).has(page) {
            return Ok(());
        }
        let found = Found::Holder(self.lister(kind, page));
        Err(StepFault::NotAllowed { found })
    }

    pub(crate) fn try_claims_nothing(&self, worker: u32) -> Result<(), StepFault>
        requires { worker < length self.now.hands }
        ensures { Tried (claims_nothing self.now worker ∷ []) result }
    {
        match self.hands[worker as usize].claimed {
            Some(claim) => demand(false, Found::Index(Some(claim.index))),
            None => Ok(()),
        }
    }

    // The first life that begins at the page.
    pub(crate) fn life(&self, page: u32) -> Option<&Life>
        ensures { option_map (λ life. life_view life.now) result ≡ life_at self.now page }
    {
        self.lives.find(page)
    }

    pub(crate) fn try_lock(&self, worker: u32) -> Result<(), StepFault>
        ensures worker { OnOk result (worker < length self.now.hands) }
        ensures tried { Tried (lock_needs self.now worker) result }
    {
        self.try_worker(worker)?;
        demand(self.lock.is_none(), Found::Holder(self.lock))
    }

    pub(crate) fn try_unlock(&self, worker: u32) -> Result<(), StepFault>
        ensures worker { OnOk result (worker < length self.now.hands) }
        ensures tried { Tried (unlock_needs self.now worker) result }
    {
        self.try_worker(worker)?;
        self.try_lock_is_own(worker)
    }

    pub(crate) fn try_acquire(&self, worker: u32, page: u32) -> Result<(), StepFault>
        ensures worker { OnOk result (worker < length self.now.hands) }
        ensures page { OnOk result (page < length self.now.words) }
        ensures tried { Tried (acquire_needs self.now worker page) result }
    {
        self.try_worker(worker)?;
        self.try_page(page)?;
        let word = self.words.at(page);
        demand(waits(word, self.generation), Found::Word(word))
    }

    pub(crate) fn try_release(&self, worker: u32, page: u32) -> Result<(), StepFault>
        ensures worker { OnOk result (worker < length self.now.hands) }
        ensures page { OnOk result (page < length self.now.words) }
        ensures tried { Tried (release_needs self.now worker page) result }
    {
        self.try_worker(worker)?;
        self.try_page(page)?;
        self.try_list(Kind::Sweeping, worker, page)
    }

    pub(crate) fn try_cache(&self, worker: u32, page: u32) -> Result<(), StepFault>
        ensures worker { OnOk result (worker < length self.now.hands) }
        ensures page { OnOk result (page < length self.now.words) }
        ensures tried { Tried (cache_needs self.now worker page) result }
    {
        self.try_worker(worker)?;
        self.try_page(page)?;
        self.try_list(Kind::Held, worker, page)?;
        self.try_claims_nothing(worker)
    }

    pub(crate) fn try_uncache(&self, worker: u32, page: u32) -> Result<(), StepFault>
        ensures worker { OnOk result (worker < length self.now.hands) }
        ensures page { OnOk result (page < length self.now.words) }
        ensures tried { Tried (uncache_needs self.now worker page) result }
    {
        self.try_worker(worker)?;
        self.try_page(page)?;
        self.try_list(Kind::Cached, worker, page)?;
        let word = self.words.at(page);
        demand(word == self.generation + 3, Found::Word(word))
    }

    pub(crate) fn try_stale_uncache(&self, worker: u32, page: u32) -> Result<(), StepFault>
        ensures worker { OnOk result (worker < length self.now.hands) }
        ensures page { OnOk result (page < length self.now.words) }
        ensures tried { Tried (stale_uncache_needs self.now worker page) result }
    {
        self.try_worker(worker)?;
        self.try_page(page)?;
        self.try_list(Kind::Cached, worker, page)?;
        let word = self.words.at(page);
        demand(word == self.generation + 1, Found::Word(word))
    }

    pub(crate) fn try_drop_popped(&self, worker: u32, page: u32) -> Result<(), StepFault>
        ensures worker { OnOk result (worker < length self.now.hands) }
        ensures page { OnOk result (page < length self.now.words) }
        ensures tried { Tried (drop_popped_needs self.now worker page) result }
    {
        self.try_worker(worker)?;
        self.try_page(page)?;
        self.try_list(Kind::Popped, worker, page)?;
        let word = self.words.at(page);
        demand(!waits(word, self.generation), Found::Word(word))
    }
}
