//! The needs of Take, Give and Allocate, in their order. They read, and write nothing.

ghost use Rattle.std.specs.Prelude.{◌≡◌, ◌<◌, ◌≤◌, ◌+◌, true, None, OnOk, length, [], ◌∷◌};
ghost use Rattle.sweep_laws.specs.Reading.{life_of};
ghost use Rattle.sweep_laws.specs.NeedsOfRange.{refusal, run_in_range};
ghost use Rattle.sweep_laws.specs.NeedsOfPages.{is_holder, nothing_allocated, is_at_hand, may_allocate, is_least_free, free_index};
ghost use Rattle.sweep_laws.specs.Needs.{take_needs, give_needs, allocate_needs};
ghost use Rattle.sweep_laws.specs.Tries.{Tried};

use crate::scan::least;
use crate::state::Core;
use crate::tries::demand;
use sweep_laws::{Found, Kind, StepFault};

// The number of span classes.
pub(crate) const SPAN_CLASSES: u8 = 136;

impl Core {
    pub(crate) fn try_run(&self, page: u32, pages: u32) -> Result<(), StepFault>
        ensures ok { OnOk result (page + pages ≤ length self.now.words) }
        ensures tried { Tried (run_in_range self.now page pages ∷ []) result }
    {
        let end = u64::from(page) + u64::from(pages);
        demand(end <= self.words.len() as u64, Found::Range)
    }

    fn try_nothing_allocated(&self, page: u32) -> Result<(), StepFault>
        ensures { Tried (nothing_allocated self.now page ∷ []) result }
    {
        match self.life(page) {
            Some(life) => match least(life.allocated.as_slice()) {
                Some(index) => demand(false, Found::Index(Some(index))),
                None => Ok(()),
            },
            None => Ok(()),
        }
    }

    pub(crate) fn try_take(
        &self,
        worker: u32,
        page: u32,
        pages: u32,
        count: u32,
        class: u8,
    ) -> Result<(), StepFault>
        ensures worker { OnOk result (worker < length self.now.hands) }
        ensures run { OnOk result (page + pages ≤ length self.now.words) }
        ensures page { OnOk result (page < length self.now.words) }
        ensures tried { Tried (take_needs self.now worker page pages count class) result }
    {
        self.try_worker(worker)?;
        self.try_page(page)?;
        self.try_run(page, pages)?;
        demand(class < SPAN_CLASSES, Found::Range)?;
        self.try_lock_is_own(worker)?;
        demand(0 < pages && 0 < count, Found::Range)?;
        self.try_run_is_free(page, pages)
    }

    pub(crate) fn try_give(&self, worker: u32, page: u32) -> Result<(), StepFault>
        ensures worker { OnOk result (worker < length self.now.hands) }
        ensures page { OnOk result (page < length self.now.words) }
        ensures tried { Tried (give_needs self.now worker page) result }
    {
        self.try_worker(worker)?;
        self.try_page(page)?;
        self.try_lock_is_own(worker)?;
        self.try_list(Kind::Held, worker, page)?;
        self.try_nothing_allocated(page)?;
        self.try_claims_nothing(worker)
    }

    fn try_at_hand(&self, worker: u32, page: u32) -> Result<(), StepFault>
        requires { worker < length self.now.hands }
        ensures { Tried (is_at_hand self.now worker page ∷ []) result }
    {
        let hand = &self.hands[worker as usize];
        if hand.cached.has(page) || hand.held.has(page) {
            return Ok(());
        }
        let found = match self.lister(Kind::Cached, page) {
            Some(cacher) => Found::Holder(Some(cacher)),
            None => Found::Holder(self.lister(Kind::Held, page)),
        };
        Err(StepFault::NotAllowed { found })
    }

    // The objects of the first life that begins at the page, 0 where there is none.
    fn count_at(&self, page: u32) -> u32
        ensures { result ≡ (life_of self.now page).count }
    {
        match self.life(page) {
            Some(life) => life.count,
            None => 0,
        }
    }

    fn try_may_allocate(&self, worker: u32, page: u32) -> Result<(), StepFault>
        requires worker { worker < length self.now.hands }
        requires page { page < length self.now.words }
        ensures { Tried (may_allocate self.now worker page ∷ []) result }
    {
        let hand = &self.hands[worker as usize];
        let word = self.words.at(page);
        let cached = hand.cached.has(page) && word == self.generation + 3;
        let single = hand.held.has(page) && word == self.generation && self.count_at(page) == 1;
        demand(cached || single, Found::Word(word))
    }

    // The least index below the count that is not allocated.
    fn free_index(&self, page: u32) -> Option<u32>
        ensures { result ≡ free_index self.now page }
    {
        let life = self.life(page)?;
        life.allocated.least_free(life.count)
    }

    fn try_least_free(&self, page: u32, index: u32) -> Result<(), StepFault>
        ensures { Tried (is_least_free self.now page index ∷ []) result }
    {
        let free = self.free_index(page);
        demand(free == Some(index), Found::Index(free))
    }

    // Whether an index is the least free one of the first life that begins at the page.
    #[inline(always)]
    fn is_free_next(&self, page: u32, index: u32) -> bool
        ensures { result ≡ true → is_holder index (free_index self.now page) ≡ true }
    {
        match self.lives.find_told(page) {
            Some(life) => match life.allocated.least_free(life.count) {
                Some(free) => free == index,
                None => false,
            },
            None => false,
        }
    }

    // Whether an allocation is the usual one, in a span that the worker has cached, and all its needs are met. Where it is not,
    // they may be met nonetheless.
    #[inline(always)]
    pub(crate) fn is_usual(&self, worker: u32, page: u32, index: u32) -> bool
        ensures { result ≡ true → refusal (allocate_needs self.now worker page index) ≡ None }
    {
        if self.hands.len() <= worker as usize || self.words.len() <= page as usize {
            return false;
        }
        self.hands[worker as usize].cached.tells(page)
            && self.words.at(page) == self.generation + 3
            && self.is_free_next(page, index)
    }

    pub(crate) fn try_allocate(&self, worker: u32, page: u32, index: u32) -> Result<(), StepFault>
        ensures { Tried (allocate_needs self.now worker page index) result }
    {
        self.try_worker(worker)?;
        self.try_page(page)?;
        self.try_at_hand(worker, page)?;
        self.try_may_allocate(worker, page)?;
        self.try_least_free(page, index)
    }
}
