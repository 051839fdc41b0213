//! Free and pulled pages, as needs ask for them, and the needs of Pull, Cut and Drop in their order. They read, and write nothing.

ghost use Rattle.std.specs.Prelude.{◌≡◌, ◌==◌, ◌&&◌, ◌<◌, ◌≤◌, ◌+◌, ◌^◌, OnOk, IfOk, Some, None, not, slice_index_or, length, take, option_map, option_copied, [], ◌∷◌};
ghost use Rattle.std.specs.List.{find, list_any, range_with_len};
ghost use Rattle.std.specs.Option.{IfSome, is_some};
ghost use Rattle.sweep_laws.specs.Lists.{has, first_of};
ghost use Rattle.sweep_laws.specs.Reading.{hand_of, is_free_page, least_free, free_with};
ghost use Rattle.sweep_laws.specs.NeedsOfPages.{first_taken, run_is_free, first_unpulled, run_is_pulled, pulls_nothing};
ghost use Rattle.sweep_laws.specs.NeedsOfMarkEnd.{first_puller, nothing_pulled};
ghost use Rattle.sweep_laws.specs.Needs.{pull_needs, cut_needs, drop_needs};
ghost use Rattle.sweep_laws.specs.Tries.{Tried};
ghost use Rattle.sweep_lists.specs.Views.{hand_view};

use crate::state::Core;
use crate::tries::demand;
use crate::tries_life::SPAN_CLASSES;
use sweep_laws::{Found, StepFault};
use sweep_lists::{CoreHand, Numbers};

// The pages of a block.
pub(crate) const BLOCK_PAGES: u32 = 64;

// Whether a hand has pulled a page.
fn is_pulled(hands: &[CoreHand], page: u32) -> bool
    ensures { result ≡ list_any (λ hand. has page (hand_view hand).pulled) hands.now }
{
    hands.iter().any(|hand| hand.pulled.has(page))
}

// The first hand that has pulled a page.
fn find_puller(hands: &[CoreHand]) -> Option<&CoreHand>
    ensures { option_copied result ≡ find (λ hand. not (length (hand_view hand).pulled == 0)) hands.now }
{
    hands.iter().find(|hand| !hand.pulled.is_empty())
}

// The first of some numbers.
fn first(items: &[u32]) -> Option<u32>
    ensures { result ≡ first_of items.now }
{
    let (first, _) = items.split_first()?;
    Some(*first)
}

// Whether a page has no owner, and no hand has pulled it.
fn is_free(owners: &[Option<u32>], hands: &[CoreHand], page: u32) -> bool
    requires { page < length owners.now }
    ensures { result ≡ (not (is_some (slice_index_or owners.now page None)) && not (list_any (λ hand. has page (hand_view hand).pulled) hands.now)) }
{
    owners[page as usize].is_none() && !is_pulled(hands, page)
}

// The first page of a run that a list does not have.
fn first_missing(pulled: &Numbers, page: u32, pages: u32) -> Option<u32>
    requires { page + pages < 2 ^ 32 }
    ensures { result ≡ find (λ p. not (has p pulled.now.items)) (range_with_len page pages) }
{
    for k in 0..pages {
        if !pulled.has(page + k) {
            return Some(page + k);
        }
    }
    None
}

impl Core {
    // Whether a page is free.
    fn is_free_page(&self, page: u32) -> bool
        requires { page < length self.now.words }
        ensures { result ≡ is_free_page self.now page }
    {
        is_free(&self.owners, &self.hands, page)
    }

    // The first page of a run that is not free.
    fn first_taken(&self, page: u32, pages: u32) -> Option<u32>
        requires { page + pages ≤ length self.now.words }
        ensures is { result ≡ first_taken self.now page pages }
        ensures low { IfSome result (λ taken. taken < length self.now.words) }
    {
        let _ = &self.generation;
        for k in 0..pages {
            if !self.is_free_page(page + k) {
                return Some(page + k);
            }
        }
        None
    }

    pub(crate) fn try_run_is_free(&self, page: u32, pages: u32) -> Result<(), StepFault>
        requires { page + pages ≤ length self.now.words }
        ensures { Tried (run_is_free self.now page pages ∷ []) result }
    {
        let Some(taken) = self.first_taken(page, pages) else {
            return Ok(());
        };
        match self.owners[taken as usize] {
            Some(owner) => demand(false, Found::Owner(owner)),
            None => demand(false, Found::Index(Some(taken))),
        }
    }

    // The least page that is free.
    fn least_free(&self) -> Option<u32>
        ensures is { result ≡ least_free self.now }
        ensures low { IfSome result (λ page. page < length self.now.words) }
    {
        let pages = self.words.len() as u32;
        for page in 0..pages {
            if self.is_free_page(page) {
                return Some(page);
            }
        }
        None
    }

    // Puts the free pages of the block that has a page into `block`, in rising order, and answers how many there are.
    pub(crate) fn list_block(&self, page: u32, block: &mut [u32]) -> usize
        requires low { page < length self.now.words }
        requires space { length block.old ≡ 64 }
        ensures count { result ≤ 64 }
        ensures long { length block.new ≡ 64 }
        ensures pages { take result block.new ≡ free_with self.now (Some page) }
    {
        let start = page / BLOCK_PAGES * BLOCK_PAGES;
        let pages = BLOCK_PAGES.min(self.words.len() as u32 - start);
        let mut count = 0;
        for k in 0..pages {
            if self.is_free_page(start + k) {
                block[count] = start + k;
                count += 1;
            }
        }
        count
    }

    fn try_pulls_nothing(&self, worker: u32) -> Result<(), StepFault>
        requires { worker < length self.now.hands }
        ensures none { OnOk result ((hand_of self.now worker).pulled ≡ []) }
        ensures tried { Tried (pulls_nothing self.now worker ∷ []) result }
    {
        match first(self.hands[worker as usize].pulled.as_slice()) {
            Some(page) => demand(false, Found::Index(Some(page))),
            None => Ok(()),
        }
    }

    // The first page of a run that a worker has not pulled.
    fn first_unpulled(&self, worker: u32, page: u32, pages: u32) -> Option<u32>
        requires worker { worker < length self.now.hands }
        requires run { page + pages ≤ length self.now.words }
        ensures { result ≡ first_unpulled self.now worker page pages }
    {
        first_missing(&self.hands[worker as usize].pulled, page, pages)
    }

    fn try_run_is_pulled(&self, worker: u32, page: u32, pages: u32) -> Result<(), StepFault>
        requires worker { worker < length self.now.hands }
        requires run { page + pages ≤ length self.now.words }
        ensures { Tried (run_is_pulled self.now worker page pages ∷ []) result }
    {
        let missing = self.first_unpulled(worker, page, pages);
        demand(missing.is_none(), Found::Index(missing))
    }

    fn first_puller(&self) -> Option<&CoreHand>
        ensures { option_map (λ hand. hand_view hand.now) result ≡ first_puller self.now }
    {
        find_puller(&self.hands)
    }

    pub(crate) fn try_nothing_pulled(&self) -> Result<(), StepFault>
        ensures { Tried (nothing_pulled self.now ∷ []) result }
    {
        match self.first_puller() {
            Some(hand) => demand(false, Found::Index(first(hand.pulled.as_slice()))),
            None => Ok(()),
        }
    }

    // Tries the needs of a Pull, and answers the least page that is free.
    pub(crate) fn try_pull(&self, worker: u32) -> Result<u32, StepFault>
        ensures worker { OnOk result (worker < length self.now.hands) }
        ensures none { OnOk result ((hand_of self.now worker).pulled ≡ []) }
        ensures page { IfOk result (λ page. (least_free self.now ≡ Some page) × (page < length self.now.words)) }
        ensures tried { Tried (pull_needs self.now worker) result }
    {
        self.try_worker(worker)?;
        self.try_lock_is_own(worker)?;
        self.try_pulls_nothing(worker)?;
        match self.least_free() {
            Some(page) => Ok(page),
            None => Err(StepFault::NotAllowed {
                found: Found::Index(None),
            }),
        }
    }

    pub(crate) fn try_cut(
        &self,
        worker: u32,
        page: u32,
        pages: u32,
        count: u32,
        class: u8,
    ) -> Result<(), StepFault>
        ensures worker { OnOk result (worker < length self.now.hands) }
        ensures run { OnOk result (page + pages ≤ length self.now.words) }
        ensures page { OnOk result (page < length self.now.words) }
        ensures tried { Tried (cut_needs self.now worker page pages count class) result }
    {
        self.try_worker(worker)?;
        self.try_page(page)?;
        self.try_run(page, pages)?;
        demand(class < SPAN_CLASSES, Found::Range)?;
        demand(0 < pages && 0 < count, Found::Range)?;
        self.try_run_is_pulled(worker, page, pages)
    }

    pub(crate) fn try_drop(&self, worker: u32) -> Result<(), StepFault>
        ensures worker { OnOk result (worker < length self.now.hands) }
        ensures tried { Tried (drop_needs self.now worker) result }
    {
        self.try_worker(worker)?;
        self.try_lock_is_own(worker)
    }
}
