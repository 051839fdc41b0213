//! What one worker has. Its moves alone write its hand, but for a mark end, which empties `swept` of each. A page is handed
//! from list to list by one call that needs room in the new list first: so a page is never lost where memory runs out.

ghost use Rattle.std.specs.Prelude.{◌≡◌, ◌≤◌, ◌<◌, ◌+◌, ◌^◌, ◌⊎◌, ℕ, [], ◌∷◌, ◌++◌, length, None, IfOk, OnOk, OnErr};
ghost use Rattle.sweep_laws.specs.Lists.{erase};
ghost use Rattle.sweep_laws.specs.Reading.{listed};
ghost use Rattle.sweep_laws.specs.NeedsOfMarkEnd.{is_idle as no_pages};
ghost use Rattle.sweep_laws.specs.ChangesOfHands.{hold, let_go, start_sweep, end_sweep, put_in_cache, take_from_cache, sweep_from_cache, claim_cell, fill_cell, pop_entry, drop_entry, pull_pages, cut_span, drop_pulled};
ghost use Rattle.sweep_lists.specs.Bare.{bare_hand};
ghost use Rattle.sweep_lists.specs.Loops.{without_swept};
ghost use Rattle.sweep_lists.specs.Views.{hand_view, HandRoom};

use crate::entries::Entries;
use crate::numbers::Numbers;
use fallible_list::NoMemory;
use std::alloc::Global;
use sweep_laws::{Claimed, Kind};

/// What one worker has, by first pages.
#[derive(Debug, Drop)]
pub struct CoreHand {
    /// Spans that it sweeps.
    pub sweeping: Numbers,
    /// Swept spans that it holds.
    pub held: Numbers,
    /// Spans that it has cached.
    pub cached: Numbers,
    /// Entries that it popped from unswept sets.
    pub popped: Numbers,
    /// The index that it claimed and has not filled.
    pub claimed: Option<Claimed>,
    /// Spans that it swept since the last mark end.
    pub swept: Entries<u32>,
    /// Each of the pages that it pulled into its page cache and that no span has yet, in rising order.
    pub pulled: Numbers,
}

impl CoreHand {
    /// A hand that has nothing, with tables of the pages of a region of so many pages.
    pub fn new(alloc: Global, pages: u32) -> Result<Self, NoMemory>
        ensures { IfOk result (λ hand. hand ≡ bare_hand pages) }
    {
        let (sweeping, held) = two_lists(alloc, pages)?;
        let (cached, popped) = two_lists(alloc, pages)?;
        Ok(CoreHand {
            sweeping,
            held,
            cached,
            popped,
            claimed: None,
            swept: Entries::new(alloc),
            pulled: Numbers::with_table(alloc, pages)?,
        })
    }

    /// The list of that kind.
    pub fn list(&self, kind: Kind) -> &Numbers
        ensures { result.now.items ≡ listed kind (hand_view self.now) }
    {
        match kind {
            Kind::Sweeping => &self.sweeping,
            Kind::Held => &self.held,
            Kind::Cached => &self.cached,
            Kind::Popped => &self.popped,
        }
    }

    /// Holds a span.
    pub fn hold(&mut self, page: u32) -> Result<(), NoMemory>
        ensures ok { OnOk result (hand_view self.new ≡ hold page (hand_view self.old)) }
        ensures err { OnErr result (hand_view self.new ≡ hand_view self.old) }
        ensures full { OnErr result (self.old.held.space ≤ length self.old.held.items) }
        ensures room { (pages n : ℕ) → HandRoom pages n self.old → HandRoom pages n self.new }
    {
        self.held.add(page)
    }

    /// Begins to sweep a span, which leaves the popped entries.
    pub fn start_sweep(&mut self, page: u32) -> Result<(), NoMemory>
        ensures ok { OnOk result (hand_view self.new ≡ start_sweep page (hand_view self.old)) }
        ensures err { OnErr result (hand_view self.new ≡ hand_view self.old) }
        ensures full { OnErr result (self.old.sweeping.space ≤ length self.old.sweeping.items) }
        ensures room { (pages n : ℕ) → HandRoom pages n self.old → HandRoom pages n self.new }
    {
        pass_on(&mut self.popped, &mut self.sweeping, page)
    }

    /// Caches a span that it holds.
    pub fn put_in_cache(&mut self, page: u32) -> Result<(), NoMemory>
        ensures ok { OnOk result (hand_view self.new ≡ put_in_cache page (hand_view self.old)) }
        ensures err { OnErr result (hand_view self.new ≡ hand_view self.old) }
        ensures full { OnErr result (self.old.cached.space ≤ length self.old.cached.items) }
        ensures room { (pages n : ℕ) → HandRoom pages n self.old → HandRoom pages n self.new }
    {
        pass_on(&mut self.held, &mut self.cached, page)
    }

    /// Takes a span out of the cache and holds it.
    pub fn take_from_cache(&mut self, page: u32) -> Result<(), NoMemory>
        ensures ok { OnOk result (hand_view self.new ≡ take_from_cache page (hand_view self.old)) }
        ensures err { OnErr result (hand_view self.new ≡ hand_view self.old) }
        ensures full { OnErr result (self.old.held.space ≤ length self.old.held.items) }
        ensures room { (pages n : ℕ) → HandRoom pages n self.old → HandRoom pages n self.new }
    {
        pass_on(&mut self.cached, &mut self.held, page)
    }

    /// Takes a span out of the cache and begins to sweep it.
    pub fn sweep_from_cache(&mut self, page: u32) -> Result<(), NoMemory>
        ensures ok { OnOk result (hand_view self.new ≡ sweep_from_cache page (hand_view self.old)) }
        ensures err { OnErr result (hand_view self.new ≡ hand_view self.old) }
        ensures full { OnErr result (self.old.sweeping.space ≤ length self.old.sweeping.items) }
        ensures room { (pages n : ℕ) → HandRoom pages n self.old → HandRoom pages n self.new }
    {
        pass_on(&mut self.cached, &mut self.sweeping, page)
    }

    /// Has popped an entry.
    pub fn pop_entry(&mut self, page: u32) -> Result<(), NoMemory>
        ensures ok { OnOk result (hand_view self.new ≡ pop_entry page (hand_view self.old)) }
        ensures err { OnErr result (hand_view self.new ≡ hand_view self.old) }
        ensures full { OnErr result (self.old.popped.space ≤ length self.old.popped.items) }
        ensures room { (pages n : ℕ) → HandRoom pages n self.old → HandRoom pages n self.new }
    {
        self.popped.add(page)
    }

    /// Lets go of a span that it holds.
    pub fn let_go(&mut self, page: u32)
        ensures view { hand_view self.new ≡ let_go page (hand_view self.old) }
        ensures room { (pages n : ℕ) → HandRoom pages n self.old → HandRoom pages n self.new }
    {
        self.held.erase(page);
    }

    /// Has claimed an index of a set.
    pub fn claim_cell(&mut self, claim: Claimed)
        ensures view { hand_view self.new ≡ claim_cell claim.set claim.index claim.page (hand_view self.old) }
        ensures room { (pages n : ℕ) → HandRoom pages n self.old → HandRoom pages n self.new }
    {
        self.claimed = Some(claim);
    }

    /// Has filled its claim with a span, which it holds no more.
    pub fn fill_cell(&mut self, page: u32)
        ensures view { hand_view self.new ≡ fill_cell page (hand_view self.old) }
        ensures room { (pages n : ℕ) → HandRoom pages n self.old → HandRoom pages n self.new }
    {
        self.let_go(page);
        self.claimed = None;
    }

    /// Drops a popped entry.
    pub fn drop_entry(&mut self, page: u32)
        ensures view { hand_view self.new ≡ drop_entry page (hand_view self.old) }
        ensures room { (pages n : ℕ) → HandRoom pages n self.old → HandRoom pages n self.new }
    {
        self.popped.erase(page);
    }

    /// Forgets what it swept.
    pub fn forget_swept(&mut self)
        ensures { self.new ≡ without_swept 0 self.old }
    {
        self.swept.clear();
    }

    /// Whether it neither sweeps nor holds nor has popped a page.
    pub fn is_idle(&self) -> bool
        ensures { result ≡ no_pages (hand_view self.now) }
    {
        self.sweeping.is_empty() && self.held.is_empty() && self.popped.is_empty()
    }

    /// Makes room for so many entries in each list.
    pub fn reserve_all(&mut self, room: usize) -> Result<(), NoMemory>
        ensures view { hand_view self.new ≡ hand_view self.old }
        ensures ok { OnOk result ((pages n : ℕ) → HandRoom pages n self.old → HandRoom pages room self.new) }
        ensures room { (pages n : ℕ) → HandRoom pages n self.old → HandRoom pages n self.new }
    {
        self.sweeping.reserve(room)?;
        self.held.reserve(room)?;
        self.cached.reserve(room)?;
        self.popped.reserve(room)?;
        self.pulled.reserve(room)?;
        self.swept.reserve(room)
    }

    /// Makes room for one span more that it holds.
    pub fn reserve_held(&mut self) -> Result<(), NoMemory>
        ensures view { hand_view self.new ≡ hand_view self.old }
        ensures held { OnOk result (length self.new.held.items < self.new.held.space) }
        ensures full { OnErr result (self.old.held.space ≤ length self.old.held.items) }
        ensures room { (pages n : ℕ) → HandRoom pages n self.old → HandRoom pages n self.new }
    {
        self.held.reserve_one()
    }

    /// Holds a span, for which there is room.
    pub fn take_hold(&mut self, page: u32)
        requires { length self.old.held.items < self.old.held.space }
        ensures view { hand_view self.new ≡ hold page (hand_view self.old) }
        ensures room { (pages n : ℕ) → HandRoom pages n self.old → HandRoom pages n self.new }
    {
        self.held.push(page);
    }

    /// Makes room for so many pulled pages.
    pub fn reserve_pulled(&mut self, count: usize) -> Result<(), NoMemory>
        ensures view { hand_view self.new ≡ hand_view self.old }
        ensures pulled { OnOk result (count ≤ self.new.pulled.space) }
        ensures full { OnErr result (self.old.pulled.space < count) }
        ensures room { (pages n : ℕ) → HandRoom pages n self.old → HandRoom pages n self.new }
    {
        self.pulled.reserve(count)
    }

    /// Has pulled pages, for which there is room, where it had none.
    pub fn pull_pages(&mut self, pages: &[u32])
        requires none { self.old.pulled.items ≡ [] }
        requires space { length pages.now ≤ self.old.pulled.space }
        ensures view { hand_view self.new ≡ pull_pages pages.now (hand_view self.old) }
        ensures room { (pages n : ℕ) → HandRoom pages n self.old → HandRoom pages n self.new }
    {
        self.pulled.extend(pages);
    }

    /// Holds a span of pages that it had pulled.
    pub fn cut_span(&mut self, page: u32, pages: u32)
        requires run { page + pages < 2 ^ 32 }
        requires held { length self.old.held.items < self.old.held.space }
        ensures view { hand_view self.new ≡ cut_span page pages (hand_view self.old) }
        ensures room { (pages n : ℕ) → HandRoom pages n self.old → HandRoom pages n self.new }
    {
        self.held.push(page);
        self.pulled.erase_run(page, pages);
    }

    /// Has pulled nothing.
    pub fn drop_pulled(&mut self)
        ensures view { hand_view self.new ≡ drop_pulled (hand_view self.old) }
        ensures room { (pages n : ℕ) → HandRoom pages n self.old → HandRoom pages n self.new }
    {
        self.pulled.clear();
    }

    /// Makes room for the end of a sweep.
    pub fn reserve_end(&mut self) -> Result<(), NoMemory>
        ensures view { hand_view self.new ≡ hand_view self.old }
        ensures held { OnOk result (length self.new.held.items < self.new.held.space) }
        ensures swept { OnOk result (length self.new.swept.items < self.new.swept.space) }
        ensures full { OnErr result ((self.old.held.space ≤ length self.old.held.items) ⊎ (self.old.swept.space ≤ length self.old.swept.items)) }
        ensures room { (pages n : ℕ) → HandRoom pages n self.old → HandRoom pages n self.new }
    {
        self.held.reserve_one()?;
        self.swept.reserve_one()
    }

    /// Ends the sweep of a span and holds it.
    pub fn end_sweep(&mut self, page: u32)
        requires held { length self.old.held.items < self.old.held.space }
        requires swept { length self.old.swept.items < self.old.swept.space }
        ensures view { hand_view self.new ≡ end_sweep page (hand_view self.old) }
        ensures room { (pages n : ℕ) → HandRoom pages n self.old → HandRoom pages n self.new }
    {
        self.sweeping.erase(page);
        self.held.push(page);
        self.swept.push(page);
    }
}

// Two lists without entries, with tables of so many pages.
fn two_lists(alloc: Global, pages: u32) -> Result<(Numbers, Numbers), NoMemory>
    ensures first { IfOk result (λ lists. lists.0 ≡ record { items = []; space = 0; reach = pages }) }
    ensures second { IfOk result (λ lists. lists.1 ≡ record { items = []; space = 0; reach = pages }) }
{
    let first = Numbers::with_table(alloc, pages)?;
    let second = Numbers::with_table(alloc, pages)?;
    Ok((first, second))
}

// A page leaves a list for another one. It fails only where there is no room.
fn pass_on(source: &mut Numbers, target: &mut Numbers, page: u32) -> Result<(), NoMemory>
    // the page
    ensures left { OnOk result (source.new.items ≡ erase page source.old.items) }
    ensures come { OnOk result (target.new.items ≡ target.old.items ++ page ∷ []) }

    // the bounds and the room of the lists
    ensures source_reach { source.new.reach ≡ source.old.reach }
    ensures source_space { source.new.space ≡ source.old.space }
    ensures target_reach { target.new.reach ≡ target.old.reach }
    ensures grows { target.old.space ≤ target.new.space }

    // where there is no room
    ensures full { OnErr result (target.old.space ≤ length target.old.items) }
    ensures source_err { OnErr result (source.new ≡ source.old) }
    ensures target_err { OnErr result (target.new ≡ target.old) }
{
    target.add(page)?;
    source.erase(page);
    Ok(())
}
