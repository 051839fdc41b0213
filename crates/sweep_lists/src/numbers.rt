//! A list of pages or indices with a table beside it. Only the methods here write the two, always both, so that the table says
//! what the list says.

ghost use Rattle.std.specs.Prelude.{◌≡◌, ◌<◌, ◌≤◌, ◌+◌, ◌^◌, ◌==◌, ◌&&◌, ◌||◌, not, ℕ, false, true, nat_lt, [], ◌∷◌, ◌++◌, length, IfOk, OnOk, OnErr, slice_index_or};
ghost use Rattle.sweep_laws.specs.Lists.{has, erase, erase_run};
ghost use Rattle.sweep_lists.specs.Tables.{AreMembers};

use crate::entries::Entries;
use fallible_list::NoMemory;
use std::alloc::Global;
use std::marker::Model;

/// Numbers in the order in which they came, with room for more: what is put in within the room takes no memory. A
/// table tells which of the numbers below a bound are there, so that no list is scanned for them.
#[derive(Debug, Drop)]
pub struct Numbers {
    items: Entries<u32>,
    // For each number below the bound, whether it is among the items.
    seen: Vec<bool>,
    // Whether it is known that all items are below the bound. Then nothing is scanned for a number beyond it.
    within: bool,
}

impl Model for Numbers {
    ghost use Rattle.std.specs.Prelude.{ℕ};
    ghost use Rattle.sweep_lists.specs.Room.{Tabled};
    ghost use Rattle.sweep_lists.specs.Tables.{AreTold};

    ghost Value = { Tabled ℕ };

    ghost view = { λ numbers. record { items = numbers.items.items; space = numbers.items.space; reach = numbers.seen.len } };

    ghost invariant = { λ numbers. AreTold numbers.seen.items numbers.within numbers.items.items };
}

impl Numbers {
    /// No numbers, no room, and no table.
    pub fn new(alloc: Global) -> Self
        ensures { result ≡ record { items = []; space = 0; reach = 0 } }
    {
        Numbers {
            items: Entries::new(alloc),
            seen: Vec::new(alloc),
            within: true,
        }
    }

    /// No numbers and no room, with a table of the numbers below `bound`.
    pub fn with_table(alloc: Global, bound: u32) -> Result<Self, NoMemory>
        ensures { IfOk result (λ numbers. numbers ≡ record { items = []; space = 0; reach = bound }) }
    {
        let seen = vec![in alloc; false; bound as usize]?;
        Ok(Numbers {
            items: Entries::new(alloc),
            seen,
            within: true,
        })
    }

    /// The numbers.
    pub fn as_slice(&self) -> &[u32]
        ensures { result.now ≡ self.now.items }
    {
        self.items.as_slice()
    }

    /// How many numbers there are.
    pub fn len(&self) -> usize
        ensures { result ≡ length self.now.items }
    {
        self.items.len()
    }

    /// Whether there are no numbers.
    pub fn is_empty(&self) -> bool
        ensures { result ≡ (length self.now.items == 0) }
    {
        self.items.is_empty()
    }

    /// Whether a number is there: one look into the table where the number is below its bound. Beyond it the list is scanned,
    /// but not where all items are known to be below the bound.
    pub fn has(&self, item: u32) -> bool
        ensures { result ≡ has item self.now.items }
    {
        match self.seen.get(item as usize) {
            Some(seen) => *seen,
            None => !self.within && self.items.has(item),
        }
    }

    /// Whether the table tells that a number is there: it tells nothing of a number beyond its bound.
    #[inline(always)]
    pub fn tells(&self, item: u32) -> bool
        ensures { result ≡ (nat_lt item self.now.reach && has item self.now.items) }
    {
        match self.seen.get(item as usize) {
            Some(seen) => *seen,
            None => false,
        }
    }

    // Whether the table tells that a number is not there.
    #[inline(always)]
    pub(crate) fn tells_free(&self, item: u32) -> bool
        ensures { result ≡ (nat_lt item self.now.reach && not (has item self.now.items)) }
    {
        match self.seen.get(item as usize) {
            Some(seen) => !*seen,
            None => false,
        }
    }

    // Whether there is room for one number more.
    #[inline(always)]
    pub(crate) fn has_room(&self) -> bool
        ensures { result ≡ nat_lt (length self.now.items) self.now.space }
    {
        self.items.has_room()
    }

    // How many numbers from 0 on the table tells to be there. Those of a last stride that is not whole are left out.
    pub(crate) fn told(&self) -> u32
        ensures { AreMembers result self.now.items }
    {
        strides_told(&self.seen).min(u32::MAX as usize) as u32
    }

    // The first number from `start` on of which the table does not tell that it is there.
    pub(crate) fn skip_told(&self, start: u32) -> u32
        requires { AreMembers start self.now.items }
        ensures below { AreMembers result self.now.items }
        ensures stops { result < self.now.reach → result < 4294967295 → has result self.now.items ≡ false }
    {
        let seen = self.seen.as_slice();
        let bound = seen.len().min(u32::MAX as usize);
        let mut free = start as usize;
        while free < bound && seen[free] {
            free += 1;
        }
        free as u32
    }

    // Whether the table tells of a number.
    pub(crate) fn reaches(&self, item: u32) -> bool
        ensures { result ≡ nat_lt item self.now.reach }
    {
        (item as usize) < self.seen.len()
    }

    /// Makes room for `space` numbers at least. It fails only where there is less room.
    pub fn reserve(&mut self, space: usize) -> Result<(), NoMemory>
        ensures items { self.new.items ≡ self.old.items }
        ensures reach { self.new.reach ≡ self.old.reach }
        ensures grows { self.old.space ≤ self.new.space }
        ensures ok { OnOk result (space ≤ self.new.space) }
        ensures full { OnErr result (self.old.space < space) }
        ensures err { OnErr result (self.new ≡ self.old) }
    {
        self.items.reserve(space)
    }

    /// Makes room for one number more. It fails only where there is no room.
    pub fn reserve_one(&mut self) -> Result<(), NoMemory>
        ensures items { self.new.items ≡ self.old.items }
        ensures reach { self.new.reach ≡ self.old.reach }
        ensures grows { self.old.space ≤ self.new.space }
        ensures ok { OnOk result (length self.new.items < self.new.space) }
        ensures full { OnErr result (self.old.space ≤ length self.old.items) }
        ensures err { OnErr result (self.new ≡ self.old) }
    {
        self.items.reserve_one()
    }

    /// Puts a number at the end.
    pub fn push(&mut self, item: u32)
        requires { length self.old.items < self.old.space }
        ensures { self.new ≡ record self.old { items = self.old.items ++ item ∷ [] } }
    {
        self.items.push(item);
        if (item as usize) < self.seen.len() {
            self.seen[item as usize] = true;
        } else {
            self.within = false;
        }
    }

    // Puts a number at the end, with room for it. It fails only where there is no room.
    pub(crate) fn add(&mut self, item: u32) -> Result<(), NoMemory>
        ensures ok { OnOk result (self.new.items ≡ self.old.items ++ item ∷ []) }
        ensures reach { self.new.reach ≡ self.old.reach }
        ensures grows { self.old.space ≤ self.new.space }
        ensures full { OnErr result (self.old.space ≤ length self.old.items) }
        ensures err { OnErr result (self.new ≡ self.old) }
    {
        self.reserve_one()?;
        self.push(item);
        Ok(())
    }

    /// Puts the numbers of a slice at the end, for which there is room.
    pub fn extend(&mut self, items: &[u32])
        requires { length self.old.items + length items.now ≤ self.old.space }
        ensures { self.new ≡ record self.old { items = self.old.items ++ items.now } }
    {
        for &item in items {
            self.push(item);
        }
    }

    /// Takes out the first place of each of `count` numbers from `start` on.
    pub fn erase_run(&mut self, start: u32, count: u32)
        requires { start + count < 2 ^ 32 }
        ensures { self.new ≡ record self.old { items = erase_run start count self.old.items } }
    {
        for k in 0..count {
            self.erase(start + k);
        }
    }

    /// Takes all numbers out, one after the other from the front on.
    pub fn clear(&mut self)
        ensures { self.new ≡ record self.old { items = [] } }
    {
        let count = self.items.len();
        for _ in 0..count {
            let first = self.items.as_slice()[0];
            self.erase(first);
        }
    }

    /// Takes out the first place of a number, if it is there; those behind it move up. Where the table tells that it is
    /// not there, nothing is scanned.
    pub fn erase(&mut self, item: u32)
        ensures { self.new ≡ record self.old { items = erase item self.old.items } }
    {
        if self.has(item) {
            self.items.erase(item);
            if (item as usize) < self.seen.len() {
                self.seen[item as usize] = self.items.has(item);
            }
        }
    }

    /// Has the numbers of a slice in place of its own.
    pub fn copy_from(&mut self, items: &[u32])
        requires { length items.now ≤ self.old.space }
        ensures { self.new ≡ record self.old { items = items.now } }
    {
        self.items.copy_from(items);
        self.seen.fill(false);
        self.within = tell(&mut self.seen, items);
    }
}

// The table tells of some numbers that they are there. Answers whether it reaches over all of them.
fn tell(seen: &mut [bool], items: &[u32]) -> bool
    ensures told { (i : ℕ) → i < length seen.old → slice_index_or seen.new i false ≡ (slice_index_or seen.old i false || has i items.now) }
    ensures within { result ≡ true → (i : ℕ) → length seen.old ≤ i → has i items.now ≡ false }
{
    if are_below(items, seen.len()) {
        tell_within(seen, items);
        true
    } else {
        tell_all(seen, items);
        false
    }
}

// Whether all numbers are seen to be below a bound. No test stands between them, so that many are looked at at once.
fn are_below(items: &[u32], bound: usize) -> bool
    ensures { result ≡ true → (k : ℕ) → k < length items.now → slice_index_or items.now k 0 < bound }
{
    let mut top = 0;
    for &item in items {
        if top < item {
            top = item;
        }
    }
    (top as usize) < bound
}

// The table tells of some numbers, all within it, that they are there.
fn tell_within(seen: &mut [bool], items: &[u32])
    requires { (k : ℕ) → k < length items.now → slice_index_or items.now k 0 < length seen.old }
    ensures { (i : ℕ) → i < length seen.old → slice_index_or seen.new i false ≡ (slice_index_or seen.old i false || has i items.now) }
{
    for &item in items {
        seen[item as usize] = true;
    }
}

// The table tells of some numbers that they are there, of those within it.
fn tell_all(seen: &mut [bool], items: &[u32])
    ensures { (i : ℕ) → i < length seen.old → slice_index_or seen.new i false ≡ (slice_index_or seen.old i false || has i items.now) }
{
    for &item in items {
        if (item as usize) < seen.len() {
            seen[item as usize] = true;
        }
    }
}

// How many places a table has in front that all say true, in whole strides: each is looked through at once.
fn strides_told(seen: &[bool]) -> usize
    ensures bound { result ≤ length seen.now }
    ensures told { (i : ℕ) → i < result → slice_index_or seen.now i false ≡ true }
{
    let mut end = 0;
    while 32 <= seen.len() - end && !seen[end..end + 32].contains(&false) {
        end += 32;
    }
    end
}
