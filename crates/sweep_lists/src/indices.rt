//! The allocated indices of a life, with the least free one beside them. Only the methods here write the two: an index that comes
//! raises the least free one, and a sweep finds it anew.

ghost use Rattle.std.specs.Prelude.{◌≡◌, ◌<◌, ◌≤◌, ◌==◌, true, nat_lt, [], ◌∷◌, ◌++◌, length, IfOk, OnOk, OnErr};
ghost use Rattle.sweep_laws.specs.Lists.{has, least_outside};
ghost use Rattle.sweep_lists.specs.Tables.{AreMembers, IsLeastOutside};

use crate::numbers::Numbers;
use fallible_list::NoMemory;
use std::alloc::Global;
use std::marker::Model;

/// The indices of a span that are allocated, in the order in which they came, with the least one that is not.
#[derive(Debug, Drop)]
pub struct Indices {
    numbers: Numbers,
    // The least index that is not there, or u32::MAX where all below it are.
    free: u32,
}

impl Model for Indices {
    ghost use Rattle.std.specs.Prelude.{ℕ};
    ghost use Rattle.sweep_lists.specs.Room.{Tabled};
    ghost use Rattle.sweep_lists.specs.Tables.{IsLeastOutside};

    ghost Value = { Tabled ℕ };

    ghost view = { λ indices. indices.numbers };

    ghost invariant = { λ indices. IsLeastOutside indices.free indices.numbers.items };
}

impl Indices {
    /// No indices, no room, and no table.
    pub fn new(alloc: Global) -> Self
        ensures { result ≡ record { items = []; space = 0; reach = 0 } }
    {
        Indices {
            numbers: Numbers::new(alloc),
            free: 0,
        }
    }

    /// No indices and no room, with a table of the indices below `bound`.
    pub fn with_table(alloc: Global, bound: u32) -> Result<Self, NoMemory>
        ensures { IfOk result (λ indices. indices ≡ record { items = []; space = 0; reach = bound }) }
    {
        Ok(Indices {
            numbers: Numbers::with_table(alloc, bound)?,
            free: 0,
        })
    }

    /// The indices.
    pub fn as_slice(&self) -> &[u32]
        ensures { result.now ≡ self.now.items }
    {
        self.numbers.as_slice()
    }

    /// How many indices there are.
    pub fn len(&self) -> usize
        ensures { result ≡ length self.now.items }
    {
        self.numbers.len()
    }

    /// Whether there are no indices.
    pub fn is_empty(&self) -> bool
        ensures { result ≡ (length self.now.items == 0) }
    {
        self.numbers.is_empty()
    }

    /// Whether an index is there: one look into the table where the index is below its bound.
    pub fn has(&self, index: u32) -> bool
        ensures { result ≡ has index self.now.items }
    {
        self.numbers.has(index)
    }

    /// The least index below `count` that is not there. It is kept, and not looked for.
    pub fn least_free(&self, count: u32) -> Option<u32>
        ensures { result ≡ least_outside self.now.items count }
    {
        if self.free < count {
            Some(self.free)
        } else {
            None
        }
    }

    // Whether there is room for one index more.
    #[inline(always)]
    pub(crate) fn has_room(&self) -> bool
        ensures { result ≡ nat_lt (length self.now.items) self.now.space }
    {
        self.numbers.has_room()
    }

    /// Makes room for `space` indices at least. It fails only where there is less room.
    pub fn reserve(&mut self, space: usize) -> Result<(), NoMemory>
        ensures items { self.new.items ≡ self.old.items }
        ensures reach { self.new.reach ≡ self.old.reach }
        ensures grows { self.old.space ≤ self.new.space }
        ensures ok { OnOk result (space ≤ self.new.space) }
        ensures full { OnErr result (self.old.space < space) }
        ensures err { OnErr result (self.new ≡ self.old) }
    {
        self.numbers.reserve(space)
    }

    /// Makes room for one index more. It fails only where there is no room.
    pub fn reserve_one(&mut self) -> Result<(), NoMemory>
        ensures items { self.new.items ≡ self.old.items }
        ensures reach { self.new.reach ≡ self.old.reach }
        ensures grows { self.old.space ≤ self.new.space }
        ensures ok { OnOk result (length self.new.items < self.new.space) }
        ensures full { OnErr result (self.old.space ≤ length self.old.items) }
        ensures err { OnErr result (self.new ≡ self.old) }
    {
        self.numbers.reserve_one()
    }

    /// Puts an index at the end.
    pub fn push(&mut self, index: u32)
        requires { length self.old.items < self.old.space }
        ensures { self.new ≡ record self.old { items = self.old.items ++ index ∷ [] } }
    {
        self.numbers.push(index);
        if index == self.free {
            raise(&mut self.free, &self.numbers);
        }
    }

    /// Has the indices of a slice in place of its own.
    pub fn copy_from(&mut self, indices: &[u32])
        requires { length indices.now ≤ self.old.space }
        ensures { self.new ≡ record self.old { items = indices.now } }
    {
        self.numbers.copy_from(indices);
        self.free = first_outside(&self.numbers, self.numbers.told());
    }
}

// The least number that was not there came: mostly the next one is the least now.
#[inline(always)]
fn raise(free: &mut u32, numbers: &Numbers)
    requires below { AreMembers free.old numbers.now.items }
    requires came { has free.old numbers.now.items ≡ true }
    ensures { IsLeastOutside free.new numbers.now.items }
{
    let came = *free;
    if came < u32::MAX && numbers.tells_free(came + 1) {
        *free = came + 1;
    } else {
        raise_on(free, numbers);
    }
}

// The same where it is another one.
#[inline(never)]
fn raise_on(free: &mut u32, numbers: &Numbers)
    requires { AreMembers free.old numbers.now.items }
    ensures { IsLeastOutside free.new numbers.now.items }
{
    *free = first_outside(numbers, *free);
}

// The first number from `start` on that is not there, or u32::MAX where all below it are.
fn first_outside(numbers: &Numbers, start: u32) -> u32
    requires { AreMembers start numbers.now.items }
    ensures { IsLeastOutside result numbers.now.items }
{
    let free = numbers.skip_told(start);
    if numbers.reaches(free) {
        free
    } else {
        first_beyond(numbers, free)
    }
}

// The same behind the table.
#[inline(never)]
fn first_beyond(numbers: &Numbers, start: u32) -> u32
    requires { AreMembers start numbers.now.items }
    ensures { IsLeastOutside result numbers.now.items }
{
    let mut free = start;
    while free < u32::MAX && numbers.has(free) {
        free += 1;
    }
    free
}
