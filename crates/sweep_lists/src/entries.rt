//! A plain list with room. All lists of a core stand on it: to put something in never takes memory within the room, and where
//! there is none the list stays as it was.

ghost use Rattle.std.specs.Prelude.{◌≡◌, ◌<◌, ◌≤◌, ◌==◌, nat_lt, [], ◌∷◌, ◌++◌, length, map, OnOk, OnErr, ◌^◌};
ghost use Rattle.std.specs.List.{position};
ghost use Rattle.sweep_laws.specs.ChangesOfLives.{marks_at};
ghost use Rattle.sweep_laws.specs.Lists.{has, erase, put_cell};

use fallible_list::NoMemory;
use span_state::Marks;
use std::alloc::Global;
use std::marker::Model;

/// A list of items with room for more: what is put in within the room takes no memory.
#[derive(Debug, Drop)]
pub struct Entries<T> {
    items: Vec<T>,
    space: usize,
}

impl<T> Model for Entries<T> {
    ghost use Rattle.std.specs.Prelude.{◌≤◌, vec_capacity};
    ghost use Rattle.sweep_lists.specs.Room.{Roomy};

    ghost Value = { Roomy T };

    ghost view = { λ entries. record { items = entries.items.items; space = entries.space } };

    ghost invariant = { λ entries. entries.space ≤ vec_capacity entries.items };
}

impl<T> Entries<T> {
    /// No items, and no room.
    pub fn new(alloc: Global) -> Self
        ensures { result ≡ record { items = []; space = 0 } }
    {
        Entries {
            items: Vec::new(alloc),
            space: 0,
        }
    }

    /// The items.
    pub fn as_slice(&self) -> &[T]
        ensures { result.now ≡ self.now.items }
    {
        self.items.as_slice()
    }

    /// The number of items.
    pub fn len(&self) -> usize
        ensures { result ≡ length self.now.items }
    {
        self.items.len()
    }

    /// Whether there are no items.
    pub fn is_empty(&self) -> bool
        ensures { result ≡ (length self.now.items == 0) }
    {
        self.items.is_empty()
    }

    // Whether there is room for one item more.
    #[inline(always)]
    pub(crate) fn has_room(&self) -> bool
        ensures { result ≡ nat_lt (length self.now.items) self.now.space }
    {
        self.items.len() < self.space
    }

    /// Makes room for `space` items at least. It fails only where there is less room.
    pub fn reserve(&mut self, space: usize) -> Result<(), NoMemory>
        ensures items { self.new.items ≡ self.old.items }
        ensures grows { self.old.space ≤ self.new.space }
        ensures ok { OnOk result (space ≤ self.new.space) }
        ensures full { OnErr result (self.old.space < space) }
        ensures err { OnErr result (self.new ≡ self.old) }
    {
        if self.space < space {
            self.items.reserve(space.saturating_sub(self.items.len()))?;
            self.space = space;
        }
        Ok(())
    }

    /// Makes room for one item more. It fails only where there is no room.
    pub fn reserve_one(&mut self) -> Result<(), NoMemory>
        ensures items { self.new.items ≡ self.old.items }
        ensures grows { self.old.space ≤ self.new.space }
        ensures ok { OnOk result (length self.new.items < self.new.space) }
        ensures full { OnErr result (self.old.space ≤ length self.old.items) }
        ensures err { OnErr result (self.new ≡ self.old) }
    {
        let space = self.items.len() + 1;
        self.reserve(space)
    }

    /// Takes all items out.
    pub fn clear(&mut self)
    where
        T: Drop,
        ensures { self.new ≡ record self.old { items = [] } }
    {
        self.items.clear();
    }
}

impl<T: Drop> Entries<T> {
    /// Puts an item at the end.
    pub fn push(&mut self, item: T)
        requires { length self.old.items < self.old.space }
        ensures { self.new ≡ record self.old { items = self.old.items ++ item ∷ [] } }
    {
        self.items.push_reserved(item);
    }
}

impl Entries<u32> {
    /// Whether a number is among the items.
    pub fn has(&self, item: u32) -> bool
        ensures { result ≡ has item self.now.items }
    {
        self.items.contains(&item)
    }

    /// Takes out the first place of a number, if it is there.
    pub fn erase(&mut self, item: u32)
        ensures { self.new ≡ record self.old { items = erase item self.old.items } }
    {
        if let Some(index) = index_of(&self.items, item) {
            let _ = self.items.remove(index);
        }
    }

    /// Has the items of a slice in place of its own.
    pub fn copy_from(&mut self, items: &[u32])
        requires { length items.now ≤ self.old.space }
        ensures { self.new ≡ record self.old { items = items.now } }
    {
        self.items.clear();
        let _ = self.items.extend_from_slice(items);
    }

    // Has the second parts of pairs in place of its own.
    pub(crate) fn copy_seconds(&mut self, pairs: &[(u32, u32)])
        requires { length pairs.now ≤ self.old.space }
        ensures { self.new ≡ record self.old { items = map (λ pair. pair.1) pairs.now } }
    {
        let _ = self.items.resize(pairs.len(), 0);
        put_seconds(&mut self.items, pairs);
    }

    // Has the marked indices of a page in place of its own.
    pub(crate) fn copy_marked(&mut self, marks: &Marks, page: u32)
        requires { length (marks_at page marks.now.pairs) ≤ self.old.space }
        ensures { self.new ≡ record self.old { items = marks_at page marks.now.pairs } }
    {
        marks.copy_indices(page, &mut self.items);
    }
}

impl Entries<u64> {
    /// Puts a number at an index, with zeros between the end and that index. It fails only where there is no room.
    pub fn put_cell(&mut self, index: usize, cell: u64) -> Result<(), NoMemory>
        requires { index < 2 ^ 63 }
        ensures ok { OnOk result (self.new.items ≡ put_cell self.old.items index cell) }
        ensures err { OnErr result (self.new ≡ self.old) }
        ensures full { OnErr result (self.old.space ≤ index) }
        ensures grows { self.old.space ≤ self.new.space }
    {
        if index < self.items.len() {
            self.items[index] = cell;
            return Ok(());
        }
        self.reserve(index + 1)?;
        let _ = self.items.resize(index, 0);
        let _ = self.items.push(cell);
        Ok(())
    }
}

// The first index of a number.
fn index_of(items: &[u32], item: u32) -> Option<usize>
    ensures { result ≡ position (λ x. x == item) items.now }
{
    items.iter().position(|&x| x == item)
}

// Each place gets the second part of the pair of its number.
fn put_seconds(places: &mut [u32], pairs: &[(u32, u32)])
    requires { length places.old ≡ length pairs.now }
    ensures { places.new ≡ map (λ pair. pair.1) pairs.now }
{
    for k in 0..pairs.len() {
        places[k] = pairs[k].1;
    }
}
