//! The rows of words of all pages.

ghost use Rattle.std.specs.Prelude.{◌≡◌, ℕ, ◌*◌, ◌/◌, ◌%◌, ◌^◌, ◌<◌, ◌≤◌, ◌==◌, ◌&&◌, [], true, false, if◌then◌else◌, length, slice_index, bit_or, IfOk, OnOk, OnErr, MatchOption};
ghost use Rattle.span_state.specs.Groups.{clear_bit, row_of, word_of, AreRows};
ghost use Rattle.span_state.specs.Table.{table_of, ArePlaces};

use crate::row::Row;
use fallible_list::NoMemory;
use std::alloc::Global;
use std::marker::Model;

/// The rows of words of the pages up to the highest that has a mark. Only a page with a mark has a row in memory; the others take
/// eight bytes each, so that a mark at a high page costs little.
#[derive(Drop)]
pub(crate) struct Rows {
    // for each page the place of its row, from 1, or 0
    places: Vec<usize>,
    rows: Vec<Row>,
}

impl Model for Rows {
    ghost use Rattle.std.specs.Prelude.{ℕ, length, List as Items};
    ghost use Rattle.span_state.specs.Table.{table_of, ArePlaces};

    ghost Value = { Items (Items ℕ) };

    ghost view = { λ t. table_of t.places.items t.rows.items };

    ghost invariant = { λ t. ArePlaces t.places.items (length t.rows.items) };
}

impl Rows {
    /// No page has a row.
    pub(crate) fn new(alloc: Global) -> Self
        ensures { result ≡ [] }
    {
        Rows {
            places: Vec::new(alloc),
            rows: Vec::new(alloc),
        }
    }

    /// Up to how many pages there may be rows.
    pub(crate) fn len(&self) -> usize
        ensures { result ≡ length self.now }
    {
        self.places.len()
    }

    /// The row of a page, if it has one.
    #[inline]
    pub(crate) fn row(&self, page: usize) -> Option<&Row>
        ensures { MatchOption result (row_of self.now page ≡ []) (λ row. row.now ≡ row_of self.now page) }
    {
        if page >= self.places.len() {
            return None;
        }
        let place = self.places[page];
        if place == 0 {
            return None;
        }
        Some(&self.rows[place - 1])
    }

    /// Sets the bit of one of the first 1024 indices of a page, if the page has a row. Whether it has.
    #[inline]
    pub(crate) fn set_near(&mut self, page: usize, index: u32) -> bool
        requires { index < 1024 }
        ensures set { result ≡ true → (q g : ℕ) → word_of self.new q g
            ≡ (if q == page && g == index / 64 then bit_or (word_of self.old page (index / 64)) (1 * 2 ^ (index % 64) % 2 ^ 64) else word_of self.old q g) }
        ensures are { AreRows self.old → AreRows self.new }
        ensures same { result ≡ false → self.new ≡ self.old }
        ensures none { result ≡ false → row_of self.old page ≡ [] }
    {
        if page >= self.places.len() {
            return false;
        }
        let place = self.places[page];
        if place == 0 {
            return false;
        }
        self.rows[place - 1].set_near(index);
        true
    }

    /// Clears the bit of an index of a page, if the page has a row. It takes no memory.
    #[inline]
    pub(crate) fn clear(&mut self, page: usize, index: u32)
        ensures clear { (q g : ℕ) → word_of self.new q g
            ≡ (if q == page && g == index / 64 then clear_bit (word_of self.old page (index / 64)) (index % 64) else word_of self.old q g) }
        ensures are { AreRows self.old → AreRows self.new }
    {
        if page >= self.places.len() {
            return;
        }
        let place = self.places[page];
        if place == 0 {
            return;
        }
        self.rows[place - 1].clear(index);
    }

    /// Sets the word of a group of a page, which gets a row if it has none. Without memory each word stays as it was.
    pub(crate) fn put(
        &mut self,
        alloc: Global,
        page: usize,
        group: u32,
        word: u64,
    ) -> Result<(), NoMemory>
        ensures put { OnOk result ((q g : ℕ) → word_of self.new q g ≡ (if q == page && g == group then word else word_of self.old q g)) }
        ensures same { OnErr result ((q g : ℕ) → word_of self.new q g ≡ word_of self.old q g) }
        ensures are { AreRows self.old → page < 2 ^ 32 → group < 2 ^ 26 → AreRows self.new }
    {
        let place = place_of(&mut self.places, &mut self.rows, alloc, page)?;
        self.rows[place - 1].set(group, word)
    }
}

// The place of the page's row, which it gets if it has none. No word changes.
fn place_of(
    places: &mut Vec<usize>,
    rows: &mut Vec<Row>,
    alloc: Global,
    page: usize,
) -> Result<usize, NoMemory>
    requires { ArePlaces places.old.items (length rows.old.items) }
    ensures places { ArePlaces places.new.items (length rows.new.items) }
    ensures words { (q g : ℕ) → word_of (table_of places.new.items rows.new.items) q g ≡ word_of (table_of places.old.items rows.old.items) q g }
    ensures some { IfOk result (λ place. 0 < place) }
    ensures place { IfOk result (λ place. place ≡ slice_index places.new.items page) }
    ensures are { AreRows (table_of places.old.items rows.old.items) → page < 2 ^ 32 → AreRows (table_of places.new.items rows.new.items) }
{
    extend(places, page)?;
    let place = places[page];
    if place > 0 {
        return Ok(place);
    }
    rows.push(Row::new(alloc))?;
    let place = rows.len();
    places[page] = place;
    Ok(place)
}

// Makes places up to that of the page, with room for them at once. The new ones are 0.
fn extend(places: &mut Vec<usize>, page: usize) -> Result<(), NoMemory>
    ensures same { (q : ℕ) → slice_index places.new.items q ≡ slice_index places.old.items q }
    ensures reached { OnOk result (page < length places.new.items) }
    ensures few { (size : ℕ) → length places.old.items ≤ size → page < size → length places.new.items ≤ size }
{
    if page < places.len() {
        return Ok(());
    }
    let missing = page - places.len();
    places.reserve(missing.saturating_add(1))?;
    while places.len() <= page {
        places.push(0)?;
    }
    Ok(())
}
