ghost use Rattle.std.specs.Prelude.{◌≡◌, ◌↔◌, ℕ, ◌+◌, ◌-◌, ◌*◌, ◌^◌, ◌<◌, ◌≤◌, ◌==◌, ◌||◌, ◌&&◌, [], ◌∷◌, ◌++◌, ◌≢◌, false, not, length, min, slice_index, true, vec_capacity, IsOk, OnOk, OnErr, IfOk};
ghost use Rattle.std.specs.Int.{bit_at};
ghost use Rattle.std.specs.Int.Count.{ones};
ghost use Rattle.span_state.specs.Groups.{group_pairs, page_pairs};
ghost use Rattle.span_state.specs.MarkSet.{is_marked, marked_count, indices_at, dead_of, IsRising};

use crate::row::Row;
use crate::rows::Rows;
use fallible_list::{List, NoMemory};
use std::alloc::Global;
use std::collections::BTreeMap;
use std::marker::Model;

/// The marks of a mark end: which objects survive, and the buckets of the sampled objects that died.
///
/// They take eight bytes for each page up to the highest that has a mark, 152 more for a page that has one, and more only on
/// a page where an index of 1024 or above is marked.
#[derive(Drop)]
pub struct Marks {
    // a row of words for each page that has a mark
    rows: Rows,
    // the dead buckets of a page
    dead: BTreeMap<u32, List<u32>>,
    alloc: Global,
}

impl Model for Marks {
    ghost use Rattle.span_state.specs.MarkSet.{MarkSet};
    ghost use Rattle.span_state.specs.Groups.{pairs_of, AreRows};

    ghost Value = { MarkSet };

    ghost view = { λ m. record { pairs = pairs_of m.rows; deaths = m.dead.entries } };

    ghost invariant = { λ m. AreRows m.rows };
}

impl Marks {
    /// No marks, and no dead. The marks grow by `alloc`.
    pub fn empty(alloc: Global) -> Self
        ensures pairs { result.pairs ≡ [] }
        ensures dead { (page : ℕ) → dead_of result page ≡ [] }
    {
        Marks {
            rows: Rows::new(alloc),
            dead: BTreeMap::new(alloc),
            alloc,
        }
    }

    /// Marks the index of the page. A second time changes nothing, and takes no memory.
    #[inline]
    pub fn add(&mut self, page: u32, index: u32) -> Result<(), NoMemory>
        ensures marked { OnOk result ((q k : ℕ)
            → is_marked self.new q k ≡ (is_marked self.old q k || (q == page && k == index))) }
        ensures again { is_marked self.old page index ≡ true → IsOk result × (self.new ≡ self.old) }
        ensures rising { IsRising self.new.pairs }
        ensures dead { self.new.deaths ≡ self.old.deaths }
        ensures err { OnErr result (self.new ≡ self.old) }
    {
        if index < 1024 && self.rows.set_near(page as usize, index) {
            return Ok(());
        }
        self.add_past(page, index)
    }

    // The same where the page may have no row yet, or the index is none of the first 1024.
    #[cold]
    #[inline(never)]
    fn add_past(&mut self, page: u32, index: u32) -> Result<(), NoMemory>
        ensures marked { OnOk result ((q k : ℕ)
            → is_marked self.new q k ≡ (is_marked self.old q k || (q == page && k == index))) }
        ensures again { is_marked self.old page index ≡ true → IsOk result × (self.new ≡ self.old) }
        ensures rising { IsRising self.new.pairs }
        ensures dead { self.new.deaths ≡ self.old.deaths }
        ensures err { OnErr result (self.new ≡ self.old) }
    {
        let group = index / 64;
        let bit = 1 << (index % 64);
        let word = self.word(page, group);
        if word & bit != 0 {
            return Ok(());
        }
        self.rows.put(self.alloc, page as usize, group, word | bit)
    }

    /// Unmarks the index of the page. Where it is not marked nothing changes. It takes no memory.
    #[inline]
    pub fn remove(&mut self, page: u32, index: u32)
        ensures marked { (q k : ℕ) → is_marked self.new q k ≡ (is_marked self.old q k && not (q == page && k == index)) }
        ensures rising { IsRising self.new.pairs }
        ensures dead { self.new.deaths ≡ self.old.deaths }
    {
        self.rows.clear(page as usize, index);
    }

    /// Forgets all dead buckets.
    pub fn forget_dead(&mut self)
        ensures dead { (page : ℕ) → dead_of self.new page ≡ [] }
        ensures pairs { self.new.pairs ≡ self.old.pairs }
    {
        self.dead = BTreeMap::new(self.alloc);
    }

    /// Puts a bucket at the end of the page's dead.
    pub fn add_dead(&mut self, page: u32, bucket: u32) -> Result<(), NoMemory>
        ensures dead { OnOk result (dead_of self.new page ≡ dead_of self.old page ++ bucket ∷ []) }
        ensures others { OnOk result ((q : ℕ) → q ≢ page → dead_of self.new q ≡ dead_of self.old q) }
        ensures pairs { self.new.pairs ≡ self.old.pairs }
        ensures err { OnErr result (self.new ≡ self.old) }
    {
        if let Some(buckets) = self.dead.get_mut(&page) {
            return buckets.push(bucket);
        }
        let mut buckets = List::new(self.alloc);
        buckets.push(bucket)?;
        self.dead.insert(page, buckets)?;
        Ok(())
    }

    /// How many indices of the page are marked, or 2^32 - 1 where there are more.
    pub fn count(&self, page: u32) -> u32
        ensures count { result ≡ min (marked_count self.now page) (2 ^ 32 - 1) }
        ensures none { (result ≡ 0) ↔ ((index : ℕ) → is_marked self.now page index ≡ false) }
    {
        self.len_at(page).min(u32::MAX as usize) as u32
    }

    /// How many indices of the page are marked.
    pub fn len_at(&self, page: u32) -> usize
        ensures { result ≡ length (indices_at page self.now.pairs) }
    {
        match self.rows.row(page as usize) {
            Some(row) => marks_in(row),
            None => 0,
        }
    }

    /// Has the marked indices of the page, in rising order, in place of what is in the vector. There is room for them, and no
    /// memory is taken.
    pub fn copy_indices(&self, page: u32, indices: &mut Vec<u32>)
        requires room { length (indices_at page self.now.pairs) ≤ vec_capacity indices.old }
        ensures items { indices.new.items ≡ indices_at page self.now.pairs }
        ensures capacity { vec_capacity indices.new ≡ vec_capacity indices.old }
    {
        indices.clear();
        if let Some(row) = self.rows.row(page as usize) {
            push_indices(indices, row);
        }
    }

    /// The marks of 64 indices of the page, from index 64 * group on: the lowest bit is that of the first index.
    pub(crate) fn word(&self, page: u32, group: u32) -> u64
        ensures bits { (bit : ℕ) → bit < 64
            → (bit_at result bit == 1) ≡ is_marked self.now page (64 * group + bit) }
        ensures rising { IsRising self.now.pairs }
    {
        match self.rows.row(page as usize) {
            Some(row) => row.word(group),
            None => 0,
        }
    }

    /// Whether the index of the page is marked.
    pub fn marked(&self, page: u32, index: u32) -> bool
        ensures { result ≡ is_marked self.now page index }
    {
        self.word(page, index / 64) & (1 << (index % 64)) != 0
    }

    /// The buckets of the page's sampled objects that died, in the order in which they were added.
    pub fn dead(&self, page: u32) -> &[u32]
        ensures { result.now ≡ dead_of self.now page }
    {
        match self.dead.get(&page) {
            Some(buckets) => buckets.as_slice(),
            None => &[],
        }
    }

    /// The marked pairs of page and index, in rising order.
    // It stands alone, so that its loops have the registers.
    #[inline(never)]
    pub fn pairs(&self) -> Result<List<(u32, u32)>, NoMemory>
        ensures pairs { IfOk result (λ pairs. pairs ≡ self.now.pairs) }
        ensures rising { IsRising self.now.pairs }
    {
        let total = self.total()?;
        let mut pairs = Vec::with_capacity(self.alloc, total)?;
        for page in 0..self.rows.len() {
            if let Some(row) = self.rows.row(page) {
                push_row(&mut pairs, page as u32, row);
            }
        }
        Ok(List::from_vec(pairs))
    }

    /// That the marked pairs rise, for a caller whose proof needs it. It does nothing.
    #[inline(always)]
    pub fn rising(&self)
        ensures { IsRising self.now.pairs }
    {
        let _rows = &self.rows;
    }

    // How many pairs are marked, so that their list can get its room at once.
    fn total(&self) -> Result<usize, NoMemory>
        ensures total { IfOk result (λ total. total ≡ length self.now.pairs) }
        ensures rising { IsRising self.now.pairs }
    {
        let mut total: usize = 0;
        for page in 0..self.rows.len() {
            if let Some(row) = self.rows.row(page) {
                match total.checked_add(marks_in(row)) {
                    Some(sum) => total = sum,
                    None => return Err(NoMemory),
                }
            }
        }
        Ok(total)
    }
}

// How many indices a page's row marks.
fn marks_in(row: &Row) -> usize
    requires { length row.now ≤ 2 ^ 26 }
    ensures { (page : ℕ) → result ≡ length (page_pairs (length row.now) page (λ g. slice_index row.now g)) }
{
    let mut marks: usize = 0;
    let near = row.near();
    for group in 0..16 {
        marks += bits_in(near[group]);
    }
    let far = row.far();
    for group in 0..far.len() {
        marks += bits_in(far[group]);
    }
    marks
}

// How many bits of a word are set. Most words have none, which need not be counted.
#[inline]
fn bits_in(word: u64) -> usize
    ensures { result ≡ ones word }
{
    if word == 0 {
        0
    } else {
        word.count_ones() as usize
    }
}

// Puts the pairs that a page's row marks at the end of a list with room for them.
#[inline]
fn push_row(pairs: &mut Vec<(u32, u32)>, page: u32, row: &Row)
    requires groups { length row.now ≤ 2 ^ 26 }
    requires room { length pairs.old.items + length (page_pairs (length row.now) page (λ g. slice_index row.now g)) ≤ vec_capacity pairs.old }
    ensures items { pairs.new.items ≡ pairs.old.items ++ page_pairs (length row.now) page (λ g. slice_index row.now g) }
    ensures capacity { vec_capacity pairs.new ≡ vec_capacity pairs.old }
{
    let near = row.near();
    for group in 0..16 {
        push_group(pairs, page, group as u32, near[group]);
    }
    let far = row.far();
    for group in 0..far.len() {
        push_group(pairs, page, 16 + group as u32, far[group]);
    }
}

// Does so for one word. Many have all bits set, which need not be searched for.
#[inline]
fn push_group(pairs: &mut Vec<(u32, u32)>, page: u32, group: u32, word: u64)
    requires group { group < 2 ^ 26 }
    requires room { length pairs.old.items + length (group_pairs ((page, group), word)) ≤ vec_capacity pairs.old }
    ensures items { pairs.new.items ≡ pairs.old.items ++ group_pairs ((page, group), word) }
    ensures capacity { vec_capacity pairs.new ≡ vec_capacity pairs.old }
{
    if word == u64::MAX {
        push_all(pairs, page, group);
    } else {
        push_set(pairs, page, group, word);
    }
}

// Does so for a word with all bits set.
#[inline]
fn push_all(pairs: &mut Vec<(u32, u32)>, page: u32, group: u32)
    requires group { group < 2 ^ 26 }
    requires room { length pairs.old.items + 64 ≤ vec_capacity pairs.old }
    ensures items { pairs.new.items ≡ pairs.old.items ++ group_pairs ((page, group), 2 ^ 64 - 1) }
    ensures capacity { vec_capacity pairs.new ≡ vec_capacity pairs.old }
{
    for bit in 0..64 {
        pairs.push_reserved((page, 64 * group + bit));
    }
}

// Does so for any word, from set bit to set bit. They are counted first, since a loop of known length is unrolled.
#[inline]
fn push_set(pairs: &mut Vec<(u32, u32)>, page: u32, group: u32, word: u64)
    requires group { group < 2 ^ 26 }
    requires room { length pairs.old.items + length (group_pairs ((page, group), word)) ≤ vec_capacity pairs.old }
    ensures items { pairs.new.items ≡ pairs.old.items ++ group_pairs ((page, group), word) }
    ensures capacity { vec_capacity pairs.new ≡ vec_capacity pairs.old }
{
    let mut left = word;
    for pushed in 0..word.count_ones() {
        let bit = left.trailing_zeros();
        pairs.push_reserved((page, 64 * group + bit));
        left &= left - 1;
    }
}

// Puts the indices that a page's row marks at the end of a list with room for them.
#[inline]
fn push_indices(indices: &mut Vec<u32>, row: &Row)
    requires groups { length row.now ≤ 2 ^ 26 }
    requires room { (page : ℕ) → length indices.old.items + length (indices_at page (page_pairs (length row.now) page (λ g. slice_index row.now g))) ≤ vec_capacity indices.old }
    ensures items { (page : ℕ) → indices.new.items ≡ indices.old.items ++ indices_at page (page_pairs (length row.now) page (λ g. slice_index row.now g)) }
    ensures capacity { vec_capacity indices.new ≡ vec_capacity indices.old }
{
    let near = row.near();
    for group in 0..16 {
        push_bits(indices, group as u32, near[group]);
    }
    let far = row.far();
    for group in 0..far.len() {
        push_bits(indices, 16 + group as u32, far[group]);
    }
}

// Does so for one word, from set bit to set bit. Most words have none.
#[inline]
fn push_bits(indices: &mut Vec<u32>, group: u32, word: u64)
    requires group { group < 2 ^ 26 }
    requires room { (page : ℕ) → length indices.old.items + length (indices_at page (group_pairs ((page, group), word))) ≤ vec_capacity indices.old }
    ensures items { (page : ℕ) → indices.new.items ≡ indices.old.items ++ indices_at page (group_pairs ((page, group), word)) }
    ensures capacity { vec_capacity indices.new ≡ vec_capacity indices.old }
{
    let mut left = word;
    while left != 0 {
        let bit = left.trailing_zeros();
        indices.push_reserved(64 * group + bit);
        left &= left - 1;
    }
}
