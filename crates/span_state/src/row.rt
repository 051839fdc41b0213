//! The words of one page.

ghost use Rattle.std.specs.Prelude.{◌≡◌, ℕ, ◌+◌, ◌*◌, ◌/◌, ◌%◌, ◌^◌, ◌<◌, ◌≤◌, ◌==◌, if◌then◌else◌, length, slice_index, bit_or, bit_and, OnOk, OnErr};
ghost use Rattle.span_state.specs.Groups.{clear_bit};

use fallible_list::NoMemory;
use std::alloc::Global;
use std::marker::Model;

/// A word of marks for each group of 64 indices of a page. The words of the first 16 groups lie in the row itself, and
/// those of further groups behind it, as far as one was set; the others are 0.
#[derive(Drop)]
pub(crate) struct Row {
    near: [u64; 16],
    far: Vec<u64>,
}

impl Model for Row {
    ghost use Rattle.std.specs.Prelude.{◌≡◌, ℕ, ◌++◌, length, List as Items};

    ghost Value = { Items ℕ };

    ghost view = { λ row. row.near ++ row.far.items };

    ghost invariant = { λ row. length row.near ≡ 16 };
}

impl Row {
    /// Each word is 0, and none lies behind the row.
    pub(crate) fn new(alloc: Global) -> Self
        ensures len { length result ≡ 16 }
        ensures words { (g : ℕ) → slice_index result g ≡ 0 }
    {
        Row {
            near: [0; 16],
            far: Vec::new(alloc),
        }
    }

    /// The words of the first 16 groups.
    #[inline]
    pub(crate) fn near(&self) -> &[u64; 16]
        ensures len { 16 ≤ length self.now }
        ensures words { (g : ℕ) → g < 16 → slice_index result.now g ≡ slice_index self.now g }
    {
        &self.near
    }

    /// The words of the further groups that have one, from group 16 on.
    #[inline]
    pub(crate) fn far(&self) -> &[u64]
        ensures len { length self.now ≡ 16 + length result.now }
        ensures words { (g : ℕ) → slice_index result.now g ≡ slice_index self.now (16 + g) }
    {
        self.far.as_slice()
    }

    /// The word of a group.
    pub(crate) fn word(&self, group: u32) -> u64
        ensures { result ≡ slice_index self.now group }
    {
        let group = group as usize;
        if group < 16 {
            self.near[group]
        } else if group - 16 < self.far.len() {
            self.far[group - 16]
        } else {
            0
        }
    }

    /// Sets the bit of one of the first 1024 indices.
    // The index comes whole: a shift looks at its lowest six bits alone, so that `% 64` right beside it costs nothing.
    #[inline]
    pub(crate) fn set_near(&mut self, index: u32)
        requires { index < 1024 }
        ensures set { (g : ℕ) → slice_index self.new g ≡ (if g == index / 64 then bit_or (slice_index self.old (index / 64)) (1 * 2 ^ (index % 64) % 2 ^ 64) else slice_index self.old g) }
        ensures len { length self.new ≡ length self.old }
    {
        self.near[(index / 64) as usize] |= 1 << (index % 64);
    }

    /// Clears the bit of an index. It takes no memory.
    #[inline]
    pub(crate) fn clear(&mut self, index: u32)
        ensures clear { (g : ℕ) → slice_index self.new g ≡ (if g == index / 64 then clear_bit (slice_index self.old (index / 64)) (index % 64) else slice_index self.old g) }
        ensures len { length self.new ≡ length self.old }
    {
        if index < 1024 {
            self.near[(index / 64) as usize] &= !(1 << (index % 64));
        } else {
            clear_far(&mut self.far, (index / 64) as usize - 16, index % 64);
        }
    }

    /// Sets the word of a group. Without memory each word stays as it was.
    pub(crate) fn set(&mut self, group: u32, word: u64) -> Result<(), NoMemory>
        ensures set { OnOk result ((g : ℕ) → slice_index self.new g ≡ (if g == group then word else slice_index self.old g)) }
        ensures same { OnErr result ((g : ℕ) → slice_index self.new g ≡ slice_index self.old g) }
        ensures few { (size : ℕ) → length self.old ≤ size → group < size → length self.new ≤ size }
    {
        let group = group as usize;
        if group < 16 {
            self.near[group] = word;
            return Ok(());
        }
        set_far(&mut self.far, group - 16, word)
    }
}

// Sets one of the words behind a row, which may be past the last. Without memory each word stays as it was.
#[cold]
#[inline(never)]
fn set_far(far: &mut Vec<u64>, at: usize, word: u64) -> Result<(), NoMemory>
    ensures set { OnOk result ((g : ℕ) → slice_index far.new.items g ≡ (if g == at then word else slice_index far.old.items g)) }
    ensures same { OnErr result ((g : ℕ) → slice_index far.new.items g ≡ slice_index far.old.items g) }
    ensures few { (size : ℕ) → length far.old.items ≤ size → at < size → length far.new.items ≤ size }
{
    while far.len() <= at {
        far.push(0)?;
    }
    far[at] = word;
    Ok(())
}

// Clears a bit of one of the words behind a row, if it is there.
#[cold]
#[inline(never)]
fn clear_far(far: &mut Vec<u64>, at: usize, bit: u32)
    requires { bit < 64 }
    ensures clear { (g : ℕ) → slice_index far.new.items g ≡ (if g == at then clear_bit (slice_index far.old.items at) bit else slice_index far.old.items g) }
    ensures len { length far.new.items ≡ length far.old.items }
{
    if at < far.len() {
        far[at] &= !(1 << bit);
    }
}
