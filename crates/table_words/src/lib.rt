//! The words of the shared table of spans: where each of them is, and how a set's head and tail share one word.
//!
//! The region has 512 pages for each of its chunks, of which there are at most 4096. The table begins with the words `LOCK`, `GENERATION`,
//! `SWEPT_PAGES`, `SPENT_BYTES` and `NEXT_CHUNK`. Behind them stand a word for each worker, one for each page and one for each set of
//! spans, and then the spines and blocks with the sets' cells, whose numbers `set_blocks` has. No call takes memory.
#![tactic(auto)]

ghost use Rattle.std.specs.Prelude.{◌≡◌, ℕ, ◌+◌, ◌*◌, ◌<◌, ◌≤◌};
ghost use Rattle.table_words.specs.Names.{
  Name,
  IsName,
  EventWord,
  PageWord,
  SetWord,
  place,
  word_count,
  head_tail as halves_joined,
  head_of as head_in,
  tail_of as tail_in,
};

pub use set_blocks::SETS;
use set_blocks::{CHUNK_PAGES, MAX_CHUNKS};

#[cfg(test)]
mod tests;

/// The word of the heap lock: 0 where nobody has it, otherwise 1 plus the number of the worker that has it.
pub const LOCK: u64 = 0;

/// The word of the generation, which rises by 2 with each mark end (`mheap.sweepgen` of `mheap.go`).
pub const GENERATION: u64 = 1;

/// The word that counts the pages swept in this cycle (`mheap.pagesSwept`).
pub const SWEPT_PAGES: u64 = 2;

/// The word that counts the bytes that spans took in this cycle, for which sweeping pays (ours).
pub const SPENT_BYTES: u64 = 3;

/// The word with the next chunk to reclaim (`mheap.reclaimIndex`).
pub const NEXT_CHUNK: u64 = 4;

/// The workers that a table has words for; the last is the driver.
pub const WORKERS: u32 = 70;

// The first words of the blocks behind the five single words.
const FIRST_EVENT: u64 = 5;

const FIRST_PAGE: u64 = 75;

// The pages of a region of so many chunks.
fn pages_of(chunks: u32) -> u64
    requires { chunks ≤ MAX_CHUNKS }
    ensures { result ≡ 512 * chunks }
{
    CHUNK_PAGES * u64::from(chunks)
}

// The first word of the sets.
fn first_set(chunks: u32) -> u64
    requires { chunks ≤ MAX_CHUNKS }
    ensures { result ≡ 512 * chunks + 75 }
{
    pages_of(chunks) + FIRST_PAGE
}

/// The word that counts the allocations of a worker, whose number is at most 69.
pub fn event_word(number: u32) -> u64
    requires { number < 70 }
    ensures { (R : ℕ) → result ≡ place R (EventWord number) }
{
    u64::from(number) + FIRST_EVENT
}

/// The generation word of a page of the region.
pub fn page_word(page: u32) -> u64
    ensures { (R : ℕ) → result ≡ place R (PageWord page) }
{
    u64::from(page) + FIRST_PAGE
}

/// The word of a set of spans, with its head and its tail, in a region of so many chunks.
pub fn set_word(chunks: u32, set: u32) -> u64
    requires chunks { chunks ≤ MAX_CHUNKS }
    requires set { set < 544 }
    ensures { result ≡ place (512 * chunks) (SetWord set) }
{
    u64::from(set) + first_set(chunks)
}

/// The word of a set with this head and this tail: the tail in the low 32 bits, the head in the high ones (`headTailIndex` of
/// `mspanset.go`).
pub fn head_tail(head: u32, tail: u32) -> u64
    ensures { result ≡ halves_joined head tail }
{
    u64::from(tail) + (1 << 32) * u64::from(head)
}

/// The head in a set's word.
pub fn head_of(word: u64) -> u32
    ensures { result ≡ head_in word }
{
    (word / (1 << 32)) as u32
}

/// The tail in a set's word.
pub fn tail_of(word: u64) -> u32
    ensures { result ≡ tail_in word }
{
    (word % (1 << 32)) as u32
}

/// Different names have different words, and each is a word of the table.
pub fn names_have_their_own_words()
    ensures once { (R : ℕ) (k l : Name) → IsName R k → IsName R l → place R k ≡ place R l → k ≡ l }
    ensures inside { (R : ℕ) (k : Name) → IsName R k → place R k < word_count R }
{}

/// The head and the tail are read back from a set's word.
pub fn a_set_word_has_a_head_and_a_tail()
    ensures head { (head tail : ℕ) → tail < 4294967296 → head_in (halves_joined head tail) ≡ head }
    ensures tail { (head tail : ℕ) → tail < 4294967296 → tail_in (halves_joined head tail) ≡ tail }
{}
