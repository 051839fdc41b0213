//! The places of the words.

ghost use Rattle.std.specs.Prelude.{◌≡◌, ℕ, ◌<◌, ◌≤◌};
ghost use Rattle.set_blocks.specs.Names.{
  Name,
  IsName,
  SetWord,
  DrawnWord,
  EntryWord,
  CellWord,
  blocks_of,
  first_cell as cells_begin,
  first_entry as entries_begin,
  first_set as sets_begin,
  place,
  word_count,
};

use crate::blocks::part_blocks;
use crate::parts::{BLOCK_CELLS, CHUNK_PAGES, EARLIER_WORDS, Layout, MAX_CHUNKS, PARTS, SETS};

// The first word of the sets.
fn first_set(chunks: u32) -> u64
    requires { chunks ≤ MAX_CHUNKS }
    ensures { result ≡ sets_begin chunks }
{
    CHUNK_PAGES * u64::from(chunks) + EARLIER_WORDS
}

// The first entry of a spine.
fn first_entry(chunks: u32) -> u64
    requires { chunks ≤ MAX_CHUNKS }
    ensures { result ≡ entries_begin chunks }
{
    first_set(chunks) + u64::from(SETS) + u64::from(PARTS)
}

// The first cell of a block.
fn first_cell(chunks: u32) -> u64
    requires { chunks ≤ MAX_CHUNKS }
    ensures { result ≡ cells_begin chunks }
{
    first_entry(chunks) + u64::from(chunks) * u64::from(SETS)
}

/// Where the parts of the table of a region of 1 to 4096 chunks begin, and how many words it has.
pub fn layout(chunks: u32) -> Layout
    // the region
    requires some { 1 ≤ chunks }
    requires most { chunks ≤ MAX_CHUNKS }

    // where each part begins
    ensures set_words { result.set_words ≡ place chunks (SetWord 0) }
    ensures drawn { result.drawn ≡ place chunks (DrawnWord 0) }
    ensures spines { result.spines ≡ place chunks (EntryWord 0 0) }
    ensures cells { result.cells ≡ place chunks (CellWord 0 0 0) }

    // the whole table
    ensures words { result.words ≡ word_count chunks }
{
    let set_words = first_set(chunks);
    let cells = first_cell(chunks);
    Layout {
        set_words,
        drawn: set_words + u64::from(SETS),
        spines: first_entry(chunks),
        cells,
        words: cells + part_blocks(chunks) * u64::from(BLOCK_CELLS * PARTS),
    }
}

/// The word of an entry of a set's spine, whose number is below that of the chunks: it holds 0, or 1 plus the number of a block. Cells
/// of the set from `512 * entry` on are in that block.
pub fn entry_word(chunks: u32, set: u32, entry: u32) -> u64
    requires chunks { chunks ≤ MAX_CHUNKS }
    requires set { set < SETS }
    requires entry { entry < chunks }
    ensures { result ≡ place chunks (EntryWord set entry) }
{
    u64::from(entry) + u64::from(chunks) * u64::from(set) + first_entry(chunks)
}

/// The word of a cell of a block of a part, whose index in the block is below 512: it holds 0, or 1 plus the first page of a span.
pub fn cell_word(chunks: u32, part: u32, block: u32, index: u32) -> u64
    requires chunks { chunks ≤ MAX_CHUNKS }
    requires part { part < PARTS }
    requires block { block < blocks_of chunks }
    requires index { index < BLOCK_CELLS }
    ensures { result ≡ place chunks (CellWord part block index) }
{
    let before = u64::from(block) + part_blocks(chunks) * u64::from(part);
    u64::from(index) + u64::from(BLOCK_CELLS) * before + first_cell(chunks)
}

/// Different names have different words, and each is a word of the table.
pub fn names_have_their_own_words()
    ensures once { (chunks : ℕ) (k l : Name) → IsName chunks k → IsName chunks l → place chunks k ≡ place chunks l → k ≡ l }
    ensures inside { (chunks : ℕ) (k : Name) → IsName chunks k → place chunks k < word_count chunks }
{}
