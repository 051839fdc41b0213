//! The words of the table, by the numbers of `table_words` and `set_blocks`.
ghost use Rattle.std.specs.Prelude.{◌≡◌, ◌*◌, ◌<◌, ◌≤◌};
ghost use Rattle.set_blocks.specs.Names.{blocks_of};
ghost use Rattle.table_words.specs.Names.{place, word_count, head_of as head_in, tail_of as tail_in, CellWord, DrawnWord, EntryWord, PageWord, SetWord};

use set_blocks::{cell_word, entry_word, layout};
use size_classes::MAX_CHUNKS;
use table_words::{head_of, page_word, set_word, tail_of};

// How many words the table of a region of so many chunks has.
pub(crate) fn count_words(chunks: u32) -> usize
    requires some { 1 ≤ chunks }
    requires few { chunks ≤ MAX_CHUNKS }
    ensures { result ≡ word_count (512 * chunks) }
{
    layout(chunks).words as usize
}

// The word of a page.
pub(crate) fn word_of_page(page: u32) -> usize
    ensures { result ≡ place 0 (PageWord page) }
{
    page_word(page) as usize
}

// The word of a set, in a region of so many chunks.
pub(crate) fn word_of_set(chunks: u32, set: u32) -> usize
    requires chunks { chunks ≤ MAX_CHUNKS }
    requires set { set < 544 }
    ensures { result ≡ place (512 * chunks) (SetWord set) }
{
    set_word(chunks, set) as usize
}

// The word with the number of blocks drawn of a part, in a region of so many chunks.
pub(crate) fn word_of_drawn(chunks: u32, part: u32) -> usize
    requires some { 1 ≤ chunks }
    requires chunks { chunks ≤ MAX_CHUNKS }
    requires part { part < 2 }
    ensures { result ≡ place (512 * chunks) (DrawnWord part) }
{
    (layout(chunks).drawn + u64::from(part)) as usize
}

// The word of an entry of a set's spine, in a region of so many chunks.
pub(crate) fn word_of_entry(chunks: u32, set: u32, entry: u32) -> usize
    requires chunks { chunks ≤ MAX_CHUNKS }
    requires set { set < 544 }
    requires entry { entry < chunks }
    ensures { result ≡ place (512 * chunks) (EntryWord set entry) }
{
    entry_word(chunks, set, entry) as usize
}

// The word of a cell of a block of a part, in a region of so many chunks.
pub(crate) fn word_of_cell(chunks: u32, part: u32, block: u32, index: u32) -> usize
    requires chunks { chunks ≤ MAX_CHUNKS }
    requires part { part < 2 }
    requires block { block < blocks_of chunks }
    requires index { index < 512 }
    ensures { result ≡ place (512 * chunks) (CellWord part block index) }
{
    cell_word(chunks, part, block, index) as usize
}

// The head and the tail in a set's word.
pub(crate) fn halves(word: u64) -> (u32, u32)
    ensures head { result.0 ≡ head_in word }
    ensures tail { result.1 ≡ tail_in word }
{
    (head_of(word), tail_of(word))
}
