//! Where the cells of the sets of spans stand in the shared table: in blocks of 512 cells behind a spine of entries for each set.
//!
//! The region has 512 pages for each of its chunks, of which there are at most 4096. Behind the words of the lock, the generation, the
//! counters, the workers and the pages stand a word for each set of spans, the number of blocks drawn of each part, the spine of each
//! set, and the blocks of part 0 and of part 1. The sets that are swept have one part, and those that are not have the other. An entry
//! is 0, or 1 plus the number of a block of its set's part; the cell of index i of a set is cell `i % 512` of the block that entry
//! `i / 512` of its spine names (`spanSet` of `mspanset.go` has such a spine and such blocks; that they have words of one table is
//! ours). No call takes memory.
#![tactic(auto)]

mod blocks;
mod parts;
mod places;
#[cfg(test)]
mod tests;

pub use blocks::{blocks_for, part_blocks};
pub use parts::{BLOCK_CELLS, CHUNK_PAGES, Layout, MAX_CHUNKS, PART_SETS, PARTS, SETS, SPARES};
pub use places::{cell_word, entry_word, layout, names_have_their_own_words};
