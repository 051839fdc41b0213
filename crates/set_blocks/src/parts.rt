//! The parts of the table, and how large they are.

/// The chunks of the largest region.
pub const MAX_CHUNKS: u32 = 4096;

/// The pages of a chunk.
pub const CHUNK_PAGES: u64 = 512;

/// The sets of spans: four for each of the 136 span classes.
pub const SETS: u32 = 544;

/// The parts that the blocks have: one for the sets that are swept, one for those that are not.
pub const PARTS: u32 = 2;

/// The sets of a part.
pub const PART_SETS: u64 = 272;

/// The blocks of a part that workers may have drawn and not used: one for each of the 70 workers.
pub const SPARES: u64 = 70;

/// The cells of a block (`spanSetBlockEntries` of `mspanset.go`).
pub const BLOCK_CELLS: u32 = 512;

/// The words before those of the pages: the lock, the generation, three counters and a word for each worker.
pub(crate) const EARLIER_WORDS: u64 = 75;

/// The first word of each part of the table, and the number of all its words.
#[derive(Clone, Copy, Debug, PartialEq, Eq)]
pub struct Layout {
    /// The word of set 0; the other sets follow.
    pub set_words: u64,
    /// The word with the number of blocks drawn of part 0; that of part 1 follows.
    pub drawn: u64,
    /// Entry 0 of the spine of set 0; each spine has an entry for each chunk.
    pub spines: u64,
    /// Cell 0 of block 0 of part 0.
    pub cells: u64,
    /// How many words the table has.
    pub words: u64,
}
