use crate::{
    BLOCK_CELLS, Layout, MAX_CHUNKS, PARTS, SETS, blocks_for, cell_word, entry_word, layout,
    part_blocks,
};

// The parts of a region of one chunk, and of the largest one, worked out by hand.
#[test]
fn parts(rt: HostRuntime) {
    assert_eq!(rt;
        layout(1),
        Layout {
            set_words: 587,
            drawn: 1131,
            spines: 1133,
            cells: 1677,
            words: 353933,
        }
    );
    assert_eq!(rt;
        layout(MAX_CHUNKS),
        Layout {
            set_words: 2097227,
            drawn: 2097771,
            spines: 2097773,
            cells: 4325997,
            words: 13064813,
        }
    );
    assert_eq!(rt; [part_blocks(1), part_blocks(128)], [344, 598]);
    assert_eq!(rt; part_blocks(MAX_CHUNKS), 8534);
}

// The largest region has 2228224 words of spines and 8738816 of cells, which are 69910528 bytes.
#[test]
fn largest(rt: HostRuntime) {
    let parts = layout(4096);
    assert_eq!(rt; parts.cells - parts.spines, 2228224);
    assert_eq!(rt; parts.words - parts.cells, 8738816);
    assert_eq!(rt; 8 * (parts.words - parts.cells), 69910528);
}

// The first and the last words of spines and blocks.
#[test]
fn corners(rt: HostRuntime) {
    assert_eq!(rt;
        [
            entry_word(1, 0, 0),
            entry_word(1, 1, 0),
            entry_word(1, SETS - 1, 0)
        ],
        [1133, 1134, 1676]
    );
    assert_eq!(rt;
        [
            entry_word(4096, 0, 4095),
            entry_word(4096, 1, 0),
            entry_word(4096, 543, 4095)
        ],
        [2101868, 2101869, 4325996]
    );
    assert_eq!(rt;
        [
            cell_word(1, 0, 0, 0),
            cell_word(1, 0, 0, 511),
            cell_word(1, 0, 1, 0)
        ],
        [1677, 2188, 2189]
    );
    assert_eq!(rt;
        [
            cell_word(1, 0, 343, 511),
            cell_word(1, 1, 0, 0),
            cell_word(1, 1, 343, 511)
        ],
        [177804, 177805, 353932]
    );
    assert_eq!(rt;
        cell_word(MAX_CHUNKS, PARTS - 1, 8533, BLOCK_CELLS - 1),
        13064812
    );
}

// A tail of 0 takes no block, and one of 512 takes one.
#[test]
fn tails(rt: HostRuntime) {
    assert_eq!(rt; blocks_for(&[]), 0);
    assert_eq!(rt; blocks_for(&[0, 1, 511, 512, 513, 1024, 1025]), 10);
    assert_eq!(rt; blocks_for(&[u32::MAX]), 8388608);
}

// The sets of a part of one chunk, with 1024 spans in all: 271 with one span take a block each, and 753 take two.
#[test]
fn full_part(rt: HostRuntime) {
    let mut tails = [1; 272];
    tails[271] = 753;
    assert_eq!(rt; blocks_for(&tails), 273);
}
