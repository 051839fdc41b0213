use crate::{
    GENERATION, LOCK, NEXT_CHUNK, SETS, SPENT_BYTES, SWEPT_PAGES, WORKERS, event_word, head_of,
    head_tail, page_word, set_word, tail_of,
};

// The blocks of a region of one chunk, and of the largest one: each begins behind the one before it.
#[test]
fn blocks(rt: HostRuntime) {
    assert_eq!(rt;
        [LOCK, GENERATION, SWEPT_PAGES, SPENT_BYTES, NEXT_CHUNK],
        [0, 1, 2, 3, 4]
    );
    assert_eq!(rt; [event_word(0), event_word(WORKERS - 1)], [5, 74]);
    assert_eq!(rt;
        [page_word(0), page_word(511), page_word(2097151)],
        [75, 586, 2097226]
    );
    assert_eq!(rt; [set_word(1, 0), set_word(1, SETS - 1)], [587, 1130]);
    assert_eq!(rt; [set_word(128, 0), set_word(128, SETS - 1)], [65611, 66154]);
    assert_eq!(rt;
        [set_word(4096, 0), set_word(4096, SETS - 1)],
        [2097227, 2097770]
    );
}

// The tail is in the low half of a set's word, the head in the high one.
#[test]
fn halves(rt: HostRuntime) {
    assert_eq!(rt;
        [head_tail(0, 0), head_tail(0, 3), head_tail(1, 2)],
        [0, 3, 4294967298]
    );
    assert_eq!(rt; head_tail(u32::MAX, u32::MAX), u64::MAX);
    assert_eq!(rt; [head_of(4294967298), tail_of(4294967298)], [1, 2]);
    assert_eq!(rt;
        [head_of(u64::MAX), tail_of(u64::MAX)],
        [u32::MAX, u32::MAX]
    );
}
