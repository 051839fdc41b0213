//! Words that ask for a made trace or not, and the text of one.

use commands::{read_words, write_made};
use edge_io::{List, MemorySink};
use std::test::Fail;

#[test]
fn words_are_read(rt: HostRuntime) {
    // the two words, and what they ask for
    let rows = [
        ("1", "1", Some((1, 1))),
        ("0", "1000000", Some((0, 1_000_000))),
        (
            "18446744073709551615",
            "999999",
            Some((18_446_744_073_709_551_615, 999_999)),
        ),
        ("1", "0", None),
        ("1", "1000001", None),
        ("18446744073709551616", "1", None),
        ("99999999999999999999", "1", None),
        ("100000000000000000000", "1", None),
        ("01", "1", None),
        ("1", "01", None),
        ("00", "1", None),
        ("+1", "1", None),
        ("1", "-1", None),
        (" 1", "1", None),
        ("1", "1 ", None),
        ("1", "1\n", None),
        ("1.", "1", None),
        ("", "1", None),
        ("1", "", None),
        ("0x1", "1", None),
    ];
    for (seed, objects, asked) in rows {
        let wanted = read_words(seed.as_bytes(), objects.as_bytes());
        let numbers = wanted.map(|wanted| (wanted.seed, wanted.objects));
        assert_eq!(rt; numbers, asked, "{seed:?} {objects:?}");
    }
}

// The event is that of a generator that was written apart.
#[test]
fn a_made_trace_is_written(rt: HostRuntime) -> Result<(), Fail> {
    let alloc = rt.alloc();
    let Some(wanted) = read_words(b"1", b"1") else {
        return Err("the words are known".into());
    };
    let mut sink = MemorySink::new(alloc, List::new(alloc));
    assert_eq!(rt; write_made(alloc, &mut sink, wanted), Ok(()));
    let text = "goheap 1\nheap 128 procs 8 rate 524288 seed 1 goal 65536\na 6 758 s 6\nend\n";
    assert_eq!(rt; sink.held(), text.as_bytes());
    Ok(())
}
