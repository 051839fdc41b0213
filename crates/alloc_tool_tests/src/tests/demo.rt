//! The word `demo`. The sampled objects of its lines were counted by a program that was written apart.

use super::*;

// The words, and the lines.
const ROWS: &[(&str, &str)] = &[
    (
        "1",
        "objects 1\nplaced 1\nrefused 0\nmark ends 0\nmallocs 1\nfrees 0\nsampled 0 0\ncheck ok\n",
    ),
    (
        "10000",
        "objects 10000\nplaced 10000\nrefused 0\nmark ends 1\nmallocs 10000\nfrees 5000\nsampled 37 32\ncheck ok\n",
    ),
    (
        "100000",
        "objects 100000\nplaced 100000\nrefused 0\nmark ends 10\nmallocs 100000\nfrees 95000\nsampled 341 332\ncheck ok\n",
    ),
];

// A made trace is summed up, and nothing is read.
#[test]
fn made_traces_are_summed_up(rt: HostRuntime) -> Result<(), Fail> {
    for &(objects, lines) in ROWS {
        // A read would fail.
        let words = ["demo", "1", objects];
        expect(
            &rt,
            objects,
            &words,
            b"goheap 1\n",
            failing(&[0], &[]),
            answered(lines),
        )?;
    }
    let wanted = refused(6, "goheap: write fault\n");
    expect(
        &rt,
        "",
        &["demo", "1", "1"],
        b"",
        failing(&[], &[0]),
        wanted,
    )
}
