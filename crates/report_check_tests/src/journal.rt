//! Rule 2.

use crate::tests::Row;

pub(crate) const ROWS: [Row; 34] = [
    // Rule 2: a Take that is not at first fit, or of no span's size.
    (
        "a 0 24 s 1\n",
        512,
        "o 0 0xc000000000\nj 0 0 take 1 1 6\n",
        Some((2, 2)),
    ),
    (
        "a 0 24 s 1\n",
        512,
        "o 0 0xc000000000\nj 0 0 take 4294967295 1 6\n",
        Some((2, 2)),
    ),
    (
        "a 0 24 s 1\n",
        512,
        "o 0 0xc000000000\nj 0 0 take 0 2 6\n",
        Some((2, 2)),
    ),
    (
        "a 0 24 s 1\n",
        512,
        "o 0 0xc000000000\nj 0 0 take 0 0 6\n",
        Some((2, 2)),
    ),
    (
        "a 0 24 s 1\n",
        512,
        "o 0 0xc000000000\nj 0 0 take 0 1 136\n",
        Some((2, 2)),
    ),
    (
        "a 0 24 s 1\n",
        512,
        "o 0 0xc000000000\nj 0 0 take 0 1 255\n",
        Some((2, 2)),
    ),
    (
        "a 0 24 s 1\n",
        512,
        "o 0 0xc000000000\nj 0 0 take 0 4 0\n",
        Some((2, 2)),
    ),
    (
        "a 0 24 s 1\n",
        512,
        "o 0 0xc000000000\nj 0 0 take 0 513 1\n",
        Some((2, 2)),
    ),
    (
        "a 0 24 s 1\n",
        512,
        "o 0 0xc000000000\nj 0 0 take 0 1 6\nj 1 0 take 0 1 6\n",
        Some((2, 3)),
    ),
    (
        "a 0 24 s 1\n",
        512,
        "o 0 0xc000000000\nj 0 0 take 0 1 6\nj 1 0 take 2 1 6\n",
        Some((2, 3)),
    ),
    (
        "a 0 24 s 1\n",
        512,
        "o 0 0xc000000000\nj 0 0 take 1 1 6\nj 1 0 take 1 1 6\n",
        Some((2, 2)),
    ),
    // Rule 2: a Miss where a run is free, or of no pages.
    (
        "a 0 24 s 1\n",
        512,
        "o 0 0xc000000000\nj 0 0 miss 1 6\n",
        Some((2, 2)),
    ),
    (
        "a 0 24 s 1\n",
        512,
        "o 0 0xc000000000\nj 0 0 take 0 1 6\nj 1 0 miss 511 6\n",
        Some((2, 3)),
    ),
    (
        "a 0 24 s 1\n",
        512,
        "o 0 0xc000000000\nj 0 0 miss 0 6\n",
        Some((2, 2)),
    ),
    // Rule 2: a Give of no span, of other pages, or of a span that was given.
    (
        "a 0 24 s 1\n",
        512,
        "o 0 0xc000000000\nj 0 0 give 0 1\n",
        Some((2, 2)),
    ),
    (
        "a 0 24 s 1\n",
        512,
        "o 0 0xc000000000\nj 0 0 take 0 1 6\nj 1 0 give 0 2\n",
        Some((2, 3)),
    ),
    (
        "a 0 24 s 1\n",
        512,
        "o 0 0xc000000000\nj 0 0 take 0 1 6\nj 1 0 give 0 0\n",
        Some((2, 3)),
    ),
    (
        "a 0 24 s 1\n",
        512,
        "o 0 0xc000000000\nj 0 0 take 0 5 0\nj 1 0 give 1 4\n",
        Some((2, 3)),
    ),
    (
        "a 0 24 s 1\n",
        512,
        "o 0 0xc000000000\nj 0 0 take 0 1 6\nj 1 0 give 512 1\n",
        Some((2, 3)),
    ),
    (
        "a 0 24 s 1\n",
        512,
        "o 0 0xc000000000\nj 0 0 take 0 1 6\nj 1 0 give 4294967295 4294967295\n",
        Some((2, 3)),
    ),
    (
        "a 0 24 s 1\n",
        512,
        "o 0 0xc000000000\nj 0 0 take 0 1 6\nj 1 0 give 0 1\nj 2 0 give 0 1\n",
        Some((2, 4)),
    ),
    // Rule 2: a Scav at or below the goal, of a span's pages, or of another run.
    (
        "a 0 24 s 1\n",
        512,
        "o 0 0xc000000000\nj 0 0 take 0 1 6\nj 1 0 give 0 1\nj 2 0 scav 0 1\n",
        Some((2, 4)),
    ),
    (
        "a 0 24 s 1\n",
        1,
        "o 0 0xc000000000\nj 0 0 take 0 1 6\nj 1 0 give 0 1\nj 2 0 scav 0 1\n",
        Some((2, 4)),
    ),
    (
        "a 0 24 s 1\n",
        0,
        "o 0 0xc000000000\nj 0 0 take 0 1 6\nj 1 0 scav 0 1\n",
        Some((2, 3)),
    ),
    (
        "a 0 24 s 1\n",
        0,
        "o 0 0xc000000000\nj 0 0 take 0 1 6\nj 1 0 give 0 1\nj 2 0 scav 0 2\n",
        Some((2, 4)),
    ),
    (
        "a 0 24 s 1\n",
        0,
        "o 0 0xc000000000\nj 0 0 take 0 1 6\nj 1 0 give 0 1\nj 2 0 scav 0 1\nj 3 0 scav 0 1\n",
        Some((2, 5)),
    ),
    (
        "a 0 24 s 1\n",
        0,
        "o 0 0xc000000000\nj 0 0 take 0 1 6\nj 1 0 take 1 1 6\nj 2 0 give 0 1\nj 3 0 give 1 1\nj 4 0 scav 1 1\n",
        Some((2, 6)),
    ),
    // Rule 2: cycles that fall, or are beyond the last.
    (
        "a 0 24 s 1\n",
        512,
        "o 0 0xc000000000\nj 0 1 take 0 1 6\n",
        Some((2, 2)),
    ),
    (
        "a 0 24 s 1\n",
        512,
        "o 0 0xc000000000\nj 0 0 take 0 1 6\nj 1 4294967295 take 1 1 6\n",
        Some((2, 3)),
    ),
    (
        "a 0 24 s 1\ngc 1\n",
        512,
        "o 0 0xc000000000\nj 0 1 take 0 1 6\nj 1 0 take 1 1 6\n",
        Some((2, 3)),
    ),
    // A line of a page cache where the trace is of version 1.
    (
        "a 0 24 s 1\n",
        512,
        "o 0 0xc000000000\nj 0 0 pull 0 0 64\nj 1 0 cut 0 0 1 6\nj 2 0 drop 0 0 63\n",
        Some((2, 2)),
    ),
    (
        "a 0 24 s 1\n",
        512,
        "o 0 0xc000000000\nj 0 0 take 0 1 6\nj 1 0 cut 0 1 1 6\n",
        Some((2, 3)),
    ),
    (
        "a 0 24 s 1\n",
        512,
        "o 0 0xc000000000\nj 0 0 take 0 1 6\nj 1 0 drop 0 0 0\n",
        Some((2, 3)),
    ),
    // Rule 2 comes before rule 3.
    (
        "a 0 4194304 s 1\na 0 1 s 1\n",
        512,
        "o 0 0xc000000000\no 1 miss 0\nj 0 0 take 0 512 0\nj 1 0 give 1 1\n",
        Some((2, 4)),
    ),
];
