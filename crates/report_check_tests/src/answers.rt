//! Rule 1, and reports that meet the rules 1 to 4.

use crate::tests::Row;

pub(crate) const ROWS: [Row; 23] = [
    // These meet the rules 1 to 3. Where the object sits in no life as its cycle ends, its line breaks rule 4.
    (
        "a 0 24 s 1\n",
        512,
        "o 0 0xc000000000\nj 0 0 take 0 1 6\n",
        None,
    ),
    ("", 512, "", None),
    ("a 0 0 n 1\n", 512, "o 0 zero\n", None),
    (
        "a 0 4194304 s 1\na 0 1 s 1\n",
        512,
        "o 0 0xc000000000\no 1 miss 1\nj 0 0 take 0 512 0\nj 1 0 miss 1 2\n",
        None,
    ),
    (
        "a 0 4194304 s 1\na 0 1 s 1\na 0 1 s 1\n",
        512,
        "o 0 0xc000000000\no 1 miss 2\no 2 miss 1\nj 0 0 take 0 512 0\nj 1 0 miss 1 2\nj 2 0 miss 1 2\n",
        None,
    ),
    (
        "a 0 24 s 1\n",
        512,
        "o 0 0xc000000000\nj 0 0 take 0 5 0\n",
        Some((4, 1)),
    ),
    (
        "a 0 24 s 1\n",
        512,
        "o 0 0xc000000000\nj 0 0 take 0 1 6\nj 1 0 miss 512 0\n",
        None,
    ),
    (
        "a 0 24 s 1\n",
        512,
        "o 0 0xc000000000\nj 0 0 miss 4294967295 255\n",
        Some((4, 1)),
    ),
    (
        "a 0 24 s 1\n",
        0,
        "o 0 0xc000000000\nj 0 0 take 0 1 6\nj 1 0 give 0 1\nj 2 0 scav 0 1\n",
        Some((4, 1)),
    ),
    (
        "a 0 24 s 1\n",
        0,
        "o 0 0xc000000000\nj 0 0 take 0 1 6\nj 1 0 take 1 1 6\nj 2 0 give 0 1\nj 3 0 give 1 1\nj 4 0 scav 0 2\n",
        Some((4, 1)),
    ),
    (
        "a 0 24 s 1\ngc 1\n",
        512,
        "o 0 0xc000000000\nj 0 0 take 0 1 6\nj 1 1 give 0 1\n",
        None,
    ),
    // Rule 1: an answer too few, too many, or wrong about size 0.
    ("a 0 24 s 1\n", 512, "j 0 0 take 0 1 6\n", Some((1, 2))),
    ("a 0 24 s 1\n", 512, "", Some((1, 1))),
    (
        "a 0 24 s 1\n",
        512,
        "o 0 0xc000000000\no 1 0xc000000000\nj 0 0 take 0 1 6\n",
        Some((1, 2)),
    ),
    (
        "a 0 24 s 1\n",
        512,
        "o 0 zero\nj 0 0 take 0 1 6\n",
        Some((1, 1)),
    ),
    ("a 0 0 n 1\n", 512, "o 0 0xc000000000\n", Some((1, 1))),
    ("a 0 0 n 1\n", 512, "o 0 miss 0\n", Some((1, 1))),
    (
        "a 0 24 s 1\na 0 0 n 1\n",
        512,
        "o 0 0xc000000000\nj 0 0 take 0 1 6\nj 1 0 take 0 1 6\n",
        Some((1, 4)),
    ),
    (
        "a 0 24 s 1\na 0 0 n 1\n",
        512,
        "o 0 0xc000000000\no 1 0xc000000000\nj 0 0 take 0 1 6\n",
        Some((1, 2)),
    ),
    (
        "a 0 24 s 1\na 0 0 n 1\n",
        512,
        "o 0 zero\no 1 0xc000000000\nj 0 0 take 0 1 6\n",
        Some((1, 1)),
    ),
    ("", 512, "o 0 zero\n", Some((1, 1))),
    // Rule 1 comes before rule 2.
    (
        "a 0 24 s 1\n",
        512,
        "o 0 zero\nj 0 0 take 1 1 6\n",
        Some((1, 1)),
    ),
    ("a 0 24 s 1\n", 512, "j 0 0 take 1 1 6\n", Some((1, 2))),
];
