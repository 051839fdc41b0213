//! Rule 3.

use crate::tests::Row;

pub(crate) const ROWS: [Row; 9] = [
    // Rule 3: a line that is no Miss of the object's kind, or that an earlier object names.
    (
        "a 0 4194304 s 1\na 0 1 s 1\n",
        512,
        "o 0 0xc000000000\no 1 miss 0\nj 0 0 take 0 512 0\nj 1 0 miss 1 2\n",
        Some((3, 2)),
    ),
    (
        "a 0 4194304 s 1\na 0 1 s 1\n",
        512,
        "o 0 0xc000000000\no 1 miss 2\nj 0 0 take 0 512 0\nj 1 0 miss 1 2\n",
        Some((3, 2)),
    ),
    (
        "a 0 4194304 s 1\na 0 1 s 1\n",
        512,
        "o 0 0xc000000000\no 1 miss 18446744073709551615\nj 0 0 take 0 512 0\nj 1 0 miss 1 2\n",
        Some((3, 2)),
    ),
    (
        "a 0 4194304 s 1\na 0 1 s 1\n",
        512,
        "o 0 0xc000000000\no 1 miss 1\nj 0 0 take 0 512 0\nj 1 0 miss 2 2\n",
        Some((3, 2)),
    ),
    (
        "a 0 4194304 s 1\na 0 1 s 1\n",
        512,
        "o 0 0xc000000000\no 1 miss 1\nj 0 0 take 0 512 0\nj 1 0 miss 1 3\n",
        Some((3, 2)),
    ),
    (
        "a 0 4194304 s 1\na 0 1 s 1\na 0 1 s 1\n",
        512,
        "o 0 0xc000000000\no 1 miss 1\no 2 miss 1\nj 0 0 take 0 512 0\nj 1 0 miss 1 2\n",
        Some((3, 3)),
    ),
    (
        "a 0 4194304 s 1\na 0 1 s 1\na 0 1 s 1\n",
        512,
        "o 0 0xc000000000\no 1 miss 3\no 2 miss 1\nj 0 0 take 0 512 0\nj 1 0 miss 1 2\n",
        Some((3, 2)),
    ),
    (
        "a 0 4194304 s 1\ngc 1\na 0 1 s 1\n",
        512,
        "o 0 0xc000000000\no 1 miss 1\nj 0 0 take 0 512 0\nj 1 0 miss 1 2\n",
        Some((3, 2)),
    ),
    (
        "a 0 4194304 s 1\ngc 1\na 0 1 s 1\n",
        512,
        "o 0 0xc000000000\no 1 miss 1\nj 0 0 take 0 512 0\nj 1 1 miss 1 2\n",
        None,
    ),
];
