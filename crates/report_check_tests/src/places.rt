//! Rule 4.

use crate::tests::Row;

pub(crate) const ROWS: [Row; 11] = [
    // These meet the rules 1 to 4, or break rule 4.
    (
        "a 0 24 s 1\n",
        512,
        "o 0 0xc000002000\nj 0 0 take 0 1 6\n",
        Some((4, 1)),
    ),
    (
        "a 0 24 s 1\n",
        512,
        "o 0 0xbfffffffff\nj 0 0 take 0 1 6\n",
        Some((4, 1)),
    ),
    (
        "a 0 24 s 1\n",
        512,
        "o 0 0xffffffffffffffff\nj 0 0 take 0 1 6\n",
        Some((4, 1)),
    ),
    // The last slot of the span, and the bytes behind it.
    (
        "a 0 24 s 1\n",
        512,
        "o 0 0xc000001fe0\nj 0 0 take 0 1 6\n",
        None,
    ),
    (
        "a 0 24 s 1\n",
        512,
        "o 0 0xc000001ff8\nj 0 0 take 0 1 6\n",
        Some((4, 1)),
    ),
    // An address that is no slot's, and one of another span class.
    (
        "a 0 24 s 1\n",
        512,
        "o 0 0xc000000008\nj 0 0 take 0 1 6\n",
        Some((4, 1)),
    ),
    (
        "a 0 24 s 1\na 0 24 n 1\n",
        512,
        "o 0 0xc000000000\no 1 0xc000000018\nj 0 0 take 0 1 6\n",
        Some((4, 2)),
    ),
    // The life begins after the cycle of the object.
    (
        "a 0 24 s 1\ngc 1\n",
        512,
        "o 0 0xc000000000\nj 0 1 take 0 1 6\n",
        Some((4, 1)),
    ),
    // The life ends in the cycle that a mark end begins: the object is marked, or it isn't.
    (
        "a 0 24 s 1\ngc 1\nm 0 0\n",
        512,
        "o 0 0xc000000000\nj 0 0 take 0 1 6\nj 1 1 give 0 1\n",
        Some((4, 1)),
    ),
    (
        "a 0 24 s 1\ngc 1\n",
        512,
        "o 0 0xc000000000\nj 0 0 take 0 1 6\nj 1 1 give 0 1\n",
        None,
    ),
    // The later of two objects is wrong sooner, and the earlier one's line is the first.
    (
        "a 0 24 s 1\na 0 24 s 1\ngc 1\nm 0 0\n",
        512,
        "o 0 0xc000000000\no 1 0xc000000020\nj 0 0 take 0 1 6\nj 1 1 give 0 1\n",
        Some((4, 1)),
    ),
];
