//! A table of traces and reports as text, for rule 9, where each placed object is sampled.

/// A line of a profile: its mark end, stack, slot size, allocs and frees.
pub(crate) type Bucket = (u32, u32, u64, u64, u64);

/// The lines of a trace of one processor and one chunk, a report of it without its profile and its last line, the lines of
/// its profile, and the rule and the line that it breaks first.
pub(crate) type ProfileRow = (
    &'static str,
    &'static str,
    &'static [Bucket],
    Option<(u8, u64)>,
);

/// Two objects of 24 bytes, of which a mark end marks the second, and another.
const REUSED: &str = "a 0 24 s 1\na 0 24 s 1\ngc 1\nm 1 1\na 0 24 s 1\n";

/// A sound report of it but for the profile, as all these are.
const REUSED_REPORT: &str =
    "o 0 0xc000000000\no 1 0xc000000018\no 2 0xc000000000\nj 0 0 take 0 1 6\ns 1 0 1 1\nt 3 3 1\n";

/// Three objects of two stacks, all of which a mark end marks; then one of a third stack, and a mark end that marks one alone.
const STACKS: &str = "a 0 24 s 1\na 0 24 s 1\na 0 24 s 2\ngc 1\nm 0 2\na 0 24 s 3\ngc 1\nm 1 1\n";

const STACKS_REPORT: &str =
    "o 0 0xc000000000\no 1 0xc000000018\no 2 0xc000000030\no 3 0xc000000048\nj 0 0 take 0 1 6\ns 1 0 3 0\ns 2 0 1 3\nt 3 4 3\n";

/// An object that three mark ends mark.
const KEPT: &str = "a 0 24 s 1\ngc 1\nm 0 0\ngc 1\nm 0 0\ngc 1\nm 0 0\n";

const KEPT_REPORT: &str =
    "o 0 0xc000000000\nj 0 0 take 0 1 6\ns 1 0 1 0\ns 2 0 1 0\ns 3 0 1 0\nt 3 1 0\n";

/// An object that the first of three mark ends marks.
const DEAD: &str = "a 0 24 s 1\ngc 1\nm 0 0\ngc 1\ngc 1\n";

const DEAD_REPORT: &str =
    "o 0 0xc000000000\nj 0 0 take 0 1 6\nj 1 2 give 0 1\ns 1 0 1 0\ns 2 0 0 1\nt 3 1 1\n";

/// An object of the whole region, and one that is missed, of which a mark end marks the first.
const MISSED: &str = "a 0 4194304 s 1\na 0 1 s 2\ngc 1\nm 0 0\n";

const MISSED_REPORT: &str =
    "o 0 0xc000000000\no 1 miss 1\nj 0 0 take 0 512 0\nj 1 0 miss 1 2\ns 1 0 1 0\nt 0 1 0\n";

pub(crate) const ROWS: [ProfileRow; 39] = [
    // one mark end: two objects of stack 1 came before it, and it doesn't mark one
    (REUSED, REUSED_REPORT, &[(1, 1, 24, 2, 1)], None),
    // nothing is printed: the line is that of the end
    (REUSED, REUSED_REPORT, &[], Some((9, 7))),
    // a free too many, and one too few
    (REUSED, REUSED_REPORT, &[(1, 1, 24, 2, 2)], Some((9, 7))),
    (REUSED, REUSED_REPORT, &[(1, 1, 24, 2, 0)], Some((9, 7))),
    // an object that came behind the mark end is counted
    (REUSED, REUSED_REPORT, &[(1, 1, 24, 3, 1)], Some((9, 7))),
    // another slot size, and another stack
    (REUSED, REUSED_REPORT, &[(1, 1, 32, 2, 1)], Some((9, 7))),
    (REUSED, REUSED_REPORT, &[(1, 2, 24, 2, 1)], Some((9, 7))),
    // a line too many: of no bucket, of no samples, or the same again
    (
        REUSED,
        REUSED_REPORT,
        &[(1, 1, 24, 2, 1), (1, 2, 24, 1, 0)],
        Some((9, 8)),
    ),
    (
        REUSED,
        REUSED_REPORT,
        &[(1, 1, 24, 2, 1), (1, 3, 24, 0, 0)],
        Some((9, 8)),
    ),
    (
        REUSED,
        REUSED_REPORT,
        &[(1, 1, 24, 2, 1), (1, 1, 24, 2, 1)],
        Some((9, 8)),
    ),
    // mark ends that aren't there
    (REUSED, REUSED_REPORT, &[(2, 1, 24, 2, 1)], Some((9, 7))),
    (REUSED, REUSED_REPORT, &[(0, 1, 24, 0, 0)], Some((9, 7))),
    (
        REUSED,
        REUSED_REPORT,
        &[(0, 1, 24, 2, 1), (1, 1, 24, 2, 1)],
        Some((9, 7)),
    ),
    // a wrong total comes before a wrong profile
    (
        REUSED,
        "o 0 0xc000000000\no 1 0xc000000018\no 2 0xc000000000\nj 0 0 take 0 1 6\ns 1 0 1 1\nt 3 3 0\n",
        &[],
        Some((8, 6)),
    ),
    // two mark ends: as of the last one, and as of each
    (
        STACKS,
        STACKS_REPORT,
        &[(2, 1, 24, 2, 1), (2, 2, 24, 1, 1), (2, 3, 24, 1, 1)],
        None,
    ),
    (
        STACKS,
        STACKS_REPORT,
        &[
            (1, 1, 24, 2, 0),
            (1, 2, 24, 1, 0),
            (2, 1, 24, 2, 1),
            (2, 2, 24, 1, 1),
            (2, 3, 24, 1, 1),
        ],
        None,
    ),
    // a bucket is missing at the earlier mark end, and at the last one in both forms
    (
        STACKS,
        STACKS_REPORT,
        &[
            (1, 1, 24, 2, 0),
            (2, 1, 24, 2, 1),
            (2, 2, 24, 1, 1),
            (2, 3, 24, 1, 1),
        ],
        Some((9, 13)),
    ),
    (
        STACKS,
        STACKS_REPORT,
        &[
            (1, 1, 24, 2, 0),
            (1, 2, 24, 1, 0),
            (2, 1, 24, 2, 1),
            (2, 3, 24, 1, 1),
        ],
        Some((9, 13)),
    ),
    (
        STACKS,
        STACKS_REPORT,
        &[(2, 1, 24, 2, 1), (2, 2, 24, 1, 1)],
        Some((9, 11)),
    ),
    // a bucket without samples as of the earlier mark end
    (
        STACKS,
        STACKS_REPORT,
        &[
            (1, 1, 24, 2, 0),
            (1, 2, 24, 1, 0),
            (1, 3, 24, 0, 0),
            (2, 1, 24, 2, 1),
            (2, 2, 24, 1, 1),
            (2, 3, 24, 1, 1),
        ],
        Some((9, 11)),
    ),
    // the earlier mark end with the numbers of the last one
    (
        STACKS,
        STACKS_REPORT,
        &[
            (1, 1, 24, 2, 1),
            (1, 2, 24, 1, 0),
            (2, 1, 24, 2, 1),
            (2, 2, 24, 1, 1),
            (2, 3, 24, 1, 1),
        ],
        Some((9, 9)),
    ),
    // out of order: by stack, and by mark end
    (
        STACKS,
        STACKS_REPORT,
        &[
            (1, 2, 24, 1, 0),
            (1, 1, 24, 2, 0),
            (2, 1, 24, 2, 1),
            (2, 2, 24, 1, 1),
            (2, 3, 24, 1, 1),
        ],
        Some((9, 10)),
    ),
    (
        STACKS,
        STACKS_REPORT,
        &[
            (2, 1, 24, 2, 1),
            (2, 2, 24, 1, 1),
            (2, 3, 24, 1, 1),
            (1, 1, 24, 2, 0),
            (1, 2, 24, 1, 0),
        ],
        Some((9, 12)),
    ),
    // a first line that is wrong chooses the form, and is the first to be wrong
    (
        STACKS,
        STACKS_REPORT,
        &[
            (1, 1, 24, 9, 9),
            (2, 1, 24, 2, 1),
            (2, 2, 24, 1, 1),
            (2, 3, 24, 1, 1),
        ],
        Some((9, 9)),
    ),
    (
        STACKS,
        STACKS_REPORT,
        &[
            (3, 1, 24, 2, 1),
            (2, 1, 24, 2, 1),
            (2, 2, 24, 1, 1),
            (2, 3, 24, 1, 1),
        ],
        Some((9, 9)),
    ),
    // a line of an earlier mark end behind a first line of the last one
    (
        STACKS,
        STACKS_REPORT,
        &[(2, 1, 24, 2, 1), (1, 2, 24, 1, 0)],
        Some((9, 10)),
    ),
    // the numbers change at mark end 1 alone, and the last one prints the bucket still
    (
        KEPT,
        KEPT_REPORT,
        &[(1, 1, 24, 1, 0), (3, 1, 24, 1, 0)],
        None,
    ),
    (KEPT, KEPT_REPORT, &[(3, 1, 24, 1, 0)], None),
    // a bucket whose numbers didn't change, and one that the last mark end doesn't print
    (
        KEPT,
        KEPT_REPORT,
        &[(1, 1, 24, 1, 0), (2, 1, 24, 1, 0), (3, 1, 24, 1, 0)],
        Some((9, 8)),
    ),
    (KEPT, KEPT_REPORT, &[(1, 1, 24, 1, 0)], Some((9, 8))),
    // the frees change alone, at mark end 2
    (
        DEAD,
        DEAD_REPORT,
        &[(1, 1, 24, 1, 0), (2, 1, 24, 1, 1), (3, 1, 24, 1, 1)],
        None,
    ),
    (
        DEAD,
        DEAD_REPORT,
        &[(1, 1, 24, 1, 0), (3, 1, 24, 1, 1)],
        Some((9, 9)),
    ),
    // a free that is counted a mark end too late
    (
        DEAD,
        DEAD_REPORT,
        &[(1, 1, 24, 1, 0), (2, 1, 24, 1, 0), (3, 1, 24, 1, 1)],
        Some((9, 8)),
    ),
    // without a mark end there is no profile
    (
        "a 0 24 s 1\n",
        "o 0 0xc000000000\nj 0 0 take 0 1 6\nt 3 1 0\n",
        &[],
        None,
    ),
    (
        "a 0 24 s 1\n",
        "o 0 0xc000000000\nj 0 0 take 0 1 6\nt 3 1 0\n",
        &[(0, 1, 24, 1, 0)],
        Some((9, 4)),
    ),
    (
        "a 0 24 s 1\n",
        "o 0 0xc000000000\nj 0 0 take 0 1 6\nt 3 1 0\n",
        &[(1, 1, 24, 1, 0)],
        Some((9, 4)),
    ),
    // a missed object, and one of size 0, is no sample
    (MISSED, MISSED_REPORT, &[(1, 1, 4194304, 1, 0)], None),
    (
        MISSED,
        MISSED_REPORT,
        &[(1, 1, 4194304, 1, 0), (1, 2, 8, 1, 0)],
        Some((9, 8)),
    ),
    (
        "a 0 0 n 1\na 0 24 s 1\ngc 1\nm 1 1\n",
        "o 0 zero\no 1 0xc000000000\nj 0 0 take 0 1 6\ns 1 0 1 0\nt 3 1 0\n",
        &[(1, 1, 24, 1, 0)],
        None,
    ),
];
