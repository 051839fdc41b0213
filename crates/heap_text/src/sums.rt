//! The four numbers of a line, and their sums.

ghost use Rattle.std.specs.Prelude.{◌≡◌, ◌+◌, ◌∷◌, ◌++◌, [], List};
ghost use Rattle.heap_text.specs.Lawful.{AreLow};
ghost use Rattle.heap_text.specs.Text.{numbers_of, sums_of};

use crate::HeapLine;

/// What a line tells in numbers, or what all lines do together.
#[derive(Clone, Copy, Debug, PartialEq, Eq)]
pub(crate) struct Sums {
    /// The objects in use.
    pub objects: u64,
    /// Their bytes.
    pub bytes: u64,
    /// All objects that were allocated.
    pub all_objects: u64,
    /// Their bytes.
    pub all_bytes: u64,
}

impl Sums {
    /// Those of no line.
    pub(crate) fn none() -> Sums
        ensures { result ≡ sums_of [] }
    {
        Sums {
            objects: 0,
            bytes: 0,
            all_objects: 0,
            all_bytes: 0,
        }
    }

    /// The numbers of a line.
    pub(crate) fn of(line: &HeapLine) -> Sums
        ensures { result ≡ numbers_of line.now }
    {
        Sums {
            objects: line.objects,
            bytes: line.bytes,
            all_objects: line.all_objects,
            all_bytes: line.all_bytes,
        }
    }
}
