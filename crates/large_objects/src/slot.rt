//! The slot of a large object.

ghost use Rattle.std.specs.Prelude.{◌≡◌, ◌*◌};

use size_classes::PAGE_SIZE;

/// The bytes of the slot of a large object of so many pages: all of them (`mcache.go`, `allocLarge`). A sampled object counts with its
/// slot.
pub fn large_slot(pages: u32) -> u64
    ensures { result ≡ 8192 * pages }
{
    PAGE_SIZE * u64::from(pages)
}
