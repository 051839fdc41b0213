//! The first line feed among the next bytes, found by one look at all of them.

ghost use Rattle.std.specs.Prelude.{◌+◌, ◌≤◌, length};
ghost use Rattle.edge_io.specs.Line.{StopsAtFeed};

use std::simd::prelude::*;

/// How many bytes are looked at.
pub(crate) const NEAR: usize = 32;

/// How many of the [`NEAR`] bytes from this place on come before a line feed.
#[inline(always)]
pub(crate) fn before_feed(bytes: &[u8], at: usize) -> usize
    requires { at + 32 ≤ length bytes.now }
    ensures { StopsAtFeed bytes.now at result }
{
    let lanes = u8x32::from_slice(&bytes[at..]);
    let feeds = lanes.simd_eq(u8x32::splat(b'\n')).to_bitmask();
    if feeds == 0 {
        NEAR
    } else {
        feeds.trailing_zeros() as usize
    }
}
