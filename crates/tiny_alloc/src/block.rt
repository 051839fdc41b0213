//! Blocks that tiny objects share.

ghost use Rattle.std.specs.Prelude.{◌-◌, ◌^◌, ◌≤◌};

/// The bytes of a block.
pub const BLOCK: u32 = 16;

/// A current block, as Go's `mcache` keeps it in `tiny` and `tinyoffset`.
#[derive(Clone, Copy, Debug)]
pub(crate) struct Current {
    /// Where it begins: the address of its first object.
    pub start: u64,
    /// How many of its bytes are used, up to 16.
    pub offset: u32,
    ghost start_fits: { start ≤ 2 ^ 64 - 17 },
    ghost offset_fits: { offset ≤ 16 },
}

/// Where in a block an object stands.
#[derive(Clone, Copy, Debug)]
pub(crate) struct Seat {
    /// Where the block begins.
    pub start: u64,
    /// The bytes before the object, up to 15.
    pub offset: u32,
}
