//! How many pieces there may be.

ghost use Rattle.std.specs.Prelude.{◌≤◌};
ghost use Rattle.report_check.specs.declared.pieces.TheConstants.{MAX_PIECES};

/// The most pieces in which a report's objects are judged.
pub const MAX_PIECES: u32 = 64;

/// How many pieces a report's objects are judged in: from 1 to 64.
#[derive(Clone, Copy, Debug)]
pub struct Pieces {
    /// How many there are.
    pub count: u32,
    ghost some: { 1 ≤ count },
    ghost few: { count ≤ MAX_PIECES },
}
