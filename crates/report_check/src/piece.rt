//! The pieces in which the objects are judged.

ghost use Rattle.std.specs.Prelude.{◌≡◌, ◌≤◌, MatchBool};
ghost use Rattle.report_check.specs.Pieces.{IsSeen};

use crate::items::Item;
use cycle_history::Answer;

/// A piece of so many: the objects of each size class that leaves the piece's number as it is divided by the number of pieces.
#[derive(Clone, Copy, Debug)]
pub struct Piece {
    /// The piece's number, from 0.
    pub number: u32,
    /// How many pieces there are.
    pub count: u32,
}

impl Piece {
    /// Whether the item is a placed one of the piece.
    pub fn sees(self, item: &Item) -> bool
        requires { 1 ≤ self.count }
        ensures { MatchBool result (IsSeen self item.now) (¬ IsSeen self item.now) }
    {
        match item.answer {
            Answer::Placed(_) => u32::from(item.class) / 2 % self.count == self.number,
            _ => false,
        }
    }
}
