//! Rule 5: objects that live in one cycle don't overlap.

ghost use Rattle.std.specs.Prelude.{◌≤◌, IfErr, OnOk};
ghost use Rattle.cycle_history.specs.Requests.{marked_by};
ghost use Rattle.cycle_history.specs.Rules.{AreApart};
ghost use Rattle.report_check.specs.Placing.{BreaksApart};

use crate::CheckFault;
use crate::objects::Objects;
use crate::piece::Piece;
use crate::tops::Tops;
use std::alloc::Global;

impl Objects<'_> {
    ghost use Rattle.report_check.specs.Fault.{IsFaultOf};
    ghost use Rattle.report_check.specs.Items.{objects_of};
    ghost use Rattle.report_check.specs.Known.{AreKnownItems};
    ghost use Rattle.report_check.specs.Pieces.{seen_by};

    /// Whether no two of the piece's objects that live in one cycle overlap: rule 5. As each has its seat, two do where
    /// they have one, and the first still lives in the other's cycle. It takes time in the objects.
    pub fn judge_apart(&self, alloc: Global, piece: Piece) -> Result<(), CheckFault>
        requires piece { 1 ≤ piece.count }
        requires known { AreKnownItems self.now.trace.now self.now.report.now self.now.items.now self.now.lasts.now }
        ensures apart { OnOk result (AreApart (marked_by self.now.trace.now) (objects_of (seen_by piece self.now.items.now))) }
        ensures fault { IfErr result (IsFaultOf 5 (BreaksApart (marked_by self.now.trace.now) (objects_of (seen_by piece self.now.items.now)))) }
    {
        let mut tops = Tops::new(alloc, self.report.journal().len())?;
        for number in 0..self.items.len() {
            let item = self.items[number];
            if piece.sees(&item) {
                if tops.at(item.life, item.index) > item.cycle {
                    let line = number as u64 + 1;
                    return Err(CheckFault::Broken { rule: 5, line });
                }
                tops.raise(item.life, item.index, self.lasts[number] + 1)?;
            }
        }
        Ok(())
    }
}
