//! The rule of the table.
use crate::view::{Item, SeatView, Size};
use atomic_table::TableRule;

/// The rule: words, slots and views show one state (`specs/Running.antt`), or the driver, alone, is at a mark end (`specs/Turning.antt`).
pub struct OneState;

impl TableRule<Item, SeatView, Size> for OneState {
    ghost use Rattle.span_table.specs.Running.{first_seat_view};
    ghost use Rattle.span_table.specs.Turning.{Ruled};

    ghost holds = { λ key. Ruled key.pages };

    ghost first = { λ key. first_seat_view key.pages key.goal key.procs key.workers };
}
