//! The sets of spans, over the steps of the shared span table: a span is pushed to the swept set of its class, and popped from a
//! swept or an unswept one; and the sweep of a span in hand.
//!
//! `specs/Sets.antt` says which set is meant, `specs/Pops.antt` what a pop did by its answer, `specs/Sweeps.antt` what a sweep did.
//! No call is refused, waits for another worker or takes memory, but for `Hand::reserve_note`.
#![tactic(auto)]

mod answers;
mod hand;
mod pace;
mod pops;
mod pushes;
mod resets;
mod sets;
mod sweep;

pub use answers::{Pop, PopBase};
pub use hand::{Hand, Shop};
pub use pace::Distance;
pub use pops::{pop_swept, pop_unswept};
pub use pushes::{claim, fill, push};
pub use resets::reset;
pub use sets::{Claim, SetId, swept_number, unswept_number};
pub use sweep::sweep_in_hand;
