//! The lines of a report's profile, read from the ring of a run, and that they are those which a sound report has.
//!
//! `specs/Read.antt` says which lines are read from what a ring has published, and in which order. `specs/Counted.antt` has
//! what the calls of a run's tallies have counted, cycle by cycle, and `specs/Told.antt` what the lines tell then.
#![tactic(auto)]

mod laws;
mod lines;
mod order;

pub use laws::{
    a_cycle_is_counted, a_mark_end_begins_counting, a_run_begins_counting,
    a_sweep_shows_its_mark_end, buckets_differ, lines_begin, lines_go_on, lines_of_each_end,
    lines_stay, lines_tell_the_last, shown_numbers_are_few,
};
pub use lines::{add_all, add_changed};
pub use order::order_of;
