//! The judge of reports in several threads.
//!
//! `check_parallel` answers what `check` of `report_check` answers. First it judges beside each other what asks for no answer
//! (`settled`): the second rule, what the journal says of the sweeps, and the last cycle of each object. Then the objects get their
//! answers and seats in parts of their list (`seating`), and the mark ends are gone over in parts of the cycles (`marking`): the rules 1
//! and 4. Where one of these is broken, or the third, the judges of the whole say which and at which line. Then it judges beside each
//! other: the third rule; the overlaps and the filling in pieces of the size classes (`pieces`, by the bytes of `homes`), whose answers
//! are joined by the least line (`least`); and what is left of the sweeps, the totals and the profile (`closing`).
//!
//! `check_version_parallel` (`versions`) answers so what `check_version` answers of a trace of any version.
#![tactic(auto)]

mod closing;
mod homes;
mod judge;
mod least;
mod marking;
mod pieces;
mod seating;
mod settled;
mod versions;

pub use judge::check_parallel;
pub use versions::check_version_parallel;
