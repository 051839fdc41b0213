//! What a sweep reads before it takes anything: what a generation word says of its span, which of the pages waits for its sweep
//! without a mark, and where the marks of one page stand. Nothing is written here.
#![tactic(auto)]

mod marks;
mod waiting;
mod words;

pub use marks::{Run, run_of};
pub use waiting::first_waiting;
pub use words::{role, waits};
