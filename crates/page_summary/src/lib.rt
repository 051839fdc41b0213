//! Sums of runs of pages: how many pages are free at a run's front, in its longest free run and at its back. The
//! sums of neighbouring runs are merged into that of the joined pages.
#![tactic(auto)]

mod join;
mod level;
mod search;
mod sum;

pub use level::rebuild;
pub use search::{MAX_ENTRIES, Place, descend};
pub use sum::{MOST_PAGES, Sum, merge};
