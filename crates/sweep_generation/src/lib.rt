//! Who may touch a span: the states of its generation word, and the moves between them over plain lists.
//!
//! A span is touched by one worker at a time: who holds, sweeps or has cached it. The generation word of its first page
//! tells which of these it is, and each move writes the word last. What is of no worker is written under the heap lock
//! (lives and owners), by whoever has an index of it (sets), or by a mark end, while no worker has anything in hand.
//! `docs/ownership-core.md` states the rules. [`step`] makes a move or refuses it; [`step_met`] is for a caller that proves
//! what the move needs, and [`next_marked`] for such a caller that has the marks of a mark end and not their pairs.
#![tactic(auto)]

mod mark_end;
mod moves_cache;
mod moves_lock;
mod moves_pages;
mod moves_pull;
mod moves_sets;
mod moves_sweep;
mod owners;
mod page_words;
mod pulled;
mod run;
mod scan;
mod start;
mod state;
mod steps;
mod tries;
mod tries_life;
mod tries_next;
mod tries_sets;
mod unpopped;

pub use mark_end::next_marked;
pub use run::run_moves;
pub use state::Core;
pub use steps::{step, step_met};
pub use sweep_laws::{Claimed, Found, Kind, Move, Reply, Role, StepFault};
pub use sweep_lists::{CoreHand, CoreSet, Entries, Indices, Life, Numbers};
pub use sweep_reads::role;
