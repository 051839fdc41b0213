//! What processors and large objects answer, row by row, through the public calls of `proc_cache` and `large_objects`. Expected values are worked
//! out by hand from the rules of the calls.
//!
//! `Scene` has what a processor works on, in such a state that each call may be made.
#![tactic(auto)]

mod objects;
mod scene;
#[cfg(test)]
mod tests;
mod turns;

pub use objects::Object;
pub use scene::Scene;
