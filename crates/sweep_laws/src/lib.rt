//! The moves of span ownership, what they are by definition, and the laws of the rule that they keep.
#![tactic(auto)]

mod kind;
mod moves;
mod roles;

pub use kind::Kind;
pub use moves::{Claimed, Found, Move, Reply, StepFault};
pub use roles::Role;
