//! Large objects: each has a span of its own.
//!
//! `specs/Larges.antt` says what a call did, by its answer and by the worker's own log.
#![tactic(auto)]

mod larges;
mod laws;
mod slot;

pub use larges::alloc_large;
pub use laws::a_refused_large_object_may_be_asked_for_again;
pub use slot::large_slot;
pub use sweeper::Refused;
