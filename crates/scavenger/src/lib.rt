//! The scavenger: it makes scavenging steps until backed pages are at most the goal, or no free page is backed.
//!
//! `specs/Scavenges.antt` says which lines the journal got and why the call ended.
#![tactic(auto)]

mod scavenge;

pub use scavenge::{Reason, Stopped, scavenge_to};

#[cfg(test)]
mod tests;
