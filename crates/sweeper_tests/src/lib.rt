//! What sweeping, paying and reclaiming answer, row by row, through the public calls of `sweeper`. Expected values are worked out by hand
//! from the rules of the calls.
//!
//! `scene` has what a hand works on, in such a state that each call may be made.
#![tactic(auto)]

#[cfg(test)]
mod cached;
#[cfg(test)]
mod meet;
#[cfg(test)]
mod scene;
#[cfg(test)]
mod tests;
