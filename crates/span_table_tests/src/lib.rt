//! What the calls on shared spans and their sets answer, row by row. Expected values are worked out by hand from the rules of the calls.
//!
//! `turns` has helpers across a mark end, for the rows of other crates too.
#![tactic(auto)]

#[cfg(test)]
mod caches;
#[cfg(test)]
mod first_cycle;
#[cfg(test)]
mod helpers;
#[cfg(test)]
mod next_cycle;
#[cfg(test)]
mod side_by_side;
#[cfg(test)]
mod table;
#[cfg(test)]
mod tests;
pub mod turns;
