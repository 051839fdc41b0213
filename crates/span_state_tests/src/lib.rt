//! Spans' bodies and the marks of a mark end, worked by hand.
#![tactic(auto)]

#[cfg(test)]
mod tests;
