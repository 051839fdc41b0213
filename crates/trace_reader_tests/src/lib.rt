//! Traces that are read, refused and printed, and made ones.
#![tactic(auto)]

#[cfg(test)]
mod making;
#[cfg(test)]
mod reading;
