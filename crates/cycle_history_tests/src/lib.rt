//! A small trace with two mark ends, and its marks and totals, typed by hand.
#![tactic(auto)]

#[cfg(test)]
mod tests;
