//! Runs of whole traces with background sweepers, whose reports are typed by hand.
#![tactic(auto)]

#[cfg(test)]
mod tests;
