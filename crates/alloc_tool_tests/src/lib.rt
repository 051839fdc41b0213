//! The program over streams in memory: its words, its reports, what it refuses and tells, and streams that fail at each place.
#![tactic(auto)]

#[cfg(test)]
mod tests;
