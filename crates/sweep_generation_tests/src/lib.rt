//! What single moves and runs of moves answer, row by row, through the public calls of `sweep_generation`.
#![tactic(auto)]

#[cfg(test)]
mod run_tests;
#[cfg(test)]
mod tests;
