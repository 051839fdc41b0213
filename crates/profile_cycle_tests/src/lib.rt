//! What samplers answer, and what rings publish, row by row, through the public calls of `profile_cycle`.
#![tactic(auto)]

#[cfg(test)]
mod tests;
