//! Where tiny objects of one processor lie in their blocks, row by row. Expected values are worked out by hand.
#![tactic(auto)]

#[cfg(test)]
mod tests;
