//! What watchers of a live profile see, on one thread and beside a publisher. Expected values are worked out by hand.
#![tactic(auto)]

#[cfg(test)]
mod tests;
