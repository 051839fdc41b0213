//! Reports as texts, typed by hand: what the writer writes, and what the reader reads and refuses.
#![tactic(auto)]

#[cfg(test)]
mod tests;
