//! The pages of one region of chunks: which span has each of them, which are backed by memory, and a journal
//! that is legal by its type (`docs/pages.md`).
#![tactic(auto)]

mod allocator;
mod levels;
mod runs;
mod starts;

pub use allocator::{NoRun, Pages};
