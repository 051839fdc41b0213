//! The page cache of a processor: the free pages of a block of 64 pages, of which spans of fewer than 16 pages are cut without a look at
//! the heap (`mpagecache.go`).
#![tactic(auto)]

mod block;
mod cache;
#[cfg(test)]
mod tests;
mod word;

pub use block::{Block, CutNote};
pub use cache::PageCache;
