//! `goheap`: Go's memory allocator, driven by a trace, over any source and sinks.
//!
//! `run` reads a trace and writes its report; `watch` does so before watchers of its profile. `check` reads a trace and behind it a report, and says whether the report is sound;
//! `heap` writes the heap profile of a sound one.
//! `demo` makes a trace, runs and checks it, and sums up. The program of these words, over the standard streams, is the
//! crate `goheap`.
#![tactic(auto)]

mod demo;
mod generate;
mod judging;
mod top;
mod watch;

pub use commands::{refuse_trace, refuse_words};
pub use top::{goheap, goheap_plain};
