//! The one writer of a trace's text. What the text is stands with the trace (`trace_reader`).
#![tactic(auto)]

mod print;
mod spelling;

pub use print::print_trace;
