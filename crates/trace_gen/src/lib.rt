//! Traces that are made from a seed and a number of objects.
#![tactic(auto)]

mod laws;
mod made;

pub use laws::a_made_trace_is_within_limits;
pub use made::make_trace;
