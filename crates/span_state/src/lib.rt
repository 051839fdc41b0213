//! The state of one span: which of its objects are allocated, and what a mark end says of them.
#![tactic(auto)]

mod body;
mod marks;
mod row;
mod rows;
mod sweep;

pub use body::Body;
pub use marks::Marks;
pub use sweep::{SweepNote, Swept};
