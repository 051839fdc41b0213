//! A list whose growth may find no memory, and that contracts see as its items.
#![tactic(auto)]

mod list;

pub use list::{List, NoMemory};
