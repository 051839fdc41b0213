//! The lists that the state of span ownership is made of, with room for more, and with indices by page beside them.
//!
//! Contracts see the lists alone, in the order in which things came. The tables beside them are private, and each is written
//! by the same call as its list. Room is made before a move, so that a move takes no memory.
#![tactic(auto)]

mod entries;
mod hand;
mod indices;
mod life;
mod lives;
mod numbers;
mod places;
mod set;
mod spare;

pub use entries::Entries;
pub use hand::CoreHand;
pub use indices::Indices;
pub use life::Life;
pub use lives::Lives;
pub use numbers::Numbers;
pub use set::{CoreSet, name_page};
pub use spare::Spare;
