//! A span with room for a processor's cache, of one span class: from the swept partial set, or swept here out of the unswept sets;
//! else the reason why a new one is needed.
//!
//! `specs/Lists.antt` says by the answer what the call did, by the worker's own log, and what it has afterwards, in the words of
//! `specs/Works.antt` and `specs/Looks.antt`. No call waits for another worker.
#![tactic(auto)]

mod answers;
mod glances;
mod laws;
mod lists;

pub use answers::{FromSets, Look};
pub use laws::a_refused_look_may_be_made_again;
pub use lists::cache_span;
