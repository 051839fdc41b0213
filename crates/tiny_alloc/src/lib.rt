//! Tiny objects: small objects without pointers that share a block of 16 bytes.
//!
//! `Tiny` is a processor's current block, as a run would keep it. `specs/Blocks.antt` and `specs/Riders.antt` have the rule, which is
//! that of Go's tiny allocator (`mallocgc` in `malloc.go`). `specs/Base.antt` has the base, by which the rest of a report is judged:
//! the trace in which the first object of each block has the whole block, and the others are nothing. `specs/Sound.antt` says when
//! a report of such a trace is sound, and `laws.rt` what follows for the bytes of its tiny objects; `specs/Versions.antt` says the same
//! for traces of all versions. `specs/Rides.antt` has the rule by addresses, as a run knows blocks, and `specs/Growing.antt` the base as
//! the run goes on.
#![tactic(auto)]

mod base;
mod block;
mod growing;
mod laws;
mod lone;
mod marks;
mod part;
mod parts;
mod tiny;

pub use base::{Based, base_of};
pub use block::BLOCK;
pub use growing::Growing;
pub use laws::{a_tiny_object_lies_in_its_block, tiny_objects_are_apart};
pub use lone::all_leads;
pub use part::{Part, Rider};
pub use parts::is_tiny;
pub use tiny::Tiny;
