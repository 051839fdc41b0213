//! The sampled heap profile's parts: which objects are sampled, the buckets that count them, and the ring in which counts
//! wait until their cycle is published.
//!
//! The rules are those of Go 1.21's `mprof.go` and `malloc.go`; `docs/profile.md` states them. `specs/Sampling.antt` says
//! which objects are sampled, `specs/Naming.antt` how buckets are numbered, and `specs/History.antt` what the calls of a
//! ring publish.
#![tactic(auto)]

mod buckets;
mod calls;
mod counts;
mod laws;
mod listed;
mod moving;
mod ring;
mod sampler;
mod sight;
mod steps;
mod words;

pub use buckets::{Bucket, Buckets};
pub use calls::{Call, View, What};
pub use counts::Count;
pub use laws::a_pair_is_a_bucket_where_an_event_has_it;
pub use ring::{Ring, Tally};
pub use sampler::Sampler;
