//! Processors: each has a cache of one span a span class, from which it allocates small objects.
//!
//! `specs/Cache.antt` has what contracts see of a processor, and `specs/Serves.antt` how it agrees with the worker that it runs on.
//! `specs/Hits.antt`, `specs/Flushes.antt`, `specs/Refills.antt` and `specs/Allocs.antt` say what each call did, by its answer and by the
//! worker's own log, a refill with the words of `specs/RefillLogs.antt` and `specs/Findings.antt`; `specs/Leaves.antt` says what
//! it leaves, and `specs/Samples.antt` what it counts in the profile.
#![tactic(auto)]

mod allocs;
mod flushes;
mod hits;
mod laws;
mod proc;
mod refills;
mod samples;

pub use allocs::{Placed, alloc};
pub use central_lists::Look;
pub use flushes::flush;
pub use hits::{Hit, alloc_hit};
pub use laws::a_refused_allocation_may_be_made_again;
pub use proc::Proc;
pub use refills::{CacheFrom, refill};
pub use samples::count_placed;
pub use sweeper::Refused;
