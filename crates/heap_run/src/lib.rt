//! The run of a trace over all processors: in each cycle the driver sends out the workers of the processors with events, of the
//! background sweepers and of the scavenger, which run beside each other, each in a thread; it takes them in, sweeps what is left,
//! flushes the caches of the processors that had no events, and ends the cycle. What the events of a single processor come to is put
//! straight into the run's own lists; of several processors it is merged into them. Watchers may look at the run's profile beside the
//! workers: the driver publishes it as each cycle ends.
//!
//! `specs/Turns.antt` has what a worker's turn leaves behind, `specs/Served.antt` what the logs tell of the answers,
//! `specs/Riding.antt` what a worker asks of the heap where tiny objects ride in blocks,
//! `specs/Swept.antt` what the collected notes tell of the sweeps, `specs/Gains.antt` what lists got behind what they had,
//! and `specs/Settled.antt`, `specs/Profiled.antt` and `specs/Runs.antt` what the run keeps from cycle to cycle. `specs/Watching.antt` has
//! what is published meanwhile, and `specs/Watched.antt` what watchers saw of it.
#![tactic(auto)]

mod audience;
mod course;
mod cycle;
mod events;
mod going_out;
mod lanes;
mod lists;
mod merge;
mod profile;
mod queues;
mod rest;
mod run;
mod sorting;
mod turns;
mod watched;

pub use profile_readers::Sight;
pub use run::{Options, Ran, run_trace};
pub use watched::{Watched, run_watched};
