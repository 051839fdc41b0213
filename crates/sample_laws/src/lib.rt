//! Which objects of a cycle are sampled, and for which buckets they count, from the answers to the cycle's events.
//!
//! `specs/Countdowns.antt` has the countdown of a processor and the flags that it gives, `specs/Numbers.antt` the numbers of
//! buckets, and `specs/Counted.antt` how many flagged objects a bucket has. `specs/By.antt` parts a cycle by its processors.
#![tactic(auto)]

mod laws;

pub use laws::{
    a_countdown_samples_a_cycle, flagged_objects_are_samples, lists_know_the_samples,
    processors_count_a_cycle,
};
